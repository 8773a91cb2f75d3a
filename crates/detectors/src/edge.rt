// The pair of texels that an edge crosses, and which of the two it protects.
ghost use Rattle.std.specs.Prelude.{◌≡◌, ◌<◌, ◌&&◌};
ghost use Rattle.std.specs.Float.{binary32};
ghost use Rattle.std.specs.Float.Ieee.{ne, sub};
ghost use Rattle.ranges.specs.Constants.{half_of};
ghost use Rattle.numbers.specs.Scalar.{abs_of};
ghost use Rattle.ranges.specs.Config as Config;
ghost use Rattle.ground.specs.Lists.{any};
ghost use Rattle.detectors.specs.Texel.{channel};
ghost use Rattle.detectors.specs.Edge as Edge;
ghost use Rattle.detectors.specs.Inner.{crossed, carried};

use crate::pairs;
use numbers::{rounding, scalar};
use ranges::constants;

// How far from the outline the two medians of a pair may be, together.
pub fn radius(length: f64) -> f32
    ensures { result ≡ Config.radius length }
{
    rounding::narrow(constants::PROTECTION_RADIUS_TOLERANCE * length)
}

// How far median m is from the outline.
pub fn away(m: f32) -> f32
    ensures { result ≡ abs_of (sub binary32 m (half_of binary32)) }
{
    scalar::abs32(m - constants::HALF)
}

// The two medians together are near enough to the outline.
fn near(r: f32, am: f32, bm: f32) -> bool
    ensures { result ≡ Edge.near r am bm }
{
    away(am) + away(bm) < r
}

// Where a channel crosses the outline between ai and bi.
fn edge_point(ai: f32, bi: f32) -> f64
    ensures { result ≡ Edge.edge_point ai bi }
{
    (std::num::f32_to_f64_with_nan(ai) - constants::HALF_WIDE)
        / std::num::f32_to_f64_with_nan(ai - bi)
}

// Channel i crosses the outline between the two, and is not the median m of texel c. No test waits for another, and no channel for another.
fn candidate(a: [f32; 3], b: [f32; 3], c: [f32; 3], m: f32, i: usize) -> bool
    requires { i < 3 }
    ensures { result ≡ (ne (channel c i) m && crossed a b i) }
{
    let t = edge_point(a[i], b[i]);
    (c[i] != m) & ((t > 0.0) & (t < 1.0))
}

// Channel i is a candidate, and where it crosses it is the median of the three.
fn edge_between_texels_channel(candidate: bool, a: [f32; 3], b: [f32; 3], i: usize) -> bool
    requires { i < 3 }
    ensures { result ≡ (candidate && carried a b i) }
{
    if !candidate {
        return false;
    }
    let t = edge_point(a[i], b[i]);
    pairs::interpolated_median_linear(a, b, t) == pairs::mixed_channel(a, b, t, i)
}

// Some channel makes an edge and is not the median of texel c.
fn edge_between_texels(a: [f32; 3], b: [f32; 3], c: [f32; 3], m: f32) -> bool
    ensures { result ≡ any 3 (Edge.extreme a b c m) }
{
    let x = candidate(a, b, c, m, 0);
    let y = candidate(a, b, c, m, 1);
    let z = candidate(a, b, c, m, 2);
    if !(x | (y | z)) {
        return false;
    }
    edge_between_texels_channel(x, a, b, 0)
        || (edge_between_texels_channel(y, a, b, 1) || edge_between_texels_channel(z, a, b, 2))
}

// Texel c of the pair a, b, whose median is m, is protected.
pub fn pair_protects(
    r: f32,
    a: [f32; 3],
    b: [f32; 3],
    am: f32,
    bm: f32,
    c: [f32; 3],
    m: f32,
) -> bool
    ensures { result ≡ Edge.pair_protects r a b am bm c m }
{
    near(r, am, bm) && edge_between_texels(a, b, c, m)
}
