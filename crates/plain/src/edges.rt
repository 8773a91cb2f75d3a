// Pairs of texels that an edge crosses, and which of the two they protect. In a pair a is the lower texel, in a row the left, and b the other.
ghost use Rattle.std.specs.Prelude.{◌≡◌, ◌<◌, if◌then◌else◌};
ghost use Rattle.ranges.specs.Config as Config;
ghost use Rattle.detectors.specs.Texel.{texel_median};
ghost use Rattle.detectors.specs.Edge as Edge;
ghost use Rattle.correction.specs.Edges as Edges;
ghost use Rattle.plain.specs.Inner as Inner;
ghost use Rattle.plain.specs.Read.{read};

use crate::texels::Texel;
use crate::{linear, texels};
use numbers::{rounding, scalar};
use ranges::config::Settings;
use ranges::constants;

// How far from the outline the two medians of a pair may be, together.
fn radius(length: f64) -> f32
    ensures { result ≡ Config.radius length }
{
    rounding::narrow(constants::PROTECTION_RADIUS_TOLERANCE * length)
}

// Channel i makes an edge between a and b, and is not the median m of texel c.
fn is_extreme(a: [f32; 3], b: [f32; 3], c: [f32; 3], m: f32, i: usize) -> bool
    requires { i < 3 }
    ensures { result ≡ Edge.extreme a b c m i }
{
    let n = std::num::f32_to_f64_with_nan(a[i]) - constants::HALF_WIDE;
    let t = n / std::num::f32_to_f64_with_nan(a[i] - b[i]);
    let carries = linear::mixed_median(a, b, t) == scalar::mix(a[i], b[i], t);
    ((t > 0.0) & ((t < 1.0) & carries)) & (c[i] != m)
}

// The pair a, b protects texel c, which is one of the two.
fn pair_protects(r: f32, a: [f32; 3], b: [f32; 3], c: [f32; 3]) -> bool
    ensures { result ≡ Edge.pair_protects r a b (texel_median a) (texel_median b) c (texel_median c) }
{
    let am = linear::median(a);
    let bm = linear::median(b);
    let m = linear::median(c);
    let near = scalar::abs32(am - constants::HALF) + scalar::abs32(bm - constants::HALF) < r;
    let red = is_extreme(a, b, c, m, 0);
    let green = is_extreme(a, b, c, m, 1);
    let blue = is_extreme(a, b, c, m, 2);
    near & (red | green | blue)
}

// The pair of t with the texel nx, ny, where there is one, protects t: as the lower of the two, or as the other.
fn in_pair(t: &Texel, lower: bool, r: f32, nx: usize, ny: usize) -> bool
    ensures { result ≡ (if lower then Inner.lower_with (read t.now.of) t.now.of.bitmap.width t.now.of.bitmap.height r t.now.x t.now.y nx ny else Inner.upper_with (read t.now.of) t.now.of.bitmap.width t.now.of.bitmap.height r t.now.x t.now.y nx ny) }
{
    let own = t.channels();
    match t.of.texel(nx, ny) {
        Some(other) if lower => pair_protects(r, own, other, own),
        Some(other) => pair_protects(r, other, own, own),
        None => false,
    }
}

// The pairs in which it is the lower one: with the right, the upper, the upper right and the upper left texel.
fn some_lower(t: &Texel, s: Settings) -> bool
    ensures { result ≡ Edges.some_lower (read t.now.of) t.now.of.bitmap.width t.now.of.bitmap.height (Config.radius s.horizontal) (Config.radius s.vertical) (Config.radius s.diagonal) t.now.x t.now.y }
{
    let across = radius(s.diagonal);
    let right = in_pair(t, true, radius(s.horizontal), t.x + 1, t.y);
    let upper = in_pair(t, true, radius(s.vertical), t.x, t.y + 1);
    let upper_right = in_pair(t, true, across, t.x + 1, t.y + 1);
    let upper_left = in_pair(t, true, across, texels::previous(t.x), t.y + 1);
    right | upper | upper_right | upper_left
}

// The pairs in which it is the other one: with the left, the lower, the lower left and the lower right texel.
fn some_upper(t: &Texel, s: Settings) -> bool
    ensures { result ≡ Edges.some_upper (read t.now.of) t.now.of.bitmap.width t.now.of.bitmap.height (Config.radius s.horizontal) (Config.radius s.vertical) (Config.radius s.diagonal) t.now.x t.now.y }
{
    let across = radius(s.diagonal);
    let left = texels::previous(t.x);
    let below = texels::previous(t.y);
    let side = in_pair(t, false, radius(s.horizontal), left, t.y);
    let lower = in_pair(t, false, radius(s.vertical), t.x, below);
    let lower_left = in_pair(t, false, across, left, below);
    let lower_right = in_pair(t, false, across, t.x + 1, below);
    side | lower | lower_left | lower_right
}

// Some pair protects it.
pub fn is_at_edge(t: &Texel, s: Settings) -> bool
    ensures { result ≡ Edges.edges_protect (read t.now.of) t.now.of.bitmap.width t.now.of.bitmap.height s t.now.x t.now.y }
{
    let lower = some_lower(t, s);
    let upper = some_upper(t, s);
    lower | upper
}
