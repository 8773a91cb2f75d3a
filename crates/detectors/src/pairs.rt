// What both detectors and the edges share: where a crossing counts, the channel pairs, and the way between two texels.
ghost use Rattle.std.specs.Prelude.{◌≡◌, ◌<◌};
ghost use Rattle.detectors.specs.Pairs as Pairs;

use numbers::scalar;
use ranges::constants;

// t lies strictly inside.
pub fn inside(t: f64) -> bool
    ensures { result ≡ Pairs.inside t }
{
    t > constants::ARTIFACT_T_EPSILON && t < constants::ONE_LESS_EPSILON
}

// Channel i between a and b.
pub fn mixed_channel(a: [f32; 3], b: [f32; 3], t: f64, i: usize) -> f32
    requires { i < 3 }
    ensures { result ≡ Pairs.mixed_channel a b t i }
{
    scalar::mix(a[i], b[i], t)
}

// The median between a and b.
pub fn interpolated_median_linear(a: [f32; 3], b: [f32; 3], t: f64) -> f32
    ensures { result ≡ Pairs.mixed_median a b t }
{
    let x = mixed_channel(a, b, t, 0);
    let y = mixed_channel(a, b, t, 1);
    let z = mixed_channel(a, b, t, 2);
    scalar::median_value(x, y, z)
}

// The channel that a pair takes channel p from.
pub fn next(p: usize) -> usize
    ensures { (result ≡ Pairs.next p) × (result < 3) }
{
    if p < 2 { p + 1 } else { 0 }
}

// The difference of pair p.
pub fn difference(a: [f32; 3], p: usize) -> f32
    requires { p < 3 }
    ensures { result ≡ Pairs.difference a p }
{
    let j = next(p);
    a[j] - a[p]
}
