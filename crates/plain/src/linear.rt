// Texel a against its neighbour b in the row or in the column.
ghost use Rattle.std.specs.Prelude.{◌≡◌};
ghost use Rattle.detectors.specs.Texel.{texel_median};
ghost use Rattle.detectors.specs.Pairs.{mixed_median};
ghost use Rattle.detectors.specs.Linear as Linear;

use crate::classifier;
use numbers::scalar;
use ranges::classifier::Classifier;

// The median of a texel.
pub fn median(a: [f32; 3]) -> f32
    ensures { result ≡ texel_median a }
{
    scalar::median_value(a[0], a[1], a[2])
}

// The median on the way from a to b.
pub fn mixed_median(a: [f32; 3], b: [f32; 3], t: f64) -> f32
    ensures { result ≡ mixed_median a b t }
{
    let x = scalar::mix(a[0], b[0], t);
    let y = scalar::mix(a[1], b[1], t);
    let z = scalar::mix(a[2], b[2], t);
    scalar::median_value(x, y, z)
}

// The pair of channels whose difference is da at a and db at b: it crosses at da / (da - db).
fn pair_artifact(
    k: Classifier,
    am: f32,
    bm: f32,
    a: [f32; 3],
    b: [f32; 3],
    da: f32,
    db: f32,
) -> bool
    ensures { result ≡ Linear.linear_at k.span k.protected am bm a b (Linear.crossing da db) }
{
    let t = std::num::f32_to_f64_with_nan(da) / std::num::f32_to_f64_with_nan(da - db);
    let xm = mixed_median(a, b, t);
    let found = classifier::range_test(k, 0.0, 1.0, t, am, bm, xm);
    classifier::is_inside(t) & found
}

// All three pairs.
pub fn side_artifact(k: Classifier, a: [f32; 3], b: [f32; 3]) -> bool
    ensures { result ≡ Linear.has_linear_artifact k.span k.protected (texel_median a) a b }
{
    let am = median(a);
    let bm = median(b);
    let p = pair_artifact(k, am, bm, a, b, a[1] - a[0], b[1] - b[0]);
    let q = pair_artifact(k, am, bm, a, b, a[2] - a[1], b[2] - b[1]);
    let r = pair_artifact(k, am, bm, a, b, a[0] - a[2], b[0] - b[2]);
    classifier::is_tested(am, bm) & (p | q | r)
}
