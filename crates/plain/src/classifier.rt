// The range test, with every part of it worked out.
ghost use Rattle.std.specs.Prelude.{◌≡◌};
ghost use Rattle.ranges.specs.Classifier.{range_test};
ghost use Rattle.detectors.specs.Pairs as Pairs;

use numbers::scalar;
use ranges::classifier::Classifier;
use ranges::constants;

// A candidate is an artifact unless xm lies in range of both ends.
pub fn range_test(k: Classifier, at: f64, bt: f64, xt: f64, am: f32, bm: f32, xm: f32) -> bool
    ensures { result ≡ range_test k.span k.protected at bt xt am bm xm }
{
    let falls = (am > constants::HALF) & ((bm > constants::HALF) & (xm <= constants::HALF));
    let rises = (am < constants::HALF) & ((bm < constants::HALF) & (xm >= constants::HALF));
    let strays = !k.protected & (scalar::median_value(am, bm, xm) != xm);
    let a = std::num::f32_to_f64_with_nan(am);
    let b = std::num::f32_to_f64_with_nan(bm);
    let x = std::num::f32_to_f64_with_nan(xm);
    let da = (xt - at) * k.span;
    let db = (bt - xt) * k.span;
    let near_a = (x >= a - da) & (x <= a + da);
    let near_b = (x >= b - db) & (x <= b + db);
    (falls | (rises | strays)) & !(near_a & near_b)
}

// A crossing counts where t lies strictly inside.
pub fn is_inside(t: f64) -> bool
    ensures { result ≡ Pairs.inside t }
{
    (t > constants::ARTIFACT_T_EPSILON) & (t < constants::ONE_LESS_EPSILON)
}

// Of two texels with the medians am and bm the first is tested: it is not the nearer one to the outline.
pub fn is_tested(am: f32, bm: f32) -> bool
    ensures { result ≡ Pairs.guard am bm }
{
    scalar::abs32(am - constants::HALF) >= scalar::abs32(bm - constants::HALF)
}
