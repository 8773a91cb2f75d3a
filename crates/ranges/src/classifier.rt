// The artifact classifier: the range test that the detectors share.
ghost use Rattle.std.specs.Prelude.{◌≡◌};
ghost use Rattle.ranges.specs.Classifier.{falls_below, rises_above, lies_outside, candidate, within, in_range, range_test};

use crate::constants;
use numbers::scalar;

// How far a median may stray from one end to the other, and whether the texel is protected.
#[derive(Clone, Copy)]
pub struct Classifier {
    pub span: f64,
    pub protected: bool,
}

// Both ends lie above the outline, and xm does not. This and the next are the definitions of these names: one function would take the order as an argument.
fn falls_below(am: f32, bm: f32, xm: f32) -> bool
    ensures { result ≡ falls_below am bm xm }
{
    (am > constants::HALF) & ((bm > constants::HALF) & (xm <= constants::HALF))
}

// Both ends lie below the outline, and xm does not.
fn rises_above(am: f32, bm: f32, xm: f32) -> bool
    ensures { result ≡ rises_above am bm xm }
{
    (am < constants::HALF) & ((bm < constants::HALF) & (xm >= constants::HALF))
}

// A texel that is not protected is a candidate also where xm lies outside of am and bm.
fn lies_outside(protected: bool, am: f32, bm: f32, xm: f32) -> bool
    ensures { result ≡ lies_outside protected am bm xm }
{
    !protected & (scalar::median_value(am, bm, xm) != xm)
}

// Any of the three makes a candidate. No test waits for another: which of them hold is hard to foretell.
fn candidate(protected: bool, am: f32, bm: f32, xm: f32) -> bool
    ensures { result ≡ candidate protected am bm xm }
{
    falls_below(am, bm, xm) | (rises_above(am, bm, xm) | lies_outside(protected, am, bm, xm))
}

// x lies in m ± d, ends included.
fn within(x: f64, m: f64, d: f64) -> bool
    ensures { result ≡ within x m d }
{
    (x >= m - d) & (x <= m + d)
}

// xm lies within the span of both ends, each by its share of the way.
fn in_range(span: f64, at: f64, bt: f64, xt: f64, am: f32, bm: f32, xm: f32) -> bool
    ensures { result ≡ in_range span at bt xt am bm xm }
{
    let x = std::num::f32_to_f64_with_nan(xm);
    let a = std::num::f32_to_f64_with_nan(am);
    let b = std::num::f32_to_f64_with_nan(bm);
    within(x, a, (xt - at) * span) & within(x, b, (bt - xt) * span)
}

impl Classifier {
    // A candidate is an artifact unless it lies in range.
    pub fn range_test(self, at: f64, bt: f64, xt: f64, am: f32, bm: f32, xm: f32) -> bool
        ensures { result ≡ range_test self.span self.protected at bt xt am bm xm }
    {
        candidate(self.protected, am, bm, xm) && !in_range(self.span, at, bt, xt, am, bm, xm)
    }
}
