// The linear detector: a texel against a side neighbour.
ghost use Rattle.std.specs.Prelude.{◌≡◌, false};
ghost use Rattle.ground.specs.Lists.{any, spent};
ghost use Rattle.ranges.specs.Config as Config;
ghost use Rattle.detectors.specs.Verdict.{verdict};
ghost use Rattle.detectors.specs.Linear as Linear;
ghost use Rattle.detectors.specs.Inner.{or_else};
ghost use Rattle.detectors.specs.Pairs.{inside};

use crate::pairs::difference;
use crate::verdict::Verdict;
use crate::{pairs, texel};
use ranges::classifier::Classifier;
use ranges::config::Settings;

// Where a difference that is da at a and db at b is zero between them.
fn crossing(da: f32, db: f32) -> f64
    ensures { result ≡ Linear.crossing da db }
{
    std::num::f32_to_f64_with_nan(da) / std::num::f32_to_f64_with_nan(da - db)
}

// A difference that is da at a and db at b can be zero between them: else its crossing is not inside.
fn crosses(da: f32, db: f32) -> bool
    ensures { result ≡ false → inside (Linear.crossing da db) ≡ false }
{
    ((da > 0.0) & (db < 0.0)) | ((da < 0.0) & (db > 0.0))
}

// The pair whose difference is da at a and db at b, tried unless there is an artifact before.
fn has_linear_artifact_inner(
    before: Verdict,
    k: Classifier,
    am: f32,
    bm: f32,
    a: [f32; 3],
    b: [f32; 3],
    da: f32,
    db: f32,
) -> Verdict
    ensures { result ≡ or_else before (verdict (Linear.linear_at k.span k.protected am bm a b (Linear.crossing da db)) (Linear.linear_tests_at (Linear.crossing da db))) }
{
    if before.is_artifact() {
        return before;
    }
    if !crosses(da, db) {
        return before;
    }
    let t = crossing(da, db);
    if pairs::inside(t) {
        let xm = pairs::interpolated_median_linear(a, b, t);
        if k.range_test(0.0, 1.0, t, am, bm, xm) {
            return before.then(Verdict::artifact(1));
        }
        return before.then(Verdict::clear(1));
    }
    before
}

// The pairs in order; the search stops at the first artifact.
fn some_pair(k: Classifier, am: f32, bm: f32, a: [f32; 3], b: [f32; 3]) -> Verdict
    ensures { result ≡ verdict (any 3 (Linear.linear_pair k.span k.protected am bm a b)) (spent 3 (Linear.linear_pair k.span k.protected am bm a b) (Linear.linear_pair_tests a b)) }
{
    let u = has_linear_artifact_inner(
        Verdict::NONE,
        k,
        am,
        bm,
        a,
        b,
        difference(a, 0),
        difference(b, 0),
    );
    let v = has_linear_artifact_inner(u, k, am, bm, a, b, difference(a, 1), difference(b, 1));
    has_linear_artifact_inner(v, k, am, bm, a, b, difference(a, 2), difference(b, 2))
}

// The verdict of texel a, whose median is am, against its neighbour b in the row, or upright in the column.
pub fn has_linear_artifact(
    s: Settings,
    upright: bool,
    protected: bool,
    am: f32,
    a: [f32; 3],
    b: [f32; 3],
) -> Verdict
    ensures { result ≡ verdict (Linear.has_linear_artifact (Config.side_span s upright) protected am a b) (Linear.linear_tests (Config.side_span s upright) protected am a b) }
{
    let bm = texel::median(b).value;
    if texel::guard(am, bm) {
        let k = Classifier {
            span: s.side_span(upright),
            protected,
        };
        return some_pair(k, am, bm, a, b);
    }
    Verdict::NONE
}
