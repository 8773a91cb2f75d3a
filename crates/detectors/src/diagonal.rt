// The diagonal detector: a texel, its two side neighbours and the one across.
ghost use Rattle.std.specs.Prelude.{◌≡◌, ◌<◌, ◌≤◌, true, false, [], if◌then◌else◌, slice_index_or};
ghost use Rattle.std.specs.Float.Ieee.{neg};
ghost use Rattle.numbers.specs.EquationSolver.{listed};
ghost use Rattle.detectors.specs.Verdict.{verdict};
ghost use Rattle.detectors.specs.Diagonal as Diagonal;
ghost use Rattle.ground.specs.Lists.{any, some, spent};
ghost use Rattle.ranges.specs.Config as Config;
ghost use Rattle.detectors.specs.Pairs.{inside, difference};
ghost use Rattle.detectors.specs.Orders as Orders;
ghost use Rattle.detectors.specs.Discriminant.{normal_quadratic_roots};
ghost use Rattle.detectors.specs.Inner as Inner;
ghost use Rattle.detectors.specs.Inner.{root_verdict, root_count};

use crate::verdict::Verdict;
use crate::{pairs, texel};
use numbers::equation_solver::Roots;
use numbers::{equation_solver, rounding, scalar};
use ranges::classifier::Classifier;
use ranges::config::Settings;
use ranges::constants;

// The least and the largest of a pair's differences at which it is judged without its roots; the largest of the two in the middle together.
const LEAST: f32 = 0.0078125;

const MOST: f32 = 4096.0;

const MOST_MIDDLE: f32 = 16384.0;

// What both coefficients of channel i share: a less b less c.
fn abc(m: &[[f32; 3]; 4], i: usize) -> f32
    requires { i < 3 }
    ensures { result ≡ Diagonal.abc m.now i }
{
    m[0][i] - m[1][i] - m[2][i]
}

// The coefficient of t.
fn linear_term(m: &[[f32; 3]; 4], i: usize) -> f32
    requires { i < 3 }
    ensures { result ≡ Diagonal.linear_term m.now i }
{
    -m[0][i] - abc(m, i)
}

// The coefficient of t * t.
fn square_term(m: &[[f32; 3]; 4], i: usize) -> f32
    requires { i < 3 }
    ensures { result ≡ Diagonal.square_term m.now i }
{
    m[3][i] + abc(m, i)
}

// Where channel i turns.
fn turning_point(m: &[[f32; 3]; 4], i: usize) -> f64
    requires { i < 3 }
    ensures { result ≡ Diagonal.turning_point m.now i }
{
    let l = std::num::f32_to_f64_with_nan(linear_term(m, i));
    let q = std::num::f32_to_f64_with_nan(square_term(m, i));
    -constants::HALF_WIDE * l / q
}

// A channel at t, by its value a at 0 and its two coefficients.
fn curve(a: f32, l: f32, q: f32, t: f64) -> f32
    ensures { result ≡ Diagonal.curve a l q t }
{
    let aw = std::num::f32_to_f64_with_nan(a);
    let lw = std::num::f32_to_f64_with_nan(l);
    let qw = std::num::f32_to_f64_with_nan(q);
    rounding::narrow(t * (t * qw + lw) + aw)
}

// Channel i at t.
fn curve_channel(m: &[[f32; 3]; 4], t: f64, i: usize) -> f32
    requires { i < 3 }
    ensures { result ≡ Diagonal.curve_channel m.now t i }
{
    curve(m[0][i], linear_term(m, i), square_term(m, i), t)
}

// The median at t.
fn interpolated_median_quad(m: &[[f32; 3]; 4], t: f64) -> f32
    ensures { result ≡ Diagonal.curve_median m.now t }
{
    let x = curve_channel(m, t, 0);
    let y = curve_channel(m, t, 1);
    let z = curve_channel(m, t, 2);
    scalar::median_value(x, y, z)
}

// The difference of pair p in texel i of the four, read where it stands.
fn difference_in(m: &[[f32; 3]; 4], i: usize, p: usize) -> f32
    requires { (i < 4) × (p < 3) }
    ensures { result ≡ difference (slice_index_or m.now i []) p }
{
    let j = pairs::next(p);
    m[i][j] - m[i][p]
}

// The difference of pair p in the two side neighbours together.
fn middle_difference(m: &[[f32; 3]; 4], p: usize) -> f32
    requires { p < 3 }
    ensures { result ≡ Diagonal.middle_difference m.now p }
{
    let j = pairs::next(p);
    m[1][j] - m[1][p] + m[2][j] - m[2][p]
}

// A difference that is zero or from the least to the largest at which a pair of one sign is judged without its roots.
fn ample(d: f32) -> bool
    ensures { result ≡ Inner.ample d }
{
    ((d == 0.0) | (d >= LEAST)) & (d <= MOST)
}

// None of a pair's three differences is below zero, and each is of a size at which no root is inside then, nor one of the pair with their negatives.
fn rises(da: f32, dbc: f32, dd: f32) -> bool
    ensures up { result ≡ true → some inside (Diagonal.quadratic_roots da dbc dd) ≡ false }
    ensures down { result ≡ true → some inside (Diagonal.quadratic_roots (neg da) (neg dbc) (neg dd)) ≡ false }
{
    ample(da)
        & (ample(dd)
            & ((dbc >= 0.0)
                & ((dbc <= MOST_MIDDLE)
                    & (((dbc == 0.0) | (dbc >= LEAST)) | ((da >= LEAST) & (dd >= LEAST))))))
}

// The roots of a pair's difference, a quadratic in t, by the root without branches.
fn pair_roots(da: f32, dbc: f32, dd: f32) -> Roots
    ensures { listed result ≡ normal_quadratic_roots da dbc dd }
{
    let a = std::num::f32_to_f64_with_nan(dd - dbc + da);
    let b = std::num::f32_to_f64_with_nan(dbc - da - da);
    let c = std::num::f32_to_f64_with_nan(da);
    equation_solver::solve_normal_quadratic(a, b, c)
}

// One end moved to the turning point e.
fn moved_end(k: Classifier, am: f32, dm: f32, em: f32, e: f64, t: f64, xm: f32) -> bool
    ensures { result ≡ Diagonal.moved_end k.span k.protected am dm em e t xm }
{
    if e > t {
        k.range_test(0.0, e, t, am, em, xm)
    } else {
        k.range_test(e, 1.0, t, em, dm, xm)
    }
}

// A turning point e adds a range test.
fn turns(e: f64) -> bool
    ensures { result ≡ Diagonal.turns e }
{
    e > 0.0 && e < 1.0
}

// The range test that a turning point e adds.
fn turning_test(k: Classifier, am: f32, dm: f32, m: &[[f32; 3]; 4], t: f64, xm: f32, e: f64) -> bool
    ensures { result ≡ Diagonal.turning_test k.span k.protected am dm m.now t xm e }
{
    turns(e) && moved_end(k, am, dm, interpolated_median_quad(m, e), e, t, xm)
}

// The range tests of a root t whose median is xm, where the pair's channels turn at e and f: no more than it takes for the verdict.
fn root_tests(
    k: Classifier,
    am: f32,
    dm: f32,
    m: &[[f32; 3]; 4],
    t: f64,
    xm: f32,
    e: f64,
    f: f64,
) -> bool
    ensures { result ≡ root_verdict k.span k.protected am dm m.now t xm e f }
{
    k.range_test(0.0, 1.0, t, am, dm, xm)
        || (turning_test(k, am, dm, m, t, xm, e) || turning_test(k, am, dm, m, t, xm, f))
}

// How many range tests a turning point e adds.
fn added(e: f64) -> usize
    ensures { (result ≡ (if Diagonal.turns e then 1 else 0)) × (result ≤ 1) }
{
    if turns(e) { 1 } else { 0 }
}

// How many range tests a root has where the pair's channels turn at e and f.
fn root_test_count(e: f64, f: f64) -> usize
    ensures { (result ≡ root_count e f) × (result ≤ 3) }
{
    1 + added(e) + added(f)
}

// The verdict at root t of pair p.
fn diagonal_at(k: Classifier, am: f32, dm: f32, m: &[[f32; 3]; 4], p: usize, t: f64) -> Verdict
    requires { p < 3 }
    ensures { result ≡ verdict (Diagonal.diagonal_at k.span k.protected am dm m.now p t) (Diagonal.diagonal_tests_at m.now p t) }
{
    if pairs::inside(t) {
        let e = turning_point(m, p);
        let f = turning_point(m, pairs::next(p));
        let xm = interpolated_median_quad(m, t);
        let n = root_test_count(e, f);
        if root_tests(k, am, dm, m, t, xm, e, f) {
            return Verdict::artifact(n);
        }
        return Verdict::clear(n);
    }
    Verdict::NONE
}

// Pair p is among those that are in doubt.
fn in_doubt(doubt: u8, p: usize) -> bool
    ensures { result ≡ Orders.doubted doubt p }
{
    if p == 0 {
        return doubt % 2 == 1;
    }
    if p == 1 {
        return doubt / 2 % 2 == 1;
    }
    doubt / 4 % 2 == 1
}

// The roots of pair p that are tried: none where it is beyond doubt, or where its differences are of one sign.
fn roots_tried(m: &[[f32; 3]; 4], p: usize, doubt: u8) -> Roots
    requires { p < 3 }
    ensures { Inner.Tried doubt m.now p (listed result) }
{
    if !in_doubt(doubt, p) {
        return Roots::None;
    }
    let da = difference_in(m, 0, p);
    let dbc = middle_difference(m, p);
    let dd = difference_in(m, 3, p);
    if rises(da, dbc, dd) | rises(-da, -dbc, -dd) {
        return Roots::None;
    }
    pair_roots(da, dbc, dd)
}

// The pairs in order, and of each the roots in order; the search stops at the first artifact.
fn some_pair(k: Classifier, am: f32, dm: f32, m: &[[f32; 3]; 4], doubt: u8) -> Verdict
    ensures { result ≡ verdict (any 3 (Orders.doubted_pair doubt k.span k.protected am dm m.now)) (spent 3 (Orders.doubted_pair doubt k.span k.protected am dm m.now) (Orders.doubted_tests doubt k.span k.protected am dm m.now)) }
{
    let mut all = Verdict::NONE;
    for p in 0..3 {
        for t in roots_tried(m, p, doubt) {
            all = all.then(diagonal_at(k, am, dm, m, p, t));
            if all.is_artifact() {
                return all;
            }
        }
    }
    all
}

// The verdict of texel m[0], whose median is am, against the one across, m[3], whose median is dm, in the pairs that `doubt` names: for a caller that has asked the guard.
pub fn has_guarded_artifact(
    s: Settings,
    protected: bool,
    am: f32,
    dm: f32,
    m: [[f32; 3]; 4],
    doubt: u8,
) -> Verdict
    ensures { result ≡ verdict (any 3 (Orders.doubted_pair doubt (Config.diagonal_span s) protected am dm m)) (spent 3 (Orders.doubted_pair doubt (Config.diagonal_span s) protected am dm m) (Orders.doubted_tests doubt (Config.diagonal_span s) protected am dm m)) }
{
    let k = Classifier {
        span: s.diagonal_span(),
        protected,
    };
    some_pair(k, am, dm, &m, doubt)
}

// The verdict of texel m[0], whose median is am, against the one across, m[3].
pub fn has_diagonal_artifact(s: Settings, protected: bool, am: f32, m: [[f32; 3]; 4]) -> Verdict
    ensures { result ≡ verdict (Diagonal.has_diagonal_artifact (Config.diagonal_span s) protected am m) (Diagonal.diagonal_tests (Config.diagonal_span s) protected am m) }
{
    let dm = texel::median(m[3]).value;
    if texel::guard(am, dm) {
        return has_guarded_artifact(s, protected, am, dm, m, 7);
    }
    Verdict::NONE
}
