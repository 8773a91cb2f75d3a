// Texel a against the one across, d; b lies in a's row and c in its column. m holds a, b, c and d.
ghost use Rattle.std.specs.Prelude.{◌≡◌, ◌<◌, [], slice_index_or};
ghost use Rattle.detectors.specs.Texel.{texel_median};
ghost use Rattle.detectors.specs.Pairs.{next};
ghost use Rattle.detectors.specs.Diagonal as Diagonal;
ghost use Rattle.plain.specs.Inner as Inner;

use crate::{classifier, linear};
use numbers::{equation_solver, rounding, scalar};
use ranges::classifier::Classifier;
use ranges::constants;

// A channel on the way from a to d is t * (t * q + l) + a.
#[derive(Clone, Copy)]
struct Curve {
    a: f32,
    l: f32,
    q: f32,
}

// The way from a to d: the texels, and the medians of its two ends.
#[derive(Clone, Copy)]
struct Way {
    k: Classifier,
    am: f32,
    dm: f32,
    m: [[f32; 3]; 4],
}

// Channel i. A channel stays a number below 3: it picks an item of three arrays, and an enum would be turned back into it at each.
fn curve_of(m: &[[f32; 3]; 4], i: usize) -> Curve
    requires { i < 3 }
    ensures { (result.a ≡ Diagonal.of_a m.now i) × (result.l ≡ Diagonal.linear_term m.now i) × (result.q ≡ Diagonal.square_term m.now i) }
{
    let a = m[0][i];
    let abc = a - m[1][i] - m[2][i];
    Curve {
        a,
        l: -a - abc,
        q: m[3][i] + abc,
    }
}

// Channel i at t.
fn channel_at(m: &[[f32; 3]; 4], t: f64, i: usize) -> f32
    requires { i < 3 }
    ensures { result ≡ Diagonal.curve_channel m.now t i }
{
    let k = curve_of(m, i);
    let a = std::num::f32_to_f64_with_nan(k.a);
    let l = std::num::f32_to_f64_with_nan(k.l);
    let q = std::num::f32_to_f64_with_nan(k.q);
    rounding::narrow(t * (t * q + l) + a)
}

// Where channel i turns.
fn turning_point(m: &[[f32; 3]; 4], i: usize) -> f64
    requires { i < 3 }
    ensures { result ≡ Diagonal.turning_point m.now i }
{
    let k = curve_of(m, i);
    let l = std::num::f32_to_f64_with_nan(k.l);
    let q = std::num::f32_to_f64_with_nan(k.q);
    -constants::HALF_WIDE * l / q
}

// The median at t.
fn median_at(m: &[[f32; 3]; 4], t: f64) -> f32
    ensures { result ≡ Diagonal.curve_median m.now t }
{
    let x = channel_at(m, t, 0);
    let y = channel_at(m, t, 1);
    let z = channel_at(m, t, 2);
    scalar::median_value(x, y, z)
}

// The range test at a root t whose median is xm, with one end moved to the turning point e: the upper end where e lies above t, else the lower.
fn turning_artifact(w: &Way, t: f64, xm: f32, e: f64) -> bool
    ensures { result ≡ Diagonal.turning_test w.now.k.span w.now.k.protected w.now.am w.now.dm w.now.m t xm e }
{
    let em = median_at(&w.m, e);
    let upper = classifier::range_test(w.k, 0.0, e, t, w.am, em, xm);
    let lower = classifier::range_test(w.k, e, 1.0, t, em, w.dm, xm);
    let above = e > t;
    (e > 0.0) & (e < 1.0) & (above & upper | !above & lower)
}

// All range tests at a root t of a pair whose channels turn at e and f.
fn root_artifact(w: &Way, t: f64, e: f64, f: f64) -> bool
    ensures { result ≡ Inner.root_tested w.now.k.span w.now.k.protected w.now.am w.now.dm w.now.m t e f }
{
    let xm = median_at(&w.m, t);
    let whole = classifier::range_test(w.k, 0.0, 1.0, t, w.am, w.dm, xm);
    let first = turning_artifact(w, t, xm, e);
    let second = turning_artifact(w, t, xm, f);
    classifier::is_inside(t) & (whole | (first | second))
}

// The pair of channels j and i, both of its roots. A root that is not there is 0, which is not inside.
fn pair_artifact(w: &Way, j: usize, i: usize) -> bool
    requires { (i < 3) × (j < 3) × (j ≡ next i) }
    ensures { result ≡ Diagonal.diagonal_pair w.now.k.span w.now.k.protected w.now.am w.now.dm w.now.m i }
{
    let m = &w.m;
    let da = m[0][j] - m[0][i];
    let dbc = m[1][j] - m[1][i] + m[2][j] - m[2][i];
    let dd = m[3][j] - m[3][i];
    let a = std::num::f32_to_f64_with_nan(dd - dbc + da);
    let b = std::num::f32_to_f64_with_nan(dbc - da - da);
    let c = std::num::f32_to_f64_with_nan(da);
    let [t, u] = equation_solver::solve_quadratic(a, b, c).or_zero();
    let e = turning_point(m, i);
    let f = turning_point(m, j);
    let first = root_artifact(w, t, e, f);
    let second = root_artifact(w, u, e, f);
    first | second
}

// All three pairs.
pub fn across_artifact(k: Classifier, m: [[f32; 3]; 4]) -> bool
    ensures { result ≡ Diagonal.has_diagonal_artifact k.span k.protected (texel_median (slice_index_or m 0 [])) m }
{
    let am = linear::median(m[0]);
    let dm = linear::median(m[3]);
    let w = Way { k, am, dm, m };
    let p = pair_artifact(&w, 1, 0);
    let q = pair_artifact(&w, 2, 1);
    let r = pair_artifact(&w, 0, 2);
    classifier::is_tested(am, dm) & (p | q | r)
}
