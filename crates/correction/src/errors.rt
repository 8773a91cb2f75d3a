// Finding the texels with an artifact towards a neighbour. Of four texels a is the one that is judged, b lies in its row, c in its column and d across.
// While it lasts the order of each texel stands in its cell: most texels are settled by these alone.
ghost use Rattle.std.specs.Prelude.{◌≡◌, ℕ, ◌+◌, ◌-◌, ◌<◌, ◌≤◌, true, false, cond, ◌&&◌, eqb, leb, ltb, get_or, length};
ghost use Rattle.ranges.specs.Config.{side_span, diagonal_span};
ghost use Rattle.detectors.specs.Diagonal.{has_diagonal_artifact, diagonal_tests};
ghost use Rattle.detectors.specs.Linear.{has_linear_artifact, linear_tests};
ghost use Rattle.detectors.specs.Orders.{order_code, doubt, Doubts};
ghost use Rattle.detectors.specs.Verdict.{verdict};
ghost use Rattle.inputs.specs.Stencil.{is_protected, set_error};
ghost use Rattle.correction.specs.Bitmap.{texel};
ghost use Rattle.correction.specs.Errors as Errors;
ghost use Rattle.correction.specs.Inner.{samples_at, four_at, four_of, found, made_for, made_in, order_in, Ordered, Settled, next_in, column_in, Scanned, row_found, row_made};
ghost use Rattle.inputs.specs.Inner.{Sampled, Stencilled};
ghost use Rattle.inputs.specs.Window.{cell_in, cut_cells, cut_samples, CellsPasted};

use crate::bitmap;
use crate::bitmap::Centre;
use detectors::verdict::Verdict;
use detectors::{diagonal, linear, orders, texel};
use inputs::sizes::Window;
use inputs::stencil;
use ranges::config::Settings;

// A scan along a row: the column that it has come to, and the orders of the column before and of that one, each over three rows.
#[derive(Clone, Copy)]
pub struct Scan {
    pub x: usize,
    pub left: u8,
    pub here: u8,
}

// The order that stands in the cell of texel x, y, above its three bits.
fn order_at(stencil: &[u8], b: Window, x: usize, y: usize) -> u8
    requires stencilled { Stencilled b stencil.now }
    requires x_lt_width { (x < b.width) × (y < b.height) }
    ensures { result ≡ order_in b stencil.now x y }
{
    let k = bitmap::cell(b, x, y);
    stencil[k] / stencil::ORDER
}

// The column or row before one, or itself where it is the first.
fn before(x: usize) -> usize
    ensures { result ≡ x - 1 }
{
    if x > 0 { x - 1 } else { 0 }
}

// The column or row after one of n, or itself where it is the last.
fn after(x: usize, n: usize) -> usize
    requires { x < n }
    ensures { result ≡ next_in x n }
{
    if x + 1 < n { x + 1 } else { x }
}

// The order of the texels of column x in row y and the rows beside it, where it is one; else 0.
fn column(stencil: &[u8], b: Window, x: usize, y: usize) -> u8
    requires stencilled { Stencilled b stencil.now }
    requires x_lt_width { (x < b.width) × (y < b.height) }
    ensures { result ≡ column_in b stencil.now x y }
{
    let o = order_at(stencil, b, x, y);
    let d = order_at(stencil, b, x, before(y));
    let u = order_at(stencil, b, x, after(y, b.height));
    if (d == o) & (u == o) { o } else { 0 }
}

// The scan one column further.
fn step(stencil: &[u8], b: Window, y: usize, at: Scan) -> Scan
    requires stencilled { Stencilled b stencil.now }
    requires x_lt_width { (at.x < b.width) × (y < b.height) }
    ensures { (result.x ≡ at.x + 1) × (result.left ≡ at.here) × (result.here ≡ column_in b stencil.now (next_in at.x b.width) y) }
{
    let n = after(at.x, b.width);
    Scan {
        x: at.x + 1,
        left: at.here,
        here: column(stencil, b, n, y),
    }
}

// The scan at the first texel that is not of one order with all around it, or past the last.
fn settle(stencil: &[u8], b: Window, y: usize, from: Scan) -> Scan
    requires stencilled { Stencilled b stencil.now }
    requires y_lt_height { (y < b.height) × Scanned b stencil.now y from }
    ensures { Scanned b stencil.now y result × (from.x ≤ result.x) × ((x : ℕ) → from.x ≤ x → x < result.x → Settled b stencil.now x y) }
{
    let mut at = from;
    // No `for`: the column is a part of the scan, and a step moves it on with the orders beside it.
    while at.x < b.width {
        let next = step(stencil, b, y, at);
        if !((at.here > 0) & (at.left == at.here) & (next.here == at.here)) {
            return at;
        }
        at = next;
    }
    at
}

// The texel at x, y has the order o, which is beyond doubt.
fn alike(stencil: &[u8], b: Window, o: u8, x: usize, y: usize) -> bool
    requires stencilled { Stencilled b stencil.now }
    requires x_lt_width { (x < b.width) × (y < b.height) }
    ensures { result ≡ (ltb 0 o && eqb (order_in b stencil.now x y) o) }
{
    (o > 0) & (order_at(stencil, b, x, y) == o)
}

// Texel a, whose median is am, against the side neighbour whose samples stand from a place on, in its column where `upright`, else in its row.
// The window and the centre are not handed on, and the settings are lent: each would be copied for every neighbour.
fn side_artifact(
    xs: &[f32],
    at: usize,
    s: &Settings,
    upright: bool,
    protected: bool,
    am: f32,
    a: [f32; 3],
) -> Verdict
    requires { at + 2 < length xs.now }
    ensures { result ≡ verdict (has_linear_artifact (side_span s.now upright) protected am a (samples_at xs.now at)) (linear_tests (side_span s.now upright) protected am a (samples_at xs.now at)) }
{
    linear::has_linear_artifact(*s, upright, protected, am, a, bitmap::samples_at(xs, at))
}

// Texel a of t, of the order o, against its neighbour in the row at column nx, counted from 1.
fn row_artifact(
    stencil: &[u8],
    xs: &[f32],
    b: Window,
    s: &Settings,
    o: u8,
    protected: bool,
    t: Centre,
    nx: usize,
) -> Verdict
    requires sampled { Sampled b xs.now }
    requires stencilled { Stencilled b stencil.now × Ordered b xs.now stencil.now }
    requires y_lt_height { (t.y < b.height) × (o ≡ order_code t.texel) }
    ensures { result ≡ verdict (Errors.side_artifact (texel (cut_samples b xs.now) b.width b.channels) b.width b.height (side_span s.now false) protected t.median t.texel nx (t.y + 1)) (Errors.side_tests (texel (cut_samples b xs.now) b.width b.channels) b.width b.height (side_span s.now false) protected t.median t.texel nx (t.y + 1)) }
{
    if 0 < nx && nx <= b.width {
        if !alike(stencil, b, o, nx - 1, t.y) {
            let a = t.texel;
            let at = bitmap::place(b, nx - 1, t.y);
            return side_artifact(xs, at, s, false, protected, t.median, a);
        }
    }
    Verdict::NONE
}

// The same in the column at row ny, counted from 1.
fn column_artifact(
    stencil: &[u8],
    xs: &[f32],
    b: Window,
    s: &Settings,
    o: u8,
    protected: bool,
    t: Centre,
    ny: usize,
) -> Verdict
    requires sampled { Sampled b xs.now }
    requires stencilled { Stencilled b stencil.now × Ordered b xs.now stencil.now }
    requires x_lt_width { (t.x < b.width) × (o ≡ order_code t.texel) }
    ensures { result ≡ verdict (Errors.side_artifact (texel (cut_samples b xs.now) b.width b.channels) b.width b.height (side_span s.now true) protected t.median t.texel (t.x + 1) ny) (Errors.side_tests (texel (cut_samples b xs.now) b.width b.channels) b.width b.height (side_span s.now true) protected t.median t.texel (t.x + 1) ny) }
{
    if 0 < ny && ny <= b.height {
        if !alike(stencil, b, o, t.x, ny - 1) {
            let a = t.texel;
            let at = bitmap::place(b, t.x, ny - 1);
            return side_artifact(xs, at, s, true, protected, t.median, a);
        }
    }
    Verdict::NONE
}

// The pairs of channels that the orders leave in doubt between texel a of t, of the order o, and the one across at x, y.
fn doubt_towards(stencil: &[u8], b: Window, o: u8, t: Centre, x: usize, y: usize) -> u8
    requires stencilled { Stencilled b stencil.now }
    requires x_lt_width { (x < b.width) × (y < b.height) × (t.x < b.width) × (t.y < b.height) }
    ensures { result ≡ doubt o (order_in b stencil.now x t.y) (order_in b stencil.now t.x y) (order_in b stencil.now x y) }
{
    orders::doubt(
        o,
        order_at(stencil, b, x, t.y),
        order_at(stencil, b, t.x, y),
        order_at(stencil, b, x, y),
    )
}

// Texel a, whose median is am, against the one across, in the pairs that are in doubt: the samples of the one in its row, of the one in its column and of the one
// across stand from these places on. The two beside it are read only once the guard has passed.
fn diagonal_artifact(
    xs: &[f32],
    row: usize,
    column: usize,
    across: usize,
    s: &Settings,
    protected: bool,
    am: f32,
    a: [f32; 3],
    doubt: u8,
) -> Verdict
    requires row_in_bounds { (row + 2 < length xs.now) × (column + 2 < length xs.now) × (across + 2 < length xs.now) }
    requires doubts { Doubts doubt (four_at xs.now a row column across) }
    ensures { result ≡ verdict (has_diagonal_artifact (diagonal_span s.now) protected am (four_at xs.now a row column across)) (diagonal_tests (diagonal_span s.now) protected am (four_at xs.now a row column across)) }
{
    let d = bitmap::samples_at(xs, across);
    let far = texel::median(d);
    let dm = far.value;
    if texel::guard(am, dm) {
        let m = [
            a,
            bitmap::samples_at(xs, row),
            bitmap::samples_at(xs, column),
            d,
        ];
        return diagonal::has_guarded_artifact(*s, protected, am, dm, m, doubt);
    }
    Verdict::NONE
}

// Texel a of t, of the order o, against the diagonal neighbour in the row below at column nx, counted from 1.
fn lower_artifact(
    stencil: &[u8],
    xs: &[f32],
    b: Window,
    s: &Settings,
    o: u8,
    protected: bool,
    t: Centre,
    nx: usize,
) -> Verdict
    requires sampled { Sampled b xs.now }
    requires stencilled { Stencilled b stencil.now × Ordered b xs.now stencil.now }
    requires x_lt_width { (t.x < b.width) × (t.y < b.height) × (o ≡ order_code t.texel) }
    ensures { result ≡ verdict (Errors.diagonal_artifact (texel (cut_samples b xs.now) b.width b.channels) b.width b.height (diagonal_span s.now) protected t.median t.texel t.x t.y nx t.y) (Errors.across_tests (texel (cut_samples b xs.now) b.width b.channels) b.width b.height (diagonal_span s.now) protected t.median t.texel t.x t.y nx t.y) }
{
    if 0 < t.y && (0 < nx && nx <= b.width) {
        let q = doubt_towards(stencil, b, o, t, nx - 1, t.y - 1);
        if q > 0 {
            let a = t.texel;
            let row = bitmap::place(b, nx - 1, t.y);
            let column = bitmap::place(b, t.x, t.y - 1);
            let across = bitmap::place(b, nx - 1, t.y - 1);
            return diagonal_artifact(xs, row, column, across, s, protected, t.median, a, q);
        }
    }
    Verdict::NONE
}

// The same in the row above.
fn upper_artifact(
    stencil: &[u8],
    xs: &[f32],
    b: Window,
    s: &Settings,
    o: u8,
    protected: bool,
    t: Centre,
    nx: usize,
) -> Verdict
    requires sampled { Sampled b xs.now }
    requires stencilled { Stencilled b stencil.now × Ordered b xs.now stencil.now }
    requires x_lt_width { (t.x < b.width) × (t.y < b.height) × (o ≡ order_code t.texel) }
    ensures { result ≡ verdict (Errors.diagonal_artifact (texel (cut_samples b xs.now) b.width b.channels) b.width b.height (diagonal_span s.now) protected t.median t.texel t.x t.y nx (t.y + 2)) (Errors.across_tests (texel (cut_samples b xs.now) b.width b.channels) b.width b.height (diagonal_span s.now) protected t.median t.texel t.x t.y nx (t.y + 2)) }
{
    if t.y + 1 < b.height && (0 < nx && nx <= b.width) {
        let q = doubt_towards(stencil, b, o, t, nx - 1, t.y + 1);
        if q > 0 {
            let a = t.texel;
            let row = bitmap::place(b, nx - 1, t.y);
            let column = bitmap::place(b, t.x, t.y + 1);
            let across = bitmap::place(b, nx - 1, t.y + 1);
            return diagonal_artifact(xs, row, column, across, s, protected, t.median, a, q);
        }
    }
    Verdict::NONE
}

// Texel a of t, of the order o, towards its neighbours in order, up to the first with an artifact: left, below, right, above, lower left, lower right, upper left, upper right.
fn some_artifact(
    stencil: &[u8],
    xs: &[f32],
    b: Window,
    s: &Settings,
    o: u8,
    protected: bool,
    t: Centre,
) -> Verdict
    requires sampled { Sampled b xs.now }
    requires stencilled { Stencilled b stencil.now × Ordered b xs.now stencil.now }
    requires x_lt_width { (t.x < b.width) × (t.y < b.height) × (o ≡ order_code t.texel) }
    ensures { result ≡ verdict (Errors.some_artifact (texel (cut_samples b xs.now) b.width b.channels) b.width b.height s.now protected t.median t.texel t.x t.y) (Errors.some_made (texel (cut_samples b xs.now) b.width b.channels) b.width b.height s.now protected t.median t.texel t.x t.y) }
{
    let left = t.x;
    let low = t.y;
    let right = left + 2;
    let high = low + 2;
    let v1 = row_artifact(stencil, xs, b, s, o, protected, t, left);
    if v1.is_artifact() {
        return v1;
    }
    let v2 = v1.then(column_artifact(stencil, xs, b, s, o, protected, t, low));
    if v2.is_artifact() {
        return v2;
    }
    let v3 = v2.then(row_artifact(stencil, xs, b, s, o, protected, t, right));
    if v3.is_artifact() {
        return v3;
    }
    let v4 = v3.then(column_artifact(stencil, xs, b, s, o, protected, t, high));
    if v4.is_artifact() {
        return v4;
    }
    let v5 = v4.then(lower_artifact(stencil, xs, b, s, o, protected, t, left));
    if v5.is_artifact() {
        return v5;
    }
    let v6 = v5.then(lower_artifact(stencil, xs, b, s, o, protected, t, right));
    if v6.is_artifact() {
        return v6;
    }
    let v7 = v6.then(upper_artifact(stencil, xs, b, s, o, protected, t, left));
    if v7.is_artifact() {
        return v7;
    }
    v7.then(upper_artifact(stencil, xs, b, s, o, protected, t, right))
}

// The verdict of texel x, y, whose cell has the byte v.
fn verdict_at(
    stencil: &[u8],
    xs: &[f32],
    b: Window,
    s: &Settings,
    v: u8,
    x: usize,
    y: usize,
) -> Verdict
    requires sampled { Sampled b xs.now }
    requires stencilled { Stencilled b stencil.now × Ordered b xs.now stencil.now }
    requires x_lt_width { (x < b.width) × (y < b.height) × (v ≡ get_or stencil.now (cell_in b x y) 0) }
    ensures { result ≡ verdict (Errors.has_artifact (texel (cut_samples b xs.now) b.width b.channels) b.width b.height s.now (is_protected v) x y) (made_for (cut_samples b xs.now) b.width b.height b.channels s.now v x y) }
{
    let t = bitmap::centre_at(xs, b, x, y);
    some_artifact(
        stencil,
        xs,
        b,
        s,
        v / stencil::ORDER,
        stencil::is_protected(v),
        t,
    )
}

// The byte of a cell, with its error bit set where the verdict of its texel says so.
fn marked_byte(v: u8, found: Verdict) -> u8
    ensures { result ≡ cond (leb 128 found) (set_error v) v }
{
    if found.is_artifact() {
        stencil::set_error(v)
    } else {
        v
    }
}

// Sets the error bit of each flagged texel's cell in row y, and answers how many range tests that took. Settled texels are passed over.
fn find_in_row(stencil: &mut [u8], xs: &[f32], b: Window, s: &Settings, y: usize) -> usize
    requires sampled { Sampled b xs.now }
    requires stencilled { Stencilled b stencil.old × Ordered b xs.now stencil.old }
    requires y_lt_height { y < b.height }
    ensures finds { CellsPasted b stencil.old stencil.new (row_found (cut_samples b xs.now) b.width b.height b.channels s.now y (cut_cells b stencil.old)) }
    ensures makes { result ≡ row_made (cut_samples b xs.now) b.width b.height b.channels s.now y (cut_cells b stencil.old) }
{
    let first = column(stencil, b, 0, y);
    let start = Scan {
        x: 0,
        left: first,
        here: first,
    };
    let mut at = settle(stencil, b, y, start);
    let mut tests = 0usize;
    // No count: settled columns are passed over.
    while at.x < b.width {
        let k = bitmap::cell(b, at.x, y);
        let byte = stencil[k];
        let v = verdict_at(stencil, xs, b, s, byte, at.x, y);
        stencil[k] = marked_byte(byte, v);
        tests += v.tests();
        at = settle(stencil, b, y, step(stencil, b, y, at));
    }
    tests
}

// Sets the error bit of each flagged texel's cell, and answers how many range tests that took.
pub fn find_errors(stencil: &mut [u8], xs: &[f32], b: Window, s: &Settings) -> usize
    requires sampled { Sampled b xs.now }
    requires stencilled { Stencilled b stencil.old × Ordered b xs.now stencil.old }
    ensures finds { CellsPasted b stencil.old stencil.new (found (cut_samples b xs.now) b.width b.height b.channels s.now (cut_cells b stencil.old)) }
    ensures makes { result ≡ made_in (cut_samples b xs.now) b.width b.height b.channels s.now (cut_cells b stencil.old) }
{
    let mut tests = 0usize;
    for y in 0..b.height {
        tests += find_in_row(stencil, xs, b, s, y);
    }
    tests
}
