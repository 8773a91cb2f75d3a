// Protection of the texels that make an edge between them.
ghost use Rattle.std.specs.Prelude.{◌≡◌, ℕ, ◌+◌, ◌*◌, ◌/◌, ◌%◌, ◌<◌, ◌≤◌, ◌&&◌, ◌||◌, eqb, get_or, length};
ghost use Rattle.std.specs.Float.{nan};
ghost use Rattle.std.specs.Float.Ieee.{lt};
ghost use Rattle.detectors.specs.Texel.{texel_median};
ghost use Rattle.correction.specs.Bitmap.{texel};
ghost use Rattle.correction.specs.Edges as Edges;
ghost use Rattle.correction.specs.Inner.{Centred, protects_as, as_either, some_of, row_place, Medians, Rows};
ghost use Rattle.inputs.specs.Inner.{Fits, Sampled, Stencilled};
ghost use Rattle.inputs.specs.Window.{cut_cells, cut_samples, CellsPasted};
ghost use Rattle.ground.specs.Lists.{painted};
ghost use Rattle.inputs.specs.Stencil.{set_protected};

use crate::bitmap;
use crate::bitmap::Centre;
use detectors::{edge, texel};
use inputs::sizes::Window;
use inputs::stencil;
use ranges::config::Settings;

// How far from the outline the medians of a pair may be together: in a row, in a column, across.
#[derive(Clone, Copy)]
struct Radii {
    horizontal: f32,
    vertical: f32,
    diagonal: f32,
}

// The neighbours with which a texel is the lower one of a pair, or those with which it is the other one:
// the column of that in its row, which also lies across, the column of the other that lies across, and their row, counted from 1.
#[derive(Clone, Copy)]
struct Half {
    lower: bool,
    ahead: usize,
    behind: usize,
    level: usize,
}

// A texel whose median is d away is within some radius: else none of its pairs can be near. No test waits for another.
fn reaches(d: f32, r: Radii) -> bool
    ensures { result ≡ (lt d r.horizontal || lt d r.vertical || lt d r.diagonal) }
{
    (d < r.horizontal) | (d < r.vertical) | (d < r.diagonal)
}

// Where the medians of row y start in the room, which has those of two rows by turns.
fn row_place(b: Window, y: usize) -> usize
    requires { Fits b }
    ensures { result ≡ row_place b y }
{
    y % 2 * b.width
}

// Leaves the medians of row y in the room, and the other row there as it was.
fn write_medians(room: &mut [f32], xs: &[f32], b: Window, y: usize)
    requires sampled { Sampled b xs.now × (2 * b.width ≤ length room.old) }
    requires y_lt_height { y < b.height }
    ensures here { Medians b xs.now room.new y }
    ensures there { (x : ℕ) → x < b.width → get_or room.new (row_place b (y + 1) + x) nan ≡ get_or room.old (row_place b (y + 1) + x) nan }
{
    let from = row_place(b, y);
    for x in 0..b.width {
        let m = texel::median(bitmap::texel(xs, b, x, y));
        room[from + x] = m.value;
    }
}

// The median of the texel at x, v, in row y or beside it: below it is worked out, since the room has that row no longer.
fn median_near(room: &[f32], xs: &[f32], b: Window, y: usize, x: usize, v: usize) -> f32
    requires sampled { Sampled b xs.now × (2 * b.width ≤ length room.now) }
    requires x_lt_width { (x < b.width) × (v < b.height) × (y ≤ v → Medians b xs.now room.now v) }
    ensures { result ≡ texel_median (texel (cut_samples b xs.now) b.width b.channels x v) }
{
    if v < y {
        let m = texel::median(bitmap::texel(xs, b, x, v));
        return m.value;
    }
    room[row_place(b, v) + x]
}

// The pair of the texel of t with n, whose median is k, protects it, as the lower one or as the other one.
// A flag, and no closure from above: its promise would be longer than the branch.
fn protects(r: f32, lower: bool, t: Centre, n: [f32; 3], k: f32) -> bool
    requires { (t.median ≡ texel_median t.texel) × (k ≡ texel_median n) }
    ensures { result ≡ protects_as lower r t.texel n }
{
    let a = t.texel;
    let m = t.median;
    if lower {
        edge::pair_protects(r, a, n, m, k, a, m)
    } else {
        edge::pair_protects(r, n, a, k, m, a, m)
    }
}

// The same with the neighbour at column nx and row ny, counted from 1.
// Where the texel is too far by itself the neighbour is not looked at.
fn as_either(
    room: &[f32],
    xs: &[f32],
    b: Window,
    r: f32,
    lower: bool,
    t: Centre,
    nx: usize,
    ny: usize,
) -> bool
    requires sampled { Sampled b xs.now × (2 * b.width ≤ length room.now) }
    requires centred { Centred (cut_samples b xs.now) b.width b.height b.channels t }
    requires rows { Rows b xs.now room.now t.y × (ny ≤ t.y + 2) }
    ensures { result ≡ as_either lower (texel (cut_samples b xs.now) b.width b.channels) b.width b.height r t.x t.y nx ny }
{
    edge::away(t.median) < r
        && (bitmap::in_bounds(b, nx, ny)
            && protects(
                r,
                lower,
                t,
                bitmap::neighbour(xs, b, nx, ny),
                median_near(room, xs, b, t.y, nx - 1, ny - 1),
            ))
}

// Some pair with one half of the neighbours protects the texel of t.
fn some_of(room: &[f32], xs: &[f32], b: Window, r: Radii, t: Centre, n: Half) -> bool
    requires sampled { Sampled b xs.now × (2 * b.width ≤ length room.now) }
    requires centred { Centred (cut_samples b xs.now) b.width b.height b.channels t }
    requires rows { Rows b xs.now room.now t.y × (n.level ≤ t.y + 2) }
    ensures { result ≡ some_of n.lower (texel (cut_samples b xs.now) b.width b.channels) b.width b.height r.horizontal r.vertical r.diagonal t.x t.y n.ahead n.behind n.level }
{
    as_either(room, xs, b, r.horizontal, n.lower, t, n.ahead, t.y + 1)
        || as_either(room, xs, b, r.vertical, n.lower, t, t.x + 1, n.level)
        || as_either(room, xs, b, r.diagonal, n.lower, t, n.ahead, n.level)
        || as_either(room, xs, b, r.diagonal, n.lower, t, n.behind, n.level)
}

// Some pair protects texel x, y, whose median is m. Most texels are too far from the outline for any.
fn some_edge(room: &[f32], xs: &[f32], b: Window, r: Radii, m: f32, x: usize, y: usize) -> bool
    requires sampled { Sampled b xs.now × (2 * b.width ≤ length room.now) }
    requires x_lt_width { (x < b.width) × (y < b.height) × (m ≡ texel_median (texel (cut_samples b xs.now) b.width b.channels x y)) }
    requires rows { Rows b xs.now room.now y }
    ensures { result ≡ Edges.some_edge (texel (cut_samples b xs.now) b.width b.channels) b.width b.height r.horizontal r.vertical r.diagonal x y }
{
    if !reaches(edge::away(m), r) {
        return false;
    }
    let t = Centre {
        texel: bitmap::texel(xs, b, x, y),
        median: m,
        x,
        y,
    };
    let above = Half {
        lower: true,
        ahead: x + 2,
        behind: x,
        level: y + 2,
    };
    let below = Half {
        lower: false,
        ahead: x,
        behind: x + 2,
        level: y,
    };
    some_of(room, xs, b, r, t, above) || some_of(room, xs, b, r, t, below)
}

// Protects each texel of row y that a pair protects.
fn protect_row(stencil: &mut [u8], room: &[f32], xs: &[f32], b: Window, r: Radii, y: usize)
    requires sampled { Sampled b xs.now × (2 * b.width ≤ length room.now) }
    requires stencilled { Stencilled b stencil.old }
    requires y_lt_height { (y < b.height) × Rows b xs.now room.now y }
    ensures { CellsPasted b stencil.old stencil.new (painted set_protected (λ k. eqb (k / b.width) y && Edges.some_edge (texel (cut_samples b xs.now) b.width b.channels) b.width b.height r.horizontal r.vertical r.diagonal (k % b.width) (k / b.width)) (cut_cells b stencil.old)) }
{
    let from = row_place(b, y);
    for x in 0..b.width {
        let m = room[from + x];
        if some_edge(room, xs, b, r, m, x, y) {
            let k = bitmap::cell(b, x, y);
            let v = stencil[k];
            stencil[k] = stencil::set_protected(v);
        }
    }
}

// Protects each texel that a pair protects. Each row's medians are worked out once, into the room, which has those of the row and of the next.
pub fn protect_edges(stencil: &mut [u8], xs: &[f32], room: &mut [f32], b: Window, s: Settings)
    requires sampled { Sampled b xs.now × (2 * b.width ≤ length room.old) }
    requires stencilled { Stencilled b stencil.old }
    ensures { CellsPasted b stencil.old stencil.new (painted set_protected (λ k. Edges.edges_protect (texel (cut_samples b xs.now) b.width b.channels) b.width b.height s (k % b.width) (k / b.width)) (cut_cells b stencil.old)) }
{
    let r = Radii {
        horizontal: edge::radius(s.horizontal),
        vertical: edge::radius(s.vertical),
        diagonal: edge::radius(s.diagonal),
    };
    if b.height > 0 {
        write_medians(room, xs, b, 0);
    }
    for y in 0..b.height {
        if y + 1 < b.height {
            write_medians(room, xs, b, y + 1);
        }
        protect_row(stencil, room, xs, b, r, y);
    }
}
