// Protection of the texels around corners.
ghost use Rattle.std.specs.Prelude.{◌≡◌, ◌+◌, ◌-◌, ◌*◌, ◌/◌, ◌%◌, ◌<◌, ◌≤◌, cond, ◌&&◌, eqb, ltb, length};
ghost use Rattle.correction.specs.Corners as Corners;
ghost use Rattle.correction.specs.Inner.{at_corner, spot, clip};
ghost use Rattle.correction.specs.Numbered.{corner_hits, contour_hits};
ghost use Rattle.inputs.specs.Inner.{Stencilled};
ghost use Rattle.inputs.specs.Window.{cut_cells, CellsPasted};
ghost use Rattle.ground.specs.Lists.{painted};

use crate::bitmap;
use inputs::outline::Contours;
use inputs::sizes::Window;
use inputs::stencil;
use numbers::rounding;
use ranges::constants;

// A contour: its segments from `from` up to `end`.
#[derive(Clone, Copy)]
struct Contour {
    from: usize,
    end: usize,
}

impl Contour {
    // The segment before i, cyclic.
    fn previous(self, i: usize) -> usize
        requires { (self.from ≤ i) × (i < self.end) }
        ensures { (result ≡ cond (eqb i self.from) (self.end - 1) (i - 1)) × (result < self.end) }
    {
        if i == self.from { self.end - 1 } else { i - 1 }
    }
}

// A signed column or row, clipped: counted from 1 where it is from -1 to n - 1, and n + 1 elsewhere.
// No Option: `in_bounds` refuses n + 1 as it does 0, and each of the four cells around a point would ask twice.
fn clipped(l: i64, n: usize) -> usize
    requires { n ≤ 4096 }
    ensures { result ≡ clip l n }
{
    if l < -1 {
        return n + 1;
    }
    if l < 0 {
        return 0;
    }
    let k = l as usize;
    if k < n { k + 1 } else { n + 1 }
}

// The column or row at and below which a point lies, as the texels' centres count, clipped.
fn lower(x: f64, n: usize) -> usize
    requires { n ≤ 4096 }
    ensures { result ≡ clip (Corners.lower x) n }
{
    clipped(rounding::floor_to_i64(x - constants::HALF_WIDE), n)
}

// Sets the corner and the protected bit of the cell at column nx and row ny, counted from 1, where they are inside.
fn mark(stencil: &mut [u8], b: Window, nx: usize, ny: usize)
    requires { Stencilled b stencil.old }
    ensures { CellsPasted b stencil.old stencil.new (painted at_corner (spot b.width b.height nx ny) (cut_cells b stencil.old)) }
{
    if bitmap::in_bounds(b, nx, ny) {
        let k = bitmap::cell(b, nx - 1, ny - 1);
        stencil[k] = stencil::set_both(stencil[k]);
    }
}

// The four cells around a point.
fn mark_around(stencil: &mut [u8], b: Window, px: f64, py: f64)
    requires { Stencilled b stencil.old }
    ensures { CellsPasted b stencil.old stencil.new (painted at_corner (λ k. Corners.beside (Corners.lower px) (k % b.width) && Corners.beside (Corners.lower py) (k / b.width)) (cut_cells b stencil.old)) }
{
    let left = lower(px, b.width);
    let bottom = lower(py, b.height);
    let right = left + 1;
    let top = bottom + 1;
    mark(stencil, b, left, bottom);
    mark(stencil, b, right, bottom);
    mark(stencil, b, left, top);
    mark(stencil, b, right, top);
}

// How many of the three colour bits both have.
fn shared(a: u8, b: u8) -> u8
    ensures { result ≡ Corners.shared a b }
{
    a % 2 * (b % 2) + a / 2 % 2 * (b / 2 % 2) + a / 4 % 2 * (b / 4 % 2)
}

// None or one shared bit is a corner.
fn is_corner(a: u8, b: u8) -> bool
    ensures { result ≡ ltb (Corners.shared a b) 2 }
{
    shared(a, b) < 2
}

// Segment i of a contour, where it is a corner.
fn protect_corner(stencil: &mut [u8], b: Window, contours: &Contours, c: Contour, i: usize)
    requires stencilled { Stencilled b stencil.old }
    requires from_le_i { (c.from ≤ i) × (i < c.end) × (c.end ≤ length contours.now.outline.colours.now) }
    ensures { CellsPasted b stencil.old stencil.new (painted at_corner (λ k. corner_hits contours.now.outline.colours.now contours.now.outline.coords.now c.from c.end i (k % b.width) (k / b.width)) (cut_cells b stencil.old)) }
{
    let o = contours.outline;
    let j = c.previous(i);
    if is_corner(o.colours[j], o.colours[i]) {
        mark_around(stencil, b, o.coords[2 * i], o.coords[2 * i + 1]);
    }
}

// One contour.
fn protect_contour(stencil: &mut [u8], b: Window, contours: &Contours, c: Contour)
    requires stencilled { Stencilled b stencil.old }
    requires from_le_end { (c.from ≤ c.end) × (c.end ≤ length contours.now.outline.colours.now) }
    ensures { CellsPasted b stencil.old stencil.new (painted at_corner (λ k. contour_hits contours.now.outline.colours.now contours.now.outline.coords.now c.from c.end (k % b.width) (k / b.width)) (cut_cells b stencil.old)) }
{
    for i in c.from..c.end {
        protect_corner(stencil, b, contours, c, i);
    }
}

// All contours; an empty one is skipped.
pub fn protect_corners(stencil: &mut [u8], b: Window, contours: &Contours)
    requires { Stencilled b stencil.old }
    ensures { CellsPasted b stencil.old stencil.new (painted at_corner (λ k. Corners.corners_protect (Corners.contours contours.now.outline.colours.now contours.now.outline.coords.now contours.now.outline.ends.now) (k % b.width) (k / b.width)) (cut_cells b stencil.old)) }
{
    let mut from = 0usize;
    for &end in contours.outline.ends {
        protect_contour(stencil, b, contours, Contour { from, end });
        from = end;
    }
}
