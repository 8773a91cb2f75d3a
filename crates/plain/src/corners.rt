// The texels around corners: segment by segment, each with the colour of the one before it in its contour, cyclic.
ghost use Rattle.std.specs.Prelude.{◌≡◌, ◌+◌, ◌-◌, ◌*◌, ◌/◌, ◌%◌, ◌<◌, ◌≤◌, ◌&&◌, ltb, length, if◌then◌else◌, nat_lt, slice_index};
ghost use Rattle.ground.specs.Lists.{painted};
ghost use Rattle.inputs.specs.Inner.{Celled, Outlined};
ghost use Rattle.correction.specs.Corners as Corners;
ghost use Rattle.correction.specs.Numbered.{contour_hits};
ghost use Rattle.plain.specs.Inner as Inner;

use crate::checks;
use inputs::sizes::Bitmap;
use inputs::stencil;
use numbers::rounding;
use ranges::constants;

// The outlines of a field: its segments, contour after contour, and where each contour ends.
#[derive(Clone, Copy)]
pub struct Outlines<'a> {
    pub colours: &'a [u8],
    pub coords: &'a [f64],
    pub ends: &'a [usize],
    ghost outlined: { Outlined colours.now coords.now ends.now },
}

// Of the two columns or rows l and l + 1 the first; n where it is not one of n. No Option: `mark` asks whether a column and a row are inside, and n is not.
fn first_beside(l: i64, n: usize) -> usize
    ensures { result ≡ Inner.first_beside l n }
{
    if l < 0 {
        return n;
    }
    let k = l as usize;
    if k < n { k } else { n }
}

// The second.
fn second_beside(l: i64, n: usize) -> usize
    ensures { result ≡ Inner.second_beside l n }
{
    if l < -1 {
        return n;
    }
    if l < 0 {
        return 0;
    }
    let k = (l as usize) + 1;
    if k < n { k } else { n }
}

// Marks the cell of texel x, y, where there is one.
// The cells stay beside their sizes: of a struct that lent both, each clause of a mark would say besides that sizes and borrow stay.
fn mark(stencil: &mut [u8], b: Bitmap, x: usize, y: usize)
    requires { Celled b.width b.height stencil.old }
    ensures { stencil.new ≡ painted Inner.corner (Inner.is_cell b.width b.height x y) stencil.old }
{
    if x < b.width && y < b.height {
        stencil[y * b.width + x] = stencil::CORNER;
    }
}

// Marks the four texels around the point px, py: the centre of texel 0 lies at 0.5.
fn mark_around(stencil: &mut [u8], b: Bitmap, px: f64, py: f64)
    requires { Celled b.width b.height stencil.old }
    ensures { stencil.new ≡ painted Inner.corner (λ k. Corners.beside (Corners.lower px) (k % b.width) && Corners.beside (Corners.lower py) (k / b.width)) stencil.old }
{
    let l = rounding::floor_to_i64(px - constants::HALF_WIDE);
    let u = rounding::floor_to_i64(py - constants::HALF_WIDE);
    let left = first_beside(l, b.width);
    let right = second_beside(l, b.width);
    let below = first_beside(u, b.height);
    let above = second_beside(u, b.height);
    mark(stencil, b, left, below);
    mark(stencil, b, right, below);
    mark(stencil, b, left, above);
    mark(stencil, b, right, above);
}

// How many of the three colour bits both have.
fn shared(a: u8, b: u8) -> u8
    ensures { result ≡ Corners.shared a b }
{
    let red = a % 2 * (b % 2);
    let green = a / 2 % 2 * (b / 2 % 2);
    let blue = a / 4 % 2 * (b / 4 % 2);
    red + green + blue
}

// A segment at px, py of one colour after a segment of another: none or one shared bit makes a corner.
fn mark_segment(stencil: &mut [u8], b: Bitmap, before: u8, colour: u8, px: f64, py: f64)
    requires { Celled b.width b.height stencil.old }
    ensures { stencil.new ≡ painted Inner.corner (λ k. nat_lt (Corners.shared before colour) 2 && (Corners.beside (Corners.lower px) (k % b.width) && Corners.beside (Corners.lower py) (k / b.width))) stencil.old }
{
    if shared(before, colour) < 2 {
        mark_around(stencil, b, px, py);
    }
}

// The colour of a contour's last segment, which comes before its first; 0 where the contour is empty.
fn last_colour(colours: &[u8], from: usize, end: usize) -> u8
    requires { end ≤ length colours.now }
    ensures { result ≡ (if ltb from end then slice_index colours.now (end - 1) else 0) }
{
    if from < end { colours[end - 1] } else { 0 }
}

// The contour of the segments from `from` up to `end`.
fn mark_contour(stencil: &mut [u8], b: Bitmap, all: &Outlines, from: usize, end: usize)
    requires celled { Celled b.width b.height stencil.old }
    requires within { (from ≤ end) × (end ≤ length all.now.colours.now) }
    ensures { stencil.new ≡ painted Inner.corner (λ k. contour_hits all.now.colours.now all.now.coords.now from end (k % b.width) (k / b.width)) stencil.old }
{
    let mut last = last_colour(all.colours, from, end);
    for i in from..end {
        let colour = all.colours[i];
        let px = all.coords[2 * i];
        let py = all.coords[2 * i + 1];
        mark_segment(stencil, b, last, colour, px, py);
        last = colour;
    }
}

// All contours: each goes from the end of the one before it to its own.
pub fn mark_corners(stencil: &mut [u8], b: Bitmap, all: &Outlines)
    requires { Celled b.width b.height stencil.old }
    ensures { stencil.new ≡ painted Inner.corner (λ k. Corners.corners_protect (Corners.contours all.now.colours.now all.now.coords.now all.now.ends.now) (k % b.width) (k / b.width)) stencil.old }
{
    for (c, end) in all.ends.iter().enumerate() {
        let from = checks::end_before(all.ends, c);
        mark_contour(stencil, b, all, from, *end);
    }
}
