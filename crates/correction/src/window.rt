// What is done to a window row by row: a row's cells and samples lie side by side.
ghost use Rattle.std.specs.Prelude.{◌≡◌, IfOk, ℕ, [], ◌+◌, ◌*◌, ◌^◌, ◌<◌, get_or};
ghost use Rattle.ground.specs.Lists.{tab};
ghost use Rattle.ranges.specs.Config.{mode_number};
ghost use Rattle.inputs.specs.Checks as Checks;
ghost use Rattle.inputs.specs.Checks.{input};
ghost use Rattle.inputs.specs.Refusal.{content_number_in, content_place_in};
ghost use Rattle.inputs.specs.Inner.{Sampled, Stencilled};
ghost use Rattle.inputs.specs.Stencil.{counts_of};
ghost use Rattle.inputs.specs.Window.{cell_in, cut_cells, cut_samples, CellsPasted};
ghost use Rattle.correction.specs.Inner.{RowPainted, together};

use crate::bitmap;
use inputs::outline::{Contours, Outline};
use inputs::refusal::ContentRefusal;
use inputs::sizes::Window;
use inputs::stencil::Counts;
use inputs::{checks, stencil};
use ranges::config::{Mode, Settings};

// Each cell of row y holds what `paint` makes of its number and its byte.
pub fn paint_row<F: Fn(usize, u8) -> u8>(stencil: &mut [u8], b: Window, y: usize, paint: F)
    requires stencilled { Stencilled b stencil.old }
    requires y_lt_height { y < b.height }
    requires callable { (x : ℕ) → x < b.width → F.pre paint (cell_in b x y) (get_or stencil.old (cell_in b x y) 0) }
    ensures { RowPainted (F.post paint) b y b.width stencil.old stencil.new }
{
    for x in 0..b.width {
        let k = bitmap::cell(b, x, y);
        stencil[k] = paint(k, stencil[k]);
    }
}

// The protected bit and no other in each cell.
pub fn protect_all(stencil: &mut [u8], b: Window)
    requires { Stencilled b stencil.old }
    ensures { CellsPasted b stencil.old stencil.new (tab (b.height * b.width) (λ k. 2)) }
{
    for y in 0..b.height {
        paint_row(stencil, b, y, |_, _| stencil::PROTECTED);
    }
}

// No cell counted.
pub const NONE: Counts = Counts {
    protected: 0,
    error: 0,
    corner: 0,
};

// How many cells of two parts have each bit.
pub fn together(a: Counts, b: Counts) -> Counts
    requires { (a.protected + b.protected < 2 ^ 64) × (a.error + b.error < 2 ^ 64) × (a.corner + b.corner < 2 ^ 64) }
    ensures { result ≡ together a b }
{
    Counts {
        protected: a.protected + b.protected,
        error: a.error + b.error,
        corner: a.corner + b.corner,
    }
}

// How many cells have each bit.
pub fn count_cells(stencil: &[u8], b: Window) -> Counts
    requires { Stencilled b stencil.now }
    ensures { result ≡ counts_of (cut_cells b stencil.now) }
{
    let mut sum = NONE;
    for y in 0..b.height {
        let from = bitmap::cell(b, 0, y);
        let end = from + b.width;
        sum = together(sum, stencil::count_cells(&stencil[from..end]));
    }
    sum
}

// Check 6 of a window: the first bad sample, as the window counts its samples.
fn first_bad_sample(xs: &[f32], b: Window) -> Option<usize>
    requires { Sampled b xs.now }
    ensures { Checks.Found (b.height * b.width * b.channels) (Checks.samples_place (cut_samples b xs.now)) result }
{
    let n = b.width * b.channels;
    for y in 0..b.height {
        let from = bitmap::place(b, 0, y);
        let end = from + n;
        if let Some(p) = checks::first_bad_sample(&xs[from..end]) {
            return Some(y * n + p);
        }
    }
    None
}

// The mode and the contours, or the first of checks 5 to 9 that fails of a window as a bitmap alone.
pub fn check<'a>(
    xs: &[f32],
    b: Window,
    mode: u8,
    s: &Settings,
    o: &Outline<'a>,
) -> Result<(Mode, Contours<'a>), ContentRefusal>
    requires { Sampled b xs.now }
    ensures numbers { content_number_in result ≡ Checks.content_refusal (input b.width b.height b.channels (cut_samples b xs.now) [] [] mode s.now o.now.colours.now o.now.coords.now o.now.ends.now) }
    ensures places { content_place_in result ≡ Checks.place_of (input b.width b.height b.channels (cut_samples b xs.now) [] [] mode s.now o.now.colours.now o.now.coords.now o.now.ends.now) (content_number_in result) }
    ensures modes { IfOk result (λ c. mode_number c.0 ≡ mode) }
    ensures same { IfOk result (λ c. c.1.outline ≡ o.now) }
{
    let m = checks::check_settings(mode, *s)?;
    if let Some(p) = first_bad_sample(xs, b) {
        return Err(ContentRefusal::Sample(p));
    }
    let contours = o.check()?;
    Ok((m, contours))
}
