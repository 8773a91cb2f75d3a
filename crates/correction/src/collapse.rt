// Collapsing the flagged texels to a single channel's value.
ghost use Rattle.std.specs.Prelude.{◌≡◌, ◌+◌, ◌*◌, ◌/◌, ◌%◌, ◌<◌, cond, ◌&&◌, eqb, length, get_or};
ghost use Rattle.ground.specs.Lists.{painted};
ghost use Rattle.correction.specs.Collapse as Collapse;
ghost use Rattle.correction.specs.Inner.{without_orders};
ghost use Rattle.correction.specs.Numbered.{collapsed_at};
ghost use Rattle.inputs.specs.Inner.{Sampled, Stencilled};
ghost use Rattle.inputs.specs.Window.{cell_in, cut_cells, cut_samples, CellsPasted, SamplesPasted};
ghost use Rattle.inputs.specs.Stencil.{is_error};

use crate::{bitmap, window};
use detectors::texel;
use inputs::sizes::Window;
use inputs::stencil;

// The three samples from a place on become the value of their median, a zero's sign included.
fn collapse(xs: &mut [f32], at: usize)
    requires { at + 2 < length xs.old }
    ensures { xs.new ≡ collapsed_at xs.old at }
{
    let m = texel::median([xs[at], xs[at + 1], xs[at + 2]]);
    xs[at] = m.value;
    xs[at + 1] = m.value;
    xs[at + 2] = m.value;
}

// Those of texel x, y where the byte v of its cell has the error bit.
fn collapse_flagged(xs: &mut [f32], b: Window, v: u8, x: usize, y: usize)
    requires sampled { Sampled b xs.old }
    requires x_lt_width { (x < b.width) × (y < b.height) }
    ensures { xs.new ≡ cond (is_error v) (collapsed_at xs.old (cell_in b x y * b.channels)) xs.old }
{
    if stencil::is_error(v) {
        collapse(xs, bitmap::place(b, x, y));
    }
}

// Collapses each texel of row y whose cell has the error bit.
fn collapse_row(stencil: &[u8], xs: &mut [f32], b: Window, y: usize)
    requires sampled { Sampled b xs.old }
    requires stencilled { Stencilled b stencil.now }
    requires y_lt_height { y < b.height }
    ensures { SamplesPasted b xs.old xs.new (Collapse.collapsed (cut_samples b xs.old) b.channels (λ k. eqb (k / b.width) y && is_error (get_or (cut_cells b stencil.now) k 0))) }
{
    for x in 0..b.width {
        let v = stencil[bitmap::cell(b, x, y)];
        collapse_flagged(xs, b, v, x, y);
    }
}

// Collapses each texel whose cell has the error bit, and leaves no order in a cell.
pub fn apply(stencil: &mut [u8], xs: &mut [f32], b: Window)
    requires sampled { Sampled b xs.old }
    requires stencilled { Stencilled b stencil.old }
    ensures leaves { CellsPasted b stencil.old stencil.new (without_orders (cut_cells b stencil.old)) }
    ensures writes { SamplesPasted b xs.old xs.new (Collapse.collapsed (cut_samples b xs.old) b.channels (λ k. is_error (get_or (cut_cells b stencil.old) k 0))) }
{
    for y in 0..b.height {
        collapse_row(stencil, xs, b, y);
        window::paint_row(stencil, b, y, |_, v| v % stencil::ORDER);
    }
}
