// The orders of texels, which stand in their cells while errors are found.
ghost use Rattle.std.specs.Prelude.{◌≡◌, ◌+◌, ◌*◌, ◌<◌, length};
ghost use Rattle.detectors.specs.Orders.{order_code};
ghost use Rattle.correction.specs.Inner.{Plain, PlainRow, row_orders, samples_at, with_orders};
ghost use Rattle.inputs.specs.Inner.{Sampled, Stencilled};
ghost use Rattle.inputs.specs.Window.{cut_cells, cut_samples, CellsPasted};

use crate::{bitmap, window};
use detectors::orders;
use inputs::sizes::Window;
use inputs::stencil;

// The byte v of a cell with the order above it of the texel whose samples stand from a place on.
fn with_order(xs: &[f32], at: usize, v: u8) -> u8
    requires { (at + 2 < length xs.now) × (v < 8) }
    ensures { result ≡ v + 8 * order_code (samples_at xs.now at) }
{
    v + stencil::ORDER * orders::order_code(bitmap::samples_at(xs, at))
}

// Puts the order of each texel of row y above the three bits of its cell.
// The number of channels is a constant in each loop, which lets several texels be worked out at once.
fn write_row(stencil: &mut [u8], xs: &[f32], b: Window, y: usize)
    requires sampled { Sampled b xs.now }
    requires stencilled { Stencilled b stencil.old × PlainRow b stencil.old y }
    requires y_lt_height { y < b.height }
    ensures { CellsPasted b stencil.old stencil.new (row_orders (cut_samples b xs.now) b.width b.channels y (cut_cells b stencil.old)) }
{
    if b.channels == 3 {
        window::paint_row(stencil, b, y, |k, v| with_order(xs, k * 3, v));
    } else {
        window::paint_row(stencil, b, y, |k, v| with_order(xs, k * 4, v));
    }
}

// Puts the order of each texel above the three bits of its cell.
pub fn write_orders(stencil: &mut [u8], xs: &[f32], b: Window)
    requires sampled { Sampled b xs.now }
    requires stencilled { Stencilled b stencil.old × Plain b stencil.old }
    ensures { CellsPasted b stencil.old stencil.new (with_orders (cut_samples b xs.now) b.width b.channels (cut_cells b stencil.old)) }
{
    for y in 0..b.height {
        write_row(stencil, xs, b, y);
    }
}
