// The engine: protection, finding and collapsing on a window of a sheet. A bitmap alone is the window that is the whole.
ghost use Rattle.std.specs.Prelude.{◌≡◌, ◌*◌, ◌≤◌, length};
ghost use Rattle.ranges.specs.Config.{mode_number};
ghost use Rattle.correction.specs.Pass as Pass;
ghost use Rattle.inputs.specs.Inner.{Sampled, Stencilled};
ghost use Rattle.inputs.specs.Window.{CellsPasted, SamplesPasted};
ghost use Rattle.correction.specs.Inner.{Cleared, cut_out, shielded_cells};

use crate::{collapse, corners, edges, errors, orders, window};
use inputs::outline::Contours;
use inputs::sizes::Window;
use ranges::config::{Mode, Settings};

// Sets the corner and the protected bit as the mode wants them, in a window that is cleared.
fn protect(
    stencil: &mut [u8],
    xs: &[f32],
    room: &mut [f32],
    b: Window,
    mode: Mode,
    s: &Settings,
    contours: &Contours,
)
    requires sampled { Sampled b xs.now × (2 * b.width ≤ length room.old) }
    requires stencilled { Stencilled b stencil.old × Cleared b stencil.old }
    ensures { CellsPasted b stencil.old stencil.new (shielded_cells (cut_out b xs.now (mode_number mode) s.now contours.now.outline.colours.now contours.now.outline.coords.now contours.now.outline.ends.now)) }
{
    match mode {
        Mode::EdgeOnly => window::protect_all(stencil, b),
        Mode::EdgePriority => {
            corners::protect_corners(stencil, b, contours);
            edges::protect_edges(stencil, xs, room, b, *s);
        }
        Mode::Disabled | Mode::Indiscriminate => {}
    }
}

// The pass on a window that is cleared; answers how many range tests it made.
pub fn correct(
    stencil: &mut [u8],
    xs: &mut [f32],
    room: &mut [f32],
    b: Window,
    mode: Mode,
    s: &Settings,
    contours: &Contours,
) -> usize
    requires sampled { Sampled b xs.old × (2 * b.width ≤ length room.old) }
    requires stencilled { Stencilled b stencil.old × Cleared b stencil.old }
    ensures makes { result ≡ Pass.pass_tests (cut_out b xs.old (mode_number mode) s.now contours.now.outline.colours.now contours.now.outline.coords.now contours.now.outline.ends.now) }
    ensures leaves { CellsPasted b stencil.old stencil.new (Pass.pass_stencil (cut_out b xs.old (mode_number mode) s.now contours.now.outline.colours.now contours.now.outline.coords.now contours.now.outline.ends.now)) }
    ensures writes { SamplesPasted b xs.old xs.new (Pass.pass_samples (cut_out b xs.old (mode_number mode) s.now contours.now.outline.colours.now contours.now.outline.coords.now contours.now.outline.ends.now)) }
{
    if let Mode::Disabled = mode {
        return 0;
    }
    protect(stencil, xs, room, b, mode, s, contours);
    orders::write_orders(stencil, xs, b);
    let tests = errors::find_errors(stencil, xs, b, s);
    collapse::apply(stencil, xs, b);
    tests
}
