// Whole sheets: the pass on each cell of a sheet, in place, as if the cell were a bitmap alone.
ghost use Rattle.std.specs.Prelude.{◌≡◌, ℕ, get_or, [], ◌+◌, ◌*◌, ◌^◌, ◌≤◌, ◌<◌, length};
ghost use Rattle.ground.specs.Lists.{tab};
ghost use Rattle.inputs.specs.Checks.{content_refusal, place_of};
ghost use Rattle.inputs.specs.Window.{CellsPasted, SamplesPasted};
ghost use Rattle.correction.specs.Pass.{pass_stencil, pass_samples};
ghost use Rattle.correction.specs.Sheet as Sheet;
ghost use Rattle.correction.specs.Sheet.{sheet, failure_in};
ghost use Rattle.inputs.specs.Refusal.{content_number_in, content_place_in};
ghost use Rattle.correction.specs.Inner.{Cleared};
ghost use Rattle.correction.specs.Cells.{CellOutlined, Laid, Ready, tally_of, tallies};

use crate::cells::Lengths;
use crate::pass::Corrected;
use crate::refusal::Refusal;
use crate::{cells, engine, window};
use inputs::outline::{Contours, Outline};
use inputs::refusal::ContentRefusal;
use inputs::sizes::Bitmap;
use inputs::stencil::Counts;
use inputs::{room, stencil};
use ranges::config::Mode;

// The mode and the contours of cell c, or the first of its checks 5 to 9 that fails.
fn check_cell<'a>(
    b: Bitmap,
    xs: &[f32],
    cells: &[usize],
    modes: &[u8],
    settings: &[f64],
    outline: Outline<'a>,
    c: usize,
) -> Result<(Mode, Contours<'a>), ContentRefusal>
    requires { Laid (sheet b.width b.height b.channels xs.now [] [] cells.now modes.now settings.now outline.colours.now outline.coords.now outline.ends.now) × (c < length modes.now) }
    ensures numbers { content_number_in result ≡ content_refusal (Sheet.alone (sheet b.width b.height b.channels xs.now [] [] cells.now modes.now settings.now outline.entry.colours.now outline.entry.coords.now outline.entry.ends.now) c) }
    ensures places { content_place_in result ≡ place_of (Sheet.alone (sheet b.width b.height b.channels xs.now [] [] cells.now modes.now settings.now outline.entry.colours.now outline.entry.coords.now outline.entry.ends.now) c) (content_number_in result) }
{
    let k = cells::cell_at(b, cells, settings, c);
    // Taken out of the cell: lent where they stand they would keep all of it on the stack.
    let s = k.settings;
    window::check(xs, k.window, modes[c], &s, &k.outline(outline))
}

// Those of all cells, first cell first.
fn check_cells(
    b: Bitmap,
    xs: &[f32],
    cells: &[usize],
    modes: &[u8],
    settings: &[f64],
    outline: Outline,
) -> Result<(), Refusal>
    requires { Laid (sheet b.width b.height b.channels xs.now [] [] cells.now modes.now settings.now outline.colours.now outline.coords.now outline.ends.now) }
    ensures { failure_in result ≡ Sheet.content_failure (sheet b.width b.height b.channels xs.now [] [] cells.now modes.now settings.now outline.entry.colours.now outline.entry.coords.now outline.entry.ends.now) }
{
    for c in 0..modes.len() {
        if let Err(r) = check_cell(b, xs, cells, modes, settings, outline, c) {
            return Err(Refusal::Cell(c, r));
        }
    }
    Ok(())
}

// All checks of a sheet; the first failure answers. For a caller who corrects a sheet part by part and wants to know beforehand.
pub fn check(
    b: Bitmap,
    xs: &[f32],
    stencil: &[u8],
    room: &[f32],
    cells: &[usize],
    modes: &[u8],
    settings: &[f64],
    colours: &[u8],
    coords: &[f64],
    ends: &[usize],
) -> Result<(), Refusal>
    ensures { failure_in result ≡ Sheet.failure (sheet b.width b.height b.channels xs.now stencil.now room.now cells.now modes.now settings.now colours.now coords.now ends.now) }
{
    let l = Lengths {
        samples: xs.len(),
        stencil: stencil.len(),
        room: room.len(),
        cells: cells.len(),
        modes: modes.len(),
        settings: settings.len(),
    };
    cells::check_sheet(b, l)?;
    let n = modes.len();
    if let Some(c) = cells::first_outside(b, cells, n) {
        return Err(Refusal::Outside(c));
    }
    if let Some(c) = cells::first_overlap(cells, n) {
        return Err(Refusal::Overlap(c));
    }
    let outline = Outline {
        colours,
        coords,
        ends,
    };
    if let Some(c) = cells::first_bad_run(cells, n, outline) {
        return Err(Refusal::Run(c));
    }
    check_cells(b, xs, cells, modes, settings, outline)
}

// The pass on cell c, whose window is cleared.
fn correct_cell(
    stencil: &mut [u8],
    xs: &mut [f32],
    room: &mut [f32],
    b: Bitmap,
    cells: &[usize],
    modes: &[u8],
    settings: &[f64],
    outline: Outline,
    c: usize,
) -> Corrected
    requires laid { Laid (sheet b.width b.height b.channels xs.old stencil.old [] cells.now modes.now settings.now outline.colours.now outline.coords.now outline.ends.now) × (c < length modes.now) × CellOutlined (sheet b.width b.height b.channels xs.old stencil.old [] cells.now modes.now settings.now outline.colours.now outline.coords.now outline.ends.now) c }
    requires stencil_len { length stencil.old ≡ b.height * b.width }
    requires cleared { Cleared (Sheet.window_at (sheet b.width b.height b.channels xs.old stencil.old [] cells.now modes.now settings.now outline.colours.now outline.coords.now outline.ends.now) c) stencil.old }
    requires width_in_bounds { 2 * b.width ≤ length room.old }
    requires mode { get_or modes.now c 0 ≤ 3 }
    ensures counts { result ≡ tally_of (Sheet.alone (sheet b.width b.height b.channels xs.old stencil.old [] cells.now modes.now settings.now outline.entry.colours.now outline.entry.coords.now outline.entry.ends.now) c) }
    ensures leaves { CellsPasted (Sheet.window_at (sheet b.width b.height b.channels xs.old stencil.old [] cells.now modes.now settings.now outline.entry.colours.now outline.entry.coords.now outline.entry.ends.now) c) stencil.old stencil.new (pass_stencil (Sheet.alone (sheet b.width b.height b.channels xs.old stencil.old [] cells.now modes.now settings.now outline.entry.colours.now outline.entry.coords.now outline.entry.ends.now) c)) }
    ensures writes { SamplesPasted (Sheet.window_at (sheet b.width b.height b.channels xs.old stencil.old [] cells.now modes.now settings.now outline.entry.colours.now outline.entry.coords.now outline.entry.ends.now) c) xs.old xs.new (pass_samples (Sheet.alone (sheet b.width b.height b.channels xs.old stencil.old [] cells.now modes.now settings.now outline.entry.colours.now outline.entry.coords.now outline.entry.ends.now) c)) }
{
    let k = cells::cell_at(b, cells, settings, c);
    // Taken out of the cell as for its checks.
    let s = k.settings;
    let mode = Mode::of(modes[c]).unwrap();
    let contours = Contours {
        outline: k.outline(outline),
    };
    let tests = engine::correct(stencil, xs, room, k.window, mode, &s, &contours);
    Corrected {
        counts: window::count_cells(stencil, k.window),
        tests,
    }
}

// The pass on each cell of a sheet that is cleared.
fn correct_cells(
    stencil: &mut [u8],
    xs: &mut [f32],
    room: &mut [f32],
    b: Bitmap,
    cells: &[usize],
    modes: &[u8],
    settings: &[f64],
    outline: Outline,
) -> Corrected
    requires ready { Ready (sheet b.width b.height b.channels xs.old stencil.old [] cells.now modes.now settings.now outline.colours.now outline.coords.now outline.ends.now) }
    requires stencil_value { stencil.old ≡ tab (length stencil.old) (λ k. 0) }
    requires width_in_bounds { 2 * b.width ≤ length room.old }
    requires modes { (c : ℕ) → c < length modes.now → get_or modes.now c 0 ≤ 3 }
    ensures counts { result ≡ tallies (sheet b.width b.height b.channels xs.old stencil.old [] cells.now modes.now settings.now outline.entry.colours.now outline.entry.coords.now outline.entry.ends.now) }
    ensures leaves { stencil.new ≡ Sheet.sheet_stencil (sheet b.width b.height b.channels xs.old stencil.old [] cells.now modes.now settings.now outline.entry.colours.now outline.entry.coords.now outline.entry.ends.now) }
    ensures writes { xs.new ≡ Sheet.sheet_samples (sheet b.width b.height b.channels xs.old stencil.old [] cells.now modes.now settings.now outline.entry.colours.now outline.entry.coords.now outline.entry.ends.now) }
{
    let mut sum = Corrected {
        counts: window::NONE,
        tests: 0,
    };
    for c in 0..modes.len() {
        let n = correct_cell(stencil, xs, room, b, cells, modes, settings, outline, c);
        sum = sum.plus(n);
    }
    sum
}

// The error correction of a sheet's cells, in place.
pub fn msdf_sheet_error_correction(
    width: usize,
    height: usize,
    channels: usize,
    samples: &mut [f32],
    stencil: &mut [u8],
    room: &mut [f32],
    cells: &[usize],
    modes: &[u8],
    settings: &[f64],
    colours: &[u8],
    coords: &[f64],
    ends: &[usize],
) -> Result<Corrected, Refusal>
    ensures answers { result ≡ Sheet.sheet_answer (sheet width height channels samples.old stencil.old room.old cells.now modes.now settings.now colours.now coords.now ends.now) }
    ensures leaves { stencil.new ≡ Sheet.sheet_stencil_after (sheet width height channels samples.old stencil.old room.old cells.now modes.now settings.now colours.now coords.now ends.now) }
    ensures writes { samples.new ≡ Sheet.sheet_samples_after (sheet width height channels samples.old stencil.old room.old cells.now modes.now settings.now colours.now coords.now ends.now) }
    ensures clears { room.new ≡ Sheet.sheet_room_after (sheet width height channels samples.old stencil.old room.old cells.now modes.now settings.now colours.now coords.now ends.now) }
{
    let b = Bitmap {
        width,
        height,
        channels,
    };
    check(
        b, samples, stencil, room, cells, modes, settings, colours, coords, ends,
    )?;
    stencil::fill(stencil, 0);
    let outline = Outline {
        colours,
        coords,
        ends,
    };
    let n = correct_cells(stencil, samples, room, b, cells, modes, settings, outline);
    room::clear(room);
    Ok(n)
}
