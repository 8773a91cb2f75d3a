// The pass by each of its two engines, on a bitmap and on the cells of a sheet, the checks of a sheet, the correction of signs, a field as bytes and back, the texel view
// and the channel of a texel's median for C and Rust to call.
#![tactic(auto)]

ghost use Rattle.std.specs.Prelude.{◌≡◌, [], ◌∷◌, length};
ghost use Rattle.detectors.specs.Texel.{texel_middle};
ghost use Rattle.inputs.specs.Checks as Checks;
ghost use Rattle.correction.specs.Pass as Pass;
ghost use Rattle.correction.specs.Sheet as Sheet;
ghost use Rattle.correction.specs.Sheet.{sheet};
ghost use Rattle.correction.specs.View as View;
ghost use Rattle.signs.specs.Checks as Marks;
ghost use Rattle.signs.specs.Checks.{input as field};
ghost use Rattle.signs.specs.Signs as Signs;
ghost use Rattle.pixels.specs.Checks as Outputs;
ghost use Rattle.pixels.specs.Bytes as Bytes;
ghost use Rattle.correction_c.specs.Call as Call;
ghost use Rattle.correction_c.specs.Call.{called};

use correction::{pass, sheet, view};
use detectors::texel;
use inputs::sizes::Bitmap;
use pixels::conversion;
use ranges::config::Settings;
use signs::rasterization;

// Answers the number of the first check that fails, 0 where all pass, and writes its place, the three counts and the number of range tests.
#[unsafe(no_mangle)]
pub extern "C" fn rungtwine_error_correction(
    width: usize,
    height: usize,
    channels: usize,
    samples: &mut [f32],
    stencil: &mut [u8],
    room: &mut [f32],
    mode: u8,
    ratio: f64,
    horizontal: f64,
    vertical: f64,
    diagonal: f64,
    colours: &[u8],
    coords: &[f64],
    ends: &[usize],
    place: &mut usize,
    protected: &mut usize,
    error: &mut usize,
    corner: &mut usize,
    tests: &mut usize,
) -> u8
    ensures numbers { result ≡ Checks.refusal_number (called width height channels samples.old stencil.old room.old mode ratio horizontal vertical diagonal colours.now coords.now ends.now) }
    ensures places { place.new ≡ Checks.refusal_place (called width height channels samples.old stencil.old room.old mode ratio horizontal vertical diagonal colours.now coords.now ends.now) }
    ensures protects { protected.new ≡ Pass.protected_cells (called width height channels samples.old stencil.old room.old mode ratio horizontal vertical diagonal colours.now coords.now ends.now) }
    ensures flags { error.new ≡ Pass.error_cells (called width height channels samples.old stencil.old room.old mode ratio horizontal vertical diagonal colours.now coords.now ends.now) }
    ensures corners { corner.new ≡ Pass.corner_cells (called width height channels samples.old stencil.old room.old mode ratio horizontal vertical diagonal colours.now coords.now ends.now) }
    ensures tests { tests.new ≡ Pass.test_count (called width height channels samples.old stencil.old room.old mode ratio horizontal vertical diagonal colours.now coords.now ends.now) }
    ensures leaves { stencil.new ≡ Pass.stencil_after (called width height channels samples.old stencil.old room.old mode ratio horizontal vertical diagonal colours.now coords.now ends.now) }
    ensures writes { samples.new ≡ Pass.samples_after (called width height channels samples.old stencil.old room.old mode ratio horizontal vertical diagonal colours.now coords.now ends.now) }
    ensures clears { room.new ≡ Pass.room_after (called width height channels samples.old stencil.old room.old mode ratio horizontal vertical diagonal colours.now coords.now ends.now) }
{
    let s = Settings {
        ratio,
        horizontal,
        vertical,
        diagonal,
    };
    match pass::msdf_error_correction(
        width, height, channels, samples, stencil, room, mode, s, colours, coords, ends,
    ) {
        Ok(c) => {
            *place = 0;
            *protected = c.counts.protected;
            *error = c.counts.error;
            *corner = c.counts.corner;
            *tests = c.tests;
            0
        }
        Err(r) => {
            *place = r.place();
            *protected = 0;
            *error = 0;
            *corner = 0;
            *tests = 0;
            r.number()
        }
    }
}

// The same by the plain engine, which counts no range tests.
#[unsafe(no_mangle)]
pub extern "C" fn rungtwine_plain_error_correction(
    width: usize,
    height: usize,
    channels: usize,
    samples: &mut [f32],
    stencil: &mut [u8],
    room: &mut [f32],
    mode: u8,
    ratio: f64,
    horizontal: f64,
    vertical: f64,
    diagonal: f64,
    colours: &[u8],
    coords: &[f64],
    ends: &[usize],
    place: &mut usize,
    protected: &mut usize,
    error: &mut usize,
    corner: &mut usize,
) -> u8
    ensures numbers { result ≡ Checks.refusal_number (called width height channels samples.old stencil.old room.old mode ratio horizontal vertical diagonal colours.now coords.now ends.now) }
    ensures places { place.new ≡ Checks.refusal_place (called width height channels samples.old stencil.old room.old mode ratio horizontal vertical diagonal colours.now coords.now ends.now) }
    ensures protects { protected.new ≡ Pass.protected_cells (called width height channels samples.old stencil.old room.old mode ratio horizontal vertical diagonal colours.now coords.now ends.now) }
    ensures flags { error.new ≡ Pass.error_cells (called width height channels samples.old stencil.old room.old mode ratio horizontal vertical diagonal colours.now coords.now ends.now) }
    ensures corners { corner.new ≡ Pass.corner_cells (called width height channels samples.old stencil.old room.old mode ratio horizontal vertical diagonal colours.now coords.now ends.now) }
    ensures leaves { stencil.new ≡ Pass.stencil_after (called width height channels samples.old stencil.old room.old mode ratio horizontal vertical diagonal colours.now coords.now ends.now) }
    ensures writes { samples.new ≡ Pass.samples_after (called width height channels samples.old stencil.old room.old mode ratio horizontal vertical diagonal colours.now coords.now ends.now) }
    ensures clears { room.new ≡ Pass.room_after (called width height channels samples.old stencil.old room.old mode ratio horizontal vertical diagonal colours.now coords.now ends.now) }
{
    let s = Settings {
        ratio,
        horizontal,
        vertical,
        diagonal,
    };
    match plain::pass::plain_error_correction(
        width, height, channels, samples, stencil, room, mode, s, colours, coords, ends,
    ) {
        Ok(c) => {
            *place = 0;
            *protected = c.protected;
            *error = c.error;
            *corner = c.corner;
            0
        }
        Err(r) => {
            *place = r.place();
            *protected = 0;
            *error = 0;
            *corner = 0;
            r.number()
        }
    }
}

// The pass on each cell of a sheet, in place. Answers the number of the first check that fails, 0 where all pass, and writes its cell and its place, and the three
// counts and the number of range tests, summed over the cells.
#[unsafe(no_mangle)]
pub extern "C" fn rungtwine_sheet_error_correction(
    width: usize,
    height: usize,
    channels: usize,
    samples: &mut [f32],
    stencil: &mut [u8],
    room: &mut [f32],
    cells: &[usize],
    modes: &[u8],
    settings: &[f64],
    colours: &[u8],
    coords: &[f64],
    ends: &[usize],
    cell: &mut usize,
    place: &mut usize,
    protected: &mut usize,
    error: &mut usize,
    corner: &mut usize,
    tests: &mut usize,
) -> u8
    ensures numbers { result ≡ (Sheet.failure (sheet width height channels samples.old stencil.old room.old cells.now modes.now settings.now colours.now coords.now ends.now)).number }
    ensures names { cell.new ≡ (Sheet.failure (sheet width height channels samples.old stencil.old room.old cells.now modes.now settings.now colours.now coords.now ends.now)).cell }
    ensures places { place.new ≡ (Sheet.failure (sheet width height channels samples.old stencil.old room.old cells.now modes.now settings.now colours.now coords.now ends.now)).place }
    ensures protects { protected.new ≡ Call.sheet_protected (sheet width height channels samples.old stencil.old room.old cells.now modes.now settings.now colours.now coords.now ends.now) }
    ensures flags { error.new ≡ Call.sheet_errors (sheet width height channels samples.old stencil.old room.old cells.now modes.now settings.now colours.now coords.now ends.now) }
    ensures corners { corner.new ≡ Call.sheet_corners (sheet width height channels samples.old stencil.old room.old cells.now modes.now settings.now colours.now coords.now ends.now) }
    ensures tests { tests.new ≡ Call.sheet_test_count (sheet width height channels samples.old stencil.old room.old cells.now modes.now settings.now colours.now coords.now ends.now) }
    ensures leaves { stencil.new ≡ Sheet.sheet_stencil_after (sheet width height channels samples.old stencil.old room.old cells.now modes.now settings.now colours.now coords.now ends.now) }
    ensures writes { samples.new ≡ Sheet.sheet_samples_after (sheet width height channels samples.old stencil.old room.old cells.now modes.now settings.now colours.now coords.now ends.now) }
    ensures clears { room.new ≡ Sheet.sheet_room_after (sheet width height channels samples.old stencil.old room.old cells.now modes.now settings.now colours.now coords.now ends.now) }
{
    match sheet::msdf_sheet_error_correction(
        width, height, channels, samples, stencil, room, cells, modes, settings, colours, coords,
        ends,
    ) {
        Ok(c) => {
            *cell = 0;
            *place = 0;
            *protected = c.counts.protected;
            *error = c.counts.error;
            *corner = c.counts.corner;
            *tests = c.tests;
            0
        }
        Err(r) => {
            *cell = r.cell();
            *place = r.place();
            *protected = 0;
            *error = 0;
            *corner = 0;
            *tests = 0;
            r.number()
        }
    }
}

// All checks of a sheet, and nothing else: the number of the first that fails, 0 where all pass; its cell and its place are written.
#[unsafe(no_mangle)]
pub extern "C" fn rungtwine_sheet_check(
    width: usize,
    height: usize,
    channels: usize,
    samples: &[f32],
    stencil: &[u8],
    room: &[f32],
    cells: &[usize],
    modes: &[u8],
    settings: &[f64],
    colours: &[u8],
    coords: &[f64],
    ends: &[usize],
    cell: &mut usize,
    place: &mut usize,
) -> u8
    ensures numbers { result ≡ (Sheet.failure (sheet width height channels samples.now stencil.now room.now cells.now modes.now settings.now colours.now coords.now ends.now)).number }
    ensures names { cell.new ≡ (Sheet.failure (sheet width height channels samples.now stencil.now room.now cells.now modes.now settings.now colours.now coords.now ends.now)).cell }
    ensures places { place.new ≡ (Sheet.failure (sheet width height channels samples.now stencil.now room.now cells.now modes.now settings.now colours.now coords.now ends.now)).place }
{
    let b = Bitmap {
        width,
        height,
        channels,
    };
    match sheet::check(
        b, samples, stencil, room, cells, modes, settings, colours, coords, ends,
    ) {
        Ok(()) => {
            *cell = 0;
            *place = 0;
            0
        }
        Err(r) => {
            *cell = r.cell();
            *place = r.place();
            r.number()
        }
    }
}

// The correction of signs, in place. Answers the number of the first check that fails, 0 where all pass, and writes its place.
#[unsafe(no_mangle)]
pub extern "C" fn rungtwine_sign_correction(
    width: usize,
    height: usize,
    channels: usize,
    samples: &mut [f32],
    zero: f32,
    filled: &[u8],
    matches: &mut [i8],
    place: &mut usize,
) -> u8
    ensures numbers { result ≡ Marks.refusal_number (field width height channels samples.old zero filled.now matches.old) }
    ensures places { place.new ≡ Marks.refusal_place (field width height channels samples.old zero filled.now matches.old) }
    ensures writes { samples.new ≡ Signs.samples_after (field width height channels samples.old zero filled.now matches.old) }
    ensures leaves { matches.new ≡ Signs.matches_after (field width height channels samples.old zero filled.now matches.old) }
{
    match rasterization::distance_sign_correction(
        width, height, channels, samples, zero, filled, matches,
    ) {
        Ok(()) => {
            *place = 0;
            0
        }
        Err(r) => {
            *place = r.place();
            r.number()
        }
    }
}

// Samples to bytes. Answers the number of the first check that fails, 0 where both pass, and writes its place.
#[unsafe(no_mangle)]
pub extern "C" fn rungtwine_samples_to_bytes(
    samples: &[f32],
    bytes: &mut [u8],
    place: &mut usize,
) -> u8
    ensures numbers { result ≡ Outputs.refusal_number samples.now (length bytes.old) }
    ensures places { place.new ≡ Outputs.refusal_place samples.now (length bytes.old) }
    ensures writes { bytes.new ≡ Bytes.bytes_after samples.now bytes.old }
{
    match conversion::samples_to_bytes(samples, bytes) {
        Ok(()) => {
            *place = 0;
            0
        }
        Err(r) => {
            *place = r.place();
            r.number()
        }
    }
}

// Bytes to samples. Answers the number of the check that fails, 0 where it passes, and writes its place, which is 0.
#[unsafe(no_mangle)]
pub extern "C" fn rungtwine_bytes_to_samples(
    bytes: &[u8],
    samples: &mut [f32],
    place: &mut usize,
) -> u8
    ensures numbers { result ≡ Outputs.length_refusal (length bytes.now) (length samples.old) }
    ensures places { place.new ≡ 0 }
    ensures writes { samples.new ≡ Bytes.samples_after bytes.now samples.old }
{
    match conversion::bytes_to_samples(bytes, samples) {
        Ok(()) => {
            *place = 0;
            0
        }
        Err(r) => {
            *place = r.place();
            r.number()
        }
    }
}

// Leaves in texel what the view lends: an exported function returns no reference.
#[unsafe(no_mangle)]
pub extern "C" fn rungtwine_texel_view<'a>(
    width: usize,
    height: usize,
    channels: usize,
    original: &'a [f32],
    corrected: &'a [f32],
    stencil: &[u8],
    x: usize,
    y: usize,
    texel: &mut &'a [f32],
)
    ensures holds { texel.new.now ≡ View.view_of original.now corrected.now stencil.now width height channels x y }
    ensures lies { texel.new.ref_ptr ≡ View.view_place original.entry corrected.entry stencil.now width height channels x y }
{
    *texel = view::texel_view(original, corrected, stencil, width, height, channels, x, y);
}

// The lowest channel of a texel whose value compares equal to its median, from the values of its first three.
#[unsafe(no_mangle)]
pub extern "C" fn rungtwine_texel_channel(red: f32, green: f32, blue: f32) -> usize
    ensures { result ≡ (texel_middle (red ∷ green ∷ blue ∷ [])).channel }
{
    let m = texel::median([red, green, blue]);
    m.channel
}
