// The plain pass: the checks; the corners; then for each texel its byte, worked out whole; then collapsing. The room is checked and cleared, and not used.
ghost use Rattle.std.specs.Prelude.{◌≡◌, ◌*◌, ◌/◌, ◌%◌, ◌<◌, ◌≤◌, ◌&&◌, length, if◌then◌else◌, ◌==◌, nat_eq, slice_index};
ghost use Rattle.std.specs.Float.{binary32};
ghost use Rattle.numbers.specs.Constants.{zero_of};
ghost use Rattle.ground.specs.Lists.{tab};
ghost use Rattle.inputs.specs.Checks.{input};
ghost use Rattle.inputs.specs.Inner.{Sized, Celled, Outlined};
ghost use Rattle.inputs.specs.Stencil as Stencil;
ghost use Rattle.ranges.specs.Config.{edge_priority};
ghost use Rattle.correction.specs.Corners.{contours, corners_protect};
ghost use Rattle.correction.specs.Pass as Pass;
ghost use Rattle.plain.specs.Answer.{plain_answer};
ghost use Rattle.plain.specs.Inner as Inner;
ghost use Rattle.plain.specs.Read.{read};

use crate::corners::Outlines;
use crate::texels::{Texel, Texels};
use crate::{checks, collapse, corners, edges, errors};
use inputs::refusal::Refusal;
use inputs::sizes::Bitmap;
use inputs::stencil;
use inputs::stencil::Counts;
use ranges::config;
use ranges::config::Settings;

// A bit of a byte, where it is set.
fn bit(set: bool, v: u8) -> u8
    ensures { (result ≡ (if set then v else 0)) × (result ≤ v) }
{
    if set { v } else { 0 }
}

// The byte of a cell, by its three facts.
fn byte(corner: bool, protected: bool, error: bool) -> u8
    ensures { result ≡ Stencil.stencil_byte corner protected error }
{
    bit(corner, stencil::CORNER) + bit(protected, stencil::PROTECTED) + bit(error, stencil::ERROR)
}

// The byte of a texel, where `corner` says whether a corner protects it.
fn byte_at(t: &Texel, mode: u8, s: Settings, corner: bool) -> u8
    ensures { result ≡ Inner.byte_by (read t.now.of) t.now.of.bitmap.width t.now.of.bitmap.height mode s corner t.now.x t.now.y }
{
    let edge = edges::is_at_edge(t, s);
    let protected = (mode == config::EDGE_ONLY) | (mode == config::EDGE_PRIORITY) & (corner | edge);
    let artifact = errors::has_artifact(t, s, protected);
    let error = !(mode == config::DISABLED) & artifact;
    byte(corner, protected, error)
}

// Clears the stencil and marks the corners: only EdgePriority has any.
fn mark(stencil: &mut [u8], b: Bitmap, mode: u8, outlines: &Outlines)
    requires { Celled b.width b.height stencil.old }
    ensures { stencil.new ≡ tab (length stencil.old) (λ k. (if nat_eq mode edge_priority && corners_protect (contours outlines.now.colours.now outlines.now.coords.now outlines.now.ends.now) (k % b.width) (k / b.width) then 4 else 0)) }
{
    stencil.fill(0);
    if mode == config::EDGE_PRIORITY {
        corners::mark_corners(stencil, b, outlines);
    }
}

// Works out the byte of every cell, one that a corner marked keeps its bit.
fn gather(stencil: &mut [u8], all: &Texels, mode: u8, s: Settings)
    requires { length stencil.old ≡ all.now.bitmap.height * all.now.bitmap.width }
    ensures { stencil.new ≡ tab (length stencil.old) (λ k. Inner.byte_by (read all.now) all.now.bitmap.width all.now.bitmap.height mode s (slice_index stencil.old k == 4) (k % all.now.bitmap.width) (k / all.now.bitmap.width)) }
{
    for (k, cell) in stencil.iter_mut().enumerate() {
        let corner = *cell == stencil::CORNER;
        let texel = Texel {
            of: *all,
            x: k % all.bitmap.width,
            y: k / all.bitmap.width,
        };
        *cell = byte_at(&texel, mode, s, corner);
    }
}

// How many cells have each bit.
fn count(stencil: &[u8]) -> Counts
    ensures { result ≡ Stencil.counts_of stencil.now }
{
    let mut protected = 0usize;
    let mut error = 0usize;
    let mut corner = 0usize;
    for v in stencil {
        corner += (*v / 4 % 2) as usize;
        protected += (*v / 2 % 2) as usize;
        error += (*v % 2) as usize;
    }
    Counts {
        protected,
        error,
        corner,
    }
}

// Everything after the checks.
fn correct(
    stencil: &mut [u8],
    xs: &mut [f32],
    room: &mut [f32],
    b: Bitmap,
    mode: u8,
    s: Settings,
    colours: &[u8],
    coords: &[f64],
    ends: &[usize],
)
    requires sized { Sized b.width b.height b.channels xs.old }
    requires stencil_len { length stencil.old ≡ b.height * b.width }
    requires outlined { Outlined colours.now coords.now ends.now }
    ensures leaves { stencil.new ≡ Pass.pass_stencil (input b.width b.height b.channels xs.old stencil.old room.old mode s colours.now coords.now ends.now) }
    ensures writes { xs.new ≡ Pass.pass_samples (input b.width b.height b.channels xs.old stencil.old room.old mode s colours.now coords.now ends.now) }
    ensures clears { room.new ≡ tab (length room.old) (λ k. zero_of binary32) }
{
    let outlines = Outlines {
        colours,
        coords,
        ends,
    };
    mark(stencil, b, mode, &outlines);
    let all = Texels {
        samples: xs,
        bitmap: b,
    };
    gather(stencil, &all, mode, s);
    collapse::collapse(stencil, xs, b.channels);
    room.fill(0.0);
}

// The error correction of a bitmap, in place.
pub fn plain_error_correction(
    width: usize,
    height: usize,
    channels: usize,
    samples: &mut [f32],
    stencil: &mut [u8],
    room: &mut [f32],
    mode: u8,
    settings: Settings,
    colours: &[u8],
    coords: &[f64],
    ends: &[usize],
) -> Result<Counts, Refusal>
    ensures answers { result ≡ plain_answer (input width height channels samples.old stencil.old room.old mode settings colours.now coords.now ends.now) }
    ensures leaves { stencil.new ≡ Pass.stencil_after (input width height channels samples.old stencil.old room.old mode settings colours.now coords.now ends.now) }
    ensures writes { samples.new ≡ Pass.samples_after (input width height channels samples.old stencil.old room.old mode settings colours.now coords.now ends.now) }
    ensures clears { room.new ≡ Pass.room_after (input width height channels samples.old stencil.old room.old mode settings colours.now coords.now ends.now) }
{
    let b = Bitmap {
        width,
        height,
        channels,
    };
    checks::check(
        b, samples, stencil, room, mode, settings, colours, coords, ends,
    )?;
    correct(
        stencil, samples, room, b, mode, settings, colours, coords, ends,
    );
    Ok(count(stencil))
}
