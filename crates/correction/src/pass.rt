// The pass: the checks, then the engine.
ghost use Rattle.std.specs.Prelude.{◌≡◌, ◌+◌, ◌^◌, ◌<◌};
ghost use Rattle.inputs.specs.Checks.{input};
ghost use Rattle.correction.specs.Pass as Pass;
ghost use Rattle.correction.specs.Cells.{plus};

use crate::{bitmap, engine, window};
use inputs::outline::Outline;
use inputs::refusal::Refusal;
use inputs::sizes::Bitmap;
use inputs::stencil::Counts;
use inputs::{checks, room, stencil};
use ranges::config::Settings;

// What an accepted pass answers: how many cells have each bit, and how many range tests it made.
#[derive(Clone, Copy, Debug, PartialEq, Eq)]
pub struct Corrected {
    pub counts: Counts,
    pub tests: usize,
}

impl Corrected {
    // With what another cell of a sheet adds.
    pub(crate) fn plus(self, n: Corrected) -> Corrected
        requires counts { (self.counts.protected + n.counts.protected < 2 ^ 64) × (self.counts.error + n.counts.error < 2 ^ 64) × (self.counts.corner + n.counts.corner < 2 ^ 64) }
        requires tests { self.tests + n.tests < 2 ^ 64 }
        ensures { result ≡ plus self n }
    {
        Corrected {
            counts: window::together(self.counts, n.counts),
            tests: self.tests + n.tests,
        }
    }
}

// The error correction of a bitmap, in place.
pub fn msdf_error_correction(
    width: usize,
    height: usize,
    channels: usize,
    samples: &mut [f32],
    stencil: &mut [u8],
    room: &mut [f32],
    mode: u8,
    settings: Settings,
    colours: &[u8],
    coords: &[f64],
    ends: &[usize],
) -> Result<Corrected, Refusal>
    ensures answers { Pass.Answers (input width height channels samples.old stencil.old room.old mode settings colours.now coords.now ends.now) result }
    ensures leaves { stencil.new ≡ Pass.stencil_after (input width height channels samples.old stencil.old room.old mode settings colours.now coords.now ends.now) }
    ensures writes { samples.new ≡ Pass.samples_after (input width height channels samples.old stencil.old room.old mode settings colours.now coords.now ends.now) }
    ensures clears { room.new ≡ Pass.room_after (input width height channels samples.old stencil.old room.old mode settings colours.now coords.now ends.now) }
{
    let b = Bitmap {
        width,
        height,
        channels,
    };
    checks::check_size(b, samples.len(), stencil.len())?;
    checks::check_room(width, room.len())?;
    let g = bitmap::whole(b);
    let outline = Outline {
        colours,
        coords,
        ends,
    };
    let (mode, contours) = window::check(samples, g, mode, &settings, &outline)?;
    stencil::fill(stencil, 0);
    let tests = engine::correct(stencil, samples, room, g, mode, &settings, &contours);
    room::clear(room);
    Ok(Corrected {
        counts: stencil::count_cells(stencil),
        tests,
    })
}
