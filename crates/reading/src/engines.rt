// The two engines, the pass and the plain one, and what they answer in one form.
ghost use Rattle.std.specs.Prelude.{◌≡◌, Bool, true, false};
ghost use Rattle.inputs.specs.Checks.{input};
ghost use Rattle.correction.specs.Pass as Pass;
ghost use Rattle.reading.specs.Inner as Inner;

use correction::pass;
use correction::pass::Corrected;
use inputs::refusal::Refusal;
use inputs::sizes::Bitmap;
use inputs::stencil::Counts;
use plain::pass as plain_pass;
use ranges::config::Settings;

// What either engine counts: the cells with each bit, and the range tests where it counts them.
#[derive(Clone, Copy)]
pub struct Judged {
    pub counts: Counts,
    pub tests: Option<usize>,
}

// The pass counts its tests.
impl From<Corrected> for Judged {
    ghost from_gives = { λ c r. r ≡ Inner.with_tests c };

    fn from(c: Corrected) -> Judged {
        Judged {
            counts: c.counts,
            tests: Some(c.tests),
        }
    }
}

// The plain engine does not.
impl From<Counts> for Judged {
    ghost from_gives = { λ c r. r ≡ Inner.without_tests c };

    fn from(c: Counts) -> Judged {
        Judged {
            counts: c,
            tests: None,
        }
    }
}

// An engine: it does the pass on a case, in place.
pub trait Engine {
    // Whether it is the plain one.
    ghost plainly: { Bool };

    fn judge(
        b: Bitmap,
        samples: &mut [f32],
        stencil: &mut [u8],
        room: &mut [f32],
        mode: u8,
        s: Settings,
        colours: &[u8],
        coords: &[f64],
        ends: &[usize],
    ) -> Result<Judged, Refusal>
        ensures answers { result ≡ Inner.judged plainly (input b.width b.height b.channels samples.old stencil.old room.old mode s colours.now coords.now ends.now) }
        ensures leaves { stencil.new ≡ Pass.stencil_after (input b.width b.height b.channels samples.old stencil.old room.old mode s colours.now coords.now ends.now) };
}

// The first engine, the pass.
pub struct First;

impl Engine for First {
    ghost plainly = { false };

    fn judge(
        b: Bitmap,
        samples: &mut [f32],
        stencil: &mut [u8],
        room: &mut [f32],
        mode: u8,
        s: Settings,
        colours: &[u8],
        coords: &[f64],
        ends: &[usize],
    ) -> Result<Judged, Refusal> {
        Ok(Judged::from(pass::msdf_error_correction(
            b.width, b.height, b.channels, samples, stencil, room, mode, s, colours, coords, ends,
        )?))
    }
}

// The plain engine.
pub struct Plain;

impl Engine for Plain {
    ghost plainly = { true };

    fn judge(
        b: Bitmap,
        samples: &mut [f32],
        stencil: &mut [u8],
        room: &mut [f32],
        mode: u8,
        s: Settings,
        colours: &[u8],
        coords: &[f64],
        ends: &[usize],
    ) -> Result<Judged, Refusal> {
        Ok(Judged::from(plain_pass::plain_error_correction(
            b.width, b.height, b.channels, samples, stencil, room, mode, s, colours, coords, ends,
        )?))
    }
}
