// The outlines: as they are handed over, and as the checks let them through.
ghost use Rattle.std.specs.Prelude.{◌≡◌, IfOk};
ghost use Rattle.inputs.specs.Checks as Checks;
ghost use Rattle.inputs.specs.Inner.{Outlined};
ghost use Rattle.inputs.specs.Refusal.{content_number_in, content_place_in};

use crate::checks;
use crate::refusal::ContentRefusal;

// The segments' colours, two coordinates of each, and of each contour the segment at which it ends.
#[derive(Clone, Copy)]
pub struct Outline<'a> {
    pub colours: &'a [u8],
    pub coords: &'a [f64],
    pub ends: &'a [usize],
}

// An outline that the checks let through: its contours lie in its segments, one behind the other.
#[derive(Clone, Copy)]
pub struct Contours<'a> {
    pub outline: Outline<'a>,
    pub ghost outlined: { Outlined outline.colours.now outline.coords.now outline.ends.now },
}

impl<'a> Outline<'a> {
    // Its contours, or the first of checks 7 to 9 that fails.
    pub fn check(self) -> Result<Contours<'a>, ContentRefusal>
        ensures numbers { content_number_in result ≡ Checks.outline_refusal self.entry.colours.now self.entry.coords.now self.entry.ends.now }
        ensures places { content_place_in result ≡ Checks.outline_place self.entry.colours.now self.entry.coords.now self.entry.ends.now (content_number_in result) }
        ensures same { IfOk result (λ c. c.outline ≡ self.entry) }
    {
        checks::check_outline(self.colours, self.coords, self.ends)?;
        Ok(Contours { outline: self })
    }
}
