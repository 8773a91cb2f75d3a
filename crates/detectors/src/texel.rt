// A texel: its first three channels, their median, and which texel of two is tested.
ghost use Rattle.std.specs.Prelude.{◌≡◌};
ghost use Rattle.detectors.specs.Pairs as Pairs;
ghost use Rattle.detectors.specs.Texel as Texel;

use numbers::scalar;
use numbers::scalar::Middle;
use ranges::constants;

// The median of a texel's three channels: its value and the lowest channel whose value compares equal to it.
pub fn median(a: [f32; 3]) -> Middle
    ensures { result ≡ Texel.texel_middle a }
{
    scalar::median(a[0], a[1], a[2])
}

// Of two texels with the medians am and bm the first is tested against the other: it is not the nearer one to the outline.
pub fn guard(am: f32, bm: f32) -> bool
    ensures { result ≡ Pairs.guard am bm }
{
    scalar::abs32(am - constants::HALF) >= scalar::abs32(bm - constants::HALF)
}
