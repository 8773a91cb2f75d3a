// The checks, each as docs/RULES.md has it: 1 to 3 and 6 of the pass, with one channel allowed, then 10 to 12.
ghost use Rattle.std.specs.Prelude.{◌≡◌};
ghost use Rattle.signs.specs.Checks as Checks;
ghost use Rattle.signs.specs.Checks.{input};
ghost use Rattle.signs.specs.Refusal.{number_in, place_in};

use crate::refusal::Refusal;
use inputs::checks;
use inputs::sizes::Bitmap;

// Check 1.
fn bad_channels(ch: usize) -> bool
    ensures { result ≡ Checks.bad_channels ch }
{
    ch != 1 && checks::bad_channels(ch)
}

// The first of checks 1 to 3 that fails, of a bitmap with n samples.
fn check_size(b: Bitmap, n: usize) -> Result<(), Refusal>
    ensures numbers { number_in result ≡ Checks.size_refusal b.width b.height b.channels n }
    ensures places { place_in result ≡ 0 }
{
    if bad_channels(b.channels) {
        return Err(Refusal::Channels);
    }
    if checks::bad_size(b) {
        return Err(Refusal::Size);
    }
    if n != b.width * b.height * b.channels {
        return Err(Refusal::SampleCount);
    }
    Ok(())
}

// Some byte of the filled map is above 1. All are looked at, and no test waits for another.
fn some_above(filled: &[u8]) -> bool
    ensures { result ≡ Checks.some_above filled.now }
{
    let mut bad = false;
    for byte in filled {
        bad |= *byte > 1;
    }
    bad
}

// Check 11, of n texels.
fn bad_filled(filled: &[u8], n: usize) -> bool
    ensures { result ≡ Checks.bad_filled n filled.now }
{
    filled.len() != n || some_above(filled)
}

// The first of all checks that fails.
pub fn check(
    b: Bitmap,
    samples: &[f32],
    zero: f32,
    filled: &[u8],
    matches: &[i8],
) -> Result<(), Refusal>
    ensures numbers { number_in result ≡ Checks.refusal_number (input b.width b.height b.channels samples.now zero filled.now matches.now) }
    ensures places { place_in result ≡ Checks.refusal_place (input b.width b.height b.channels samples.now zero filled.now matches.now) }
{
    check_size(b, samples.len())?;
    if let Some(p) = checks::first_bad_sample(samples) {
        return Err(Refusal::Sample(p));
    }
    if checks::bad_sample(zero) {
        return Err(Refusal::Zero);
    }
    let area = b.width * b.height;
    if bad_filled(filled, area) {
        return Err(Refusal::Filled);
    }
    if matches.len() != area {
        return Err(Refusal::Matches);
    }
    Ok(())
}
