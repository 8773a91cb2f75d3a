// Samples to bytes and bytes to samples.
ghost use Rattle.std.specs.Prelude.{◌≡◌, not, T, length};
ghost use Rattle.std.specs.Float.Ieee.{is_nan};
ghost use Rattle.pixels.specs.Byte.{byte_of, sample_of};
ghost use Rattle.pixels.specs.Checks as Checks;
ghost use Rattle.pixels.specs.Bytes as Bytes;
ghost use Rattle.pixels.specs.Refusal.{number_in, place_in};
ghost use Rattle.pixels.specs.Inner.{hold_of};

use crate::refusal::Refusal;
use inputs::checks;

// The value held to 0..1.
fn hold(v: f32) -> f32
    ensures { result ≡ hold_of v }
{
    let low = if v > 0.0 { v } else { 0.0 };
    if low < 1.0 { low } else { 1.0 }
}

// The byte of a value. 255 times it is exact in f64. The last digit of 2^52 counts ones, so the sum with it is the one rounding: to the nearest whole number, at a
// tie to the even one, which the sum's last digits are.
fn float_to_byte(v: f32) -> u8
    requires { T (not (is_nan v)) }
    ensures { result ≡ byte_of v }
{
    let sum = (hold(v) as f64) * 255.0 + 4503599627370496.0;
    (f64::to_bits(sum) % 256) as u8
}

// The value of a byte: one division, rounded once.
fn byte_to_float(k: u8) -> f32
    ensures { result ≡ sample_of k }
{
    (k as f32) / 255.0
}

// The first of checks 40 and 6 that fails.
fn check(samples: &[f32], n: usize) -> Result<(), Refusal>
    ensures numbers { number_in result ≡ Checks.refusal_number samples.now n }
    ensures places { place_in result ≡ Checks.refusal_place samples.now n }
{
    if n != samples.len() {
        return Err(Refusal::Length);
    }
    match checks::first_bad_sample(samples) {
        Some(p) => Err(Refusal::Sample(p)),
        None => Ok(()),
    }
}

// The byte of each sample, of samples that have passed the checks.
fn write_bytes(samples: &[f32], bytes: &mut [u8])
    requires { Checks.refusal_number samples.now (length bytes.old) ≡ 0 }
    ensures { bytes.new ≡ Bytes.bytes_of samples.now }
{
    for (i, byte) in bytes.iter_mut().enumerate() {
        *byte = float_to_byte(samples[i]);
    }
}

// The sample of each byte.
fn write_samples(bytes: &[u8], samples: &mut [f32])
    requires { length samples.old ≡ length bytes.now }
    ensures { samples.new ≡ Bytes.samples_of bytes.now }
{
    for (i, sample) in samples.iter_mut().enumerate() {
        *sample = byte_to_float(bytes[i]);
    }
}

// Each sample as the byte nearest to 255 times its value, held to 0..1 and at a tie the even one, or the first check that fails.
pub fn samples_to_bytes(samples: &[f32], bytes: &mut [u8]) -> Result<(), Refusal>
    ensures numbers { number_in result ≡ Checks.refusal_number samples.now (length bytes.old) }
    ensures places { place_in result ≡ Checks.refusal_place samples.now (length bytes.old) }
    ensures writes { bytes.new ≡ Bytes.bytes_after samples.now bytes.old }
{
    check(samples, bytes.len())?;
    write_bytes(samples, bytes);
    Ok(())
}

// Each byte k as the sample nearest to k / 255, or the check that fails, which has no place.
pub fn bytes_to_samples(bytes: &[u8], samples: &mut [f32]) -> Result<(), Refusal>
    ensures numbers { number_in result ≡ Checks.length_refusal (length bytes.now) (length samples.old) }
    ensures places { place_in result ≡ 0 }
    ensures writes { samples.new ≡ Bytes.samples_after bytes.now samples.old }
{
    if samples.len() != bytes.len() {
        return Err(Refusal::Length);
    }
    write_samples(bytes, samples);
    Ok(())
}
