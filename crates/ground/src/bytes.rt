// Big-endian numbers and floats in a slice of bytes; beyond its end every byte is 0.
ghost use Rattle.std.specs.Prelude.{◌≡◌, ℕ, ◌+◌, ◌<◌, get_or};
ghost use Rattle.std.specs.Float.{binary32, binary64};
ghost use Rattle.std.specs.Float.Ieee.{of_bits, to_bits};
ghost use Rattle.ground.specs.Bytes as Bytes;

use std::array;

// The byte k places behind a place.
pub fn byte_from(s: &[u8], at: usize, k: usize) -> u8
    ensures { result ≡ get_or s.now (at + k) 0 }
{
    at.checked_add(k)
        .and_then(|i| s.get(i))
        .copied()
        .unwrap_or(0)
}

// The N bytes from a place on: taken at once where they all stand there, and one by one at the slice's end.
fn bytes_at<const N: usize>(s: &[u8], at: usize) -> [u8; N]
    ensures { (k : ℕ) → k < N → get_or result k 0 ≡ get_or s.now (at + k) 0 }
{
    if at < s.len() {
        if let Some(all) = s[at..].first_chunk() {
            return *all;
        }
    }
    array::from_fn(|k| byte_from(s, at, k))
}

// The number of two bytes. There is one function for each width: `from_be_bytes` is no trait's, and one with three impls would be longer.
pub fn be16(s: &[u8], at: usize) -> usize
    ensures { (result ≡ Bytes.be16 s.now at) × (result < 65536) }
{
    usize::from(u16::from_be_bytes(bytes_at(s, at)))
}

// Of four.
pub fn be32(s: &[u8], at: usize) -> u32
    ensures { result ≡ Bytes.be32 s.now at }
{
    u32::from_be_bytes(bytes_at(s, at))
}

// Of eight.
pub fn be64(s: &[u8], at: usize) -> u64
    ensures { result ≡ Bytes.be64 s.now at }
{
    u64::from_be_bytes(bytes_at(s, at))
}

// The float of any bit pattern: a NaN's gives NaN.
pub fn float_of_bits32(n: u32) -> f32
    ensures { result ≡ of_bits binary32 n }
{
    if n % 2147483648 > 2139095040 {
        return 0.0 / 0.0;
    }
    f32::from_bits(n)
}

// The same of 64 bits: docs/PROMISES.md names both, and a trait for the two types would be longer than they are.
pub fn float_of_bits64(n: u64) -> f64
    ensures { result ≡ of_bits binary64 n }
{
    if n % 9223372036854775808 > 9218868437227405312 {
        return 0.0 / 0.0;
    }
    f64::from_bits(n)
}

// The bit pattern of a float, 7FC00000 for NaN.
pub fn bits_of_float32(x: f32) -> u32
    ensures { result ≡ to_bits binary32 x }
{
    if x.is_nan() { 2143289344 } else { x.to_bits() }
}

// The floats of four bytes and of eight: docs/PROMISES.md names both.
pub fn f32_at(s: &[u8], at: usize) -> f32
    ensures { result ≡ Bytes.f32_at s.now at }
{
    float_of_bits32(be32(s, at))
}

pub fn f64_at(s: &[u8], at: usize) -> f64
    ensures { result ≡ Bytes.f64_at s.now at }
{
    float_of_bits64(be64(s, at))
}
