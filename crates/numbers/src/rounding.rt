// From f64 to f32, and from f64 to a whole number, by the bits.
ghost use Rattle.std.specs.Prelude.{◌≡◌, ◌<◌};
ghost use Rattle.numbers.specs.Rounding.{narrow_of, floor_of};
ghost use Rattle.numbers.specs.Inner.{scaled};

// The f32 nearest to x, at a tie the one whose last digit is even.
pub fn narrow(x: f64) -> f32
    ensures { result ≡ narrow_of x }
{
    if x.is_nan() {
        return 0.0f32 / 0.0f32;
    }
    let bits: u64 = f64::to_bits(x);
    let sign: u32 = ((bits / 0x8000_0000_0000_0000) as u32) * 0x8000_0000;
    let b: u64 = bits % 0x8000_0000_0000_0000;
    // below 2^-126: the sum with 2^-97 rounds |x| to a multiple of 2^-149, which its last digits count
    if b < 0x3810_0000_0000_0000 {
        let y: f64 = f64::from_bits(b) + f64::from_bits(0x39e0_0000_0000_0000);
        let q: u64 = f64::to_bits(y) - 0x39e0_0000_0000_0000;
        return f32::from_bits(sign + (q as u32));
    }
    // below 2^128: the exponent and the digits are one number, which a carry leaves right
    if b < 0x47f0_0000_0000_0000 {
        let q: u64 = (b + 0x0fff_ffff + b / 0x2000_0000 % 2) / 0x2000_0000 - 0x1_c000_0000;
        return f32::from_bits(sign + (q as u32));
    }
    f32::from_bits(sign + 0x7f80_0000)
}

// The whole part of m * 2^e / 2^1075.
fn scale(m: u64, e: u64) -> u64
    requires { (m < 0x20_0000_0000_0000) × (e < 1086) }
    ensures { result ≡ scaled m e }
{
    if e < 1023 {
        return 0;
    }
    if e < 1075 {
        return m >> (1075 - e);
    }
    m << (e - 1075)
}

// The largest whole number that is at most x, or the end of the range that is nearest to it; 0 for a NaN.
pub fn floor_to_i64(x: f64) -> i64
    ensures { result ≡ floor_of x }
{
    if x.is_nan() {
        return 0;
    }
    let bits = f64::to_bits(x);
    let b = bits % 0x8000_0000_0000_0000;
    let e = b / 0x10_0000_0000_0000;
    // |x| is m * 2^e / 2^1075; where e is 0 it is less, and both are cut to 0
    let m = 0x10_0000_0000_0000 + b % 0x10_0000_0000_0000;
    if bits < 0x8000_0000_0000_0000 {
        if e < 1086 {
            return scale(m, e) as i64;
        }
        return 0x7fff_ffff_ffff_ffff;
    }
    if b == 0 {
        return 0;
    }
    // -m / d rounded down is -1 - (m - 1) / d
    if e < 1075 {
        return -1 - (scale(m - 1, e) as i64);
    }
    if e < 1086 {
        return 0 - (scale(m, e) as i64);
    }
    -1 - 0x7fff_ffff_ffff_ffff
}
