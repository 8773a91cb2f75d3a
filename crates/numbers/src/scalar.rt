// Minimum, maximum, median, size and mix: `math/scalar.rs`, with the rule for a NaN and for two zeros fixed.
ghost use Rattle.std.specs.Prelude.{◌≡◌, true, false, not, ◌||◌, T, pos, if◌then◌else◌, is_nan};
ghost use Rattle.std.specs.Float.{fin};
ghost use Rattle.std.specs.Float.Ieee.{eq};
ghost use Rattle.numbers.specs.Inner.{lesser_of, greater_of};
ghost use Rattle.numbers.specs.Scalar.{min_of, max_of, median_of, lowest_equal, middle_of, abs_of, mix_of};

use crate::rounding;

// The median of three channels: its value, and the lowest channel whose value compares equal to it.
#[derive(Clone, Copy)]
pub struct Middle {
    pub value: f32,
    pub channel: usize,
}

// The smaller of two: y where x is a NaN or y lies below it.
pub fn min(x: f32, y: f32) -> f32
    ensures { result ≡ min_of x y }
{
    if x.is_nan() || y < x {
        return y;
    }
    if y != x {
        return x;
    }
    if y.is_sign_negative() { y } else { x }
}

// The larger of two: y where x is a NaN or lies below it. It turns each test of `min` about, so one function would take all of them as arguments.
pub fn max(x: f32, y: f32) -> f32
    ensures { result ≡ max_of x y }
{
    if x.is_nan() || x < y {
        return y;
    }
    if y != x {
        return x;
    }
    if y.is_sign_negative() { x } else { y }
}

// The smaller of two by value alone, the first of two that are equal.
fn lesser(x: f32, y: f32) -> f32
    ensures { result ≡ lesser_of x y }
{
    if y < x { y } else { x }
}

// The larger of two by value alone, the first of two that are equal: one function for both would take the order as an argument.
fn greater(x: f32, y: f32) -> f32
    ensures { result ≡ greater_of x y }
{
    if x < y { y } else { x }
}

// The zero with a sign.
fn zero(minus: bool) -> f32
    ensures { result ≡ fin minus 0 (pos 0) }
{
    if minus { -0.0 } else { 0.0 }
}

// The median of three numbers where it is a zero: it has the sign that two of them have.
fn zero_median(a: f32, b: f32, c: f32) -> f32
    requires numbers { T (not (is_nan a)) × T (not (is_nan b)) × T (not (is_nan c)) }
    requires zero { T (eq (median_of a b c) (fin false 0 (pos 0))) }
    ensures { result ≡ median_of a b c }
{
    let minus = a.is_sign_negative();
    if minus == b.is_sign_negative() {
        return zero(minus);
    }
    zero(c.is_sign_negative())
}

// Whether one of three is a NaN.
fn some_nan(a: f32, b: f32, c: f32) -> bool
    ensures { result ≡ (is_nan a || is_nan b || is_nan c) }
{
    a.is_nan() || b.is_nan() || c.is_nan()
}

// The median of three of which one is a NaN.
fn nan_median(a: f32, b: f32, c: f32) -> f32
    requires { is_nan a || is_nan b || is_nan c ≡ true }
    ensures { result ≡ median_of a b c }
{
    if a.is_nan() {
        if b.is_nan() {
            return c;
        }
        return b;
    }
    if b.is_nan() {
        return a;
    }
    max(a, b)
}

// The value of the middle one of three: by value where none is a NaN, and only a zero's sign needs more.
pub fn median_value(a: f32, b: f32, c: f32) -> f32
    ensures { result ≡ median_of a b c }
{
    if some_nan(a, b, c) {
        return nan_median(a, b, c);
    }
    let m = greater(lesser(a, b), lesser(greater(a, b), c));
    if m == 0.0 { zero_median(a, b, c) } else { m }
}

// Channel i where its value x compares equal to m, and the rest where it does not.
fn equal_or(m: f32, x: f32, i: usize, rest: usize) -> usize
    ensures { result ≡ (if eq x m then i else rest) }
{
    if x == m { i } else { rest }
}

// The lowest of three channels whose value compares equal to m, and 0 where none does.
fn lowest_equal(m: f32, a: f32, b: f32, c: f32) -> usize
    ensures { result ≡ lowest_equal m a b c }
{
    equal_or(m, a, 0, equal_or(m, b, 1, equal_or(m, c, 2, 0)))
}

// The middle one of three, with its channel.
pub fn median(a: f32, b: f32, c: f32) -> Middle
    ensures { result ≡ middle_of a b c }
{
    let value = median_value(a, b, c);
    Middle {
        value,
        channel: lowest_equal(value, a, b, c),
    }
}

// |x|, from the bits: with the library's `abs`, which compares, the pass executes 1.3 in 100 more instructions.
pub fn abs32(x: f32) -> f32
    ensures { result ≡ abs_of x }
{
    if x.is_nan() {
        return x;
    }
    f32::from_bits(f32::to_bits(x) % 0x8000_0000)
}

// The same of an f64: C and docs/PROMISES.md name both.
pub fn abs64(x: f64) -> f64
    ensures { result ≡ abs_of x }
{
    if x.is_nan() {
        return x;
    }
    f64::from_bits(f64::to_bits(x) % 0x8000_0000_0000_0000)
}

// (1 - w) * a + w * b in f64, then narrowed.
pub fn mix(a: f32, b: f32, w: f64) -> f32
    ensures { result ≡ mix_of a b w }
{
    let p = std::num::f32_to_f64_with_nan(a);
    let q = std::num::f32_to_f64_with_nan(b);
    rounding::narrow((1.0 - w) * p + w * q)
}
