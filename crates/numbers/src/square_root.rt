// The square root of an f64: a guess at the first half of its digits that is tested, then one step of one division that doubles them and rounds.
// `normal_root` has no case for what is not positive, normal and finite; `sqrt` is those cases around it.
ghost use Rattle.std.specs.Prelude.{◌≡◌, ◌+◌, ◌*◌, ◌<◌, ◌≤◌};
ghost use Rattle.numbers.specs.SquareRoot.{sqrt_of, normal_root};
ghost use Rattle.numbers.specs.Inner.{IsRoot, nearest_root, newton_step};

// A whole number's root s, cut to a whole number, and what is left, r.
#[derive(Clone, Copy)]
struct Root {
    s: u64,
    r: u64,
}

// From the root of h.s * h.s + h.r to that of the number with one more digit to the base 4, a.
fn one_digit(h: Root, a: u64) -> Root
    requires { (h.s < 67108864) × (h.r ≤ 2 * h.s) × (a < 4) }
    ensures { IsRoot ((h.s * h.s + h.r) * 4 + a) result.s result.r }
{
    let t = h.r * 4 + a;
    let q = h.s * 4 + 1;
    if q <= t {
        Root {
            s: 2 * h.s + 1,
            r: t - q,
        }
    } else {
        Root { s: 2 * h.s, r: t }
    }
}

// The root of a number of up to 54 digits, digit by digit.
fn by_digits(n: u64) -> Root
    requires { n < 18014398509481984 }
    ensures { IsRoot n result.s result.r }
{
    let mut h = Root { s: 0, r: 0 };
    for k in (0..27u64).rev() {
        h = one_digit(h, (n >> (2 * k)) % 4);
    }
    h
}

// One step of Newton's method towards 1 over the root of v, where h is v / 2 and c is 1.5: y * (c - h * y * y), with what can be worked out at once side by side.
fn newton(y: f64, h: f64, c: f64) -> f64
    ensures { result ≡ newton_step y h c }
{
    c * y - h * y * (y * y)
}

// A guess at the first 27 digits of the root of the value with the pattern x, from 1/2 to 2. It is by floats, right but for one in ten thousand, and whoever
// takes it tests it.
fn guess(x: u64) -> u64
    requires { (4602678819172646912 ≤ x) × (x < 4611686018427387904) }
    ensures { result < 134217728 }
{
    let v = f64::from_bits(x);
    let h = v * 0.5;
    // half the exponent for a start, and factors by which the first step errs least
    let y = newton(
        f64::from_bits(0x5fe4_0400_0000_0000 - x / 2),
        v * 0.70255,
        1.6808,
    );
    // the last step, times v, is towards the root itself; its factor is a little above 1.5, so that a root of few digits is not missed from below
    let z = newton(newton(y, h, 1.5), v * h, v * 1.5000000000009095);
    (4503599627370496 + f64::to_bits(z) % 4503599627370496) / 67108864
}

// The root of a number n of 53 or 54 digits, for which x is the pattern with the same digits of a value from 1/2 to 2: the guess where it is right, and
// otherwise digit by digit.
fn root54(n: u64, x: u64) -> Root
    requires le_n { (4503599627370496 ≤ n) × (n < 18014398509481984) }
    requires le_x { (4602678819172646912 ≤ x) × (x < 4611686018427387904) }
    ensures { IsRoot n result.s result.r }
{
    let s = guess(x);
    let p = s * s;
    if p <= n {
        let r = n - p;
        if r <= 2 * s {
            return Root { s, r };
        }
    }
    by_digits(n)
}

// The whole number nearest to the root of n * 2^52, from that of n = h.s * h.s + h.r: the last step, which rounds at once.
fn nearest106(h: Root) -> u64
    requires { (67108864 ≤ h.s) × (h.s < 134217728) × (h.r ≤ 2 * h.s) }
    ensures { (result ≡ nearest_root ((h.s * h.s + h.r) * 4503599627370496)) × (result < 18014398509481984) }
{
    let d = 2 * h.s;
    let t = h.r * 67108864;
    let q = t / d;
    let s = h.s * 67108864 + q;
    if s + q * q < t % d * 67108864 {
        s + 1
    } else {
        s
    }
}

// The square root of the normal number that the fields of the pattern b stand for, whatever the pattern: no case is left.
pub fn normal_root(b: u64) -> f64
    ensures { result ≡ normal_root b }
{
    let e = b / 4503599627370496 % 2048;
    let n = (4503599627370496 + b % 4503599627370496) * (2 - e % 2);
    let x = 4602678819172646912 + b % 9007199254740992;
    f64::from_bits((e + 1021) / 2 * 4503599627370496 + nearest106(root54(n, x)))
}

// IEEE 754's squareRoot, of every f64.
pub fn sqrt(x: f64) -> f64
    ensures { result ≡ sqrt_of x }
{
    if x > 0.0 {
        let b = f64::to_bits(x);
        if b < 4503599627370496 {
            // 2^54 times as large it is normal, and its root 2^27 times as large
            let y = x * 18014398509481984.0;
            return normal_root(f64::to_bits(y)) * 7.450580596923828125e-9;
        }
        if b < 9218868437227405312 {
            return normal_root(b);
        }
        return x;
    }
    if x == 0.0 {
        return x;
    }
    0.0 / 0.0
}
