// The correction of signs, as `raster/rasterization.rs` has it: values on the wrong side of the outline are turned over to the other.
ghost use Rattle.std.specs.Prelude.{◌≡◌, ◌+◌, ◌*◌, ◌/◌, ◌%◌, ◌<◌, ◌≤◌, not, cond, ◌&&◌, T, eqb, pos, length, get_or};
ghost use Rattle.std.specs.Float.{nan};
ghost use Rattle.std.specs.Float.Ieee.{is_nan};
ghost use Rattle.numbers.specs.Scalar.{median_of};
ghost use Rattle.ground.specs.Lists.{tab};
ghost use Rattle.signs.specs.Flip as Flip;
ghost use Rattle.signs.specs.Checks as Checks;
ghost use Rattle.signs.specs.Checks.{input};
ghost use Rattle.signs.specs.Refusal.{number_in, place_in};
ghost use Rattle.signs.specs.Signs as Signs;
ghost use Rattle.signs.specs.Inner.{two_of, flipped_at, turns_at, Mapped, Numbers};

use crate::checks;
use crate::refusal::Refusal;
use inputs::sizes;
use inputs::sizes::Bitmap;

// The value turned over to the other side.
fn flip(zero: f32, v: f32) -> f32
    ensures { result ≡ Flip.flip_of zero v }
{
    zero + zero - v
}

// The value lies on the wrong side.
fn is_amiss(zero: f32, filled: bool, v: f32) -> bool
    ensures { result ≡ Flip.is_amiss zero filled v }
{
    (v > zero) != filled
}

// The value by its own comparison.
fn corrected(zero: f32, filled: bool, v: f32) -> f32
    ensures { result ≡ Flip.flipped_if zero (Flip.is_amiss zero filled v) v }
{
    if is_amiss(zero, filled, v) {
        flip(zero, v)
    } else {
        v
    }
}

// Channel C of every texel, of CH channels, by its own comparison.
fn correct_alone<const CH: usize, const C: usize>(xs: &mut [f32], zero: f32, filled: &[u8])
    requires { (length xs.old ≡ length filled.now * CH) × (C < CH) × (length xs.old ≤ 67108864) }
    ensures { xs.new ≡ Signs.flipped_where zero (λ j. eqb (j % CH) C && Flip.is_amiss zero (Signs.filled_at filled.now (j / CH)) (get_or xs.old j nan)) xs.old }
{
    for (k, byte) in filled.iter().enumerate() {
        let at = k * CH + C;
        xs[at] = corrected(zero, *byte == 1, xs[at]);
    }
}

// Two of three tests hold.
fn two_of(a: bool, b: bool, c: bool) -> bool
    ensures { result ≡ two_of a b c }
{
    (a & b) | ((a | b) & c)
}

// The match of three channels: their median lies where two of them lie. It is a number, since C is lent the map.
fn match_of(zero: f32, filled: bool, a: f32, b: f32, c: f32) -> i8
    requires { T (not (is_nan zero)) × T (not (is_nan a)) × T (not (is_nan b)) × T (not (is_nan c)) }
    ensures { result ≡ Signs.match_of zero filled (median_of a b c) }
{
    let above = two_of(a > zero, b > zero, c > zero);
    let below = two_of(a < zero, b < zero, c < zero);
    if above == below {
        return 0;
    }
    if above == filled { 1 } else { -1 }
}

// The match of every texel, of CH channels: a number that is known beforehand lets the loop take several texels at once.
fn write_matches<const CH: usize>(matches: &mut [i8], xs: &[f32], zero: f32, filled: &[u8])
    requires sizes { (length xs.now ≡ length filled.now * CH) × (3 ≤ CH) × (length xs.now ≤ 67108864) × (length matches.old ≡ length filled.now) }
    requires numbers { T (not (is_nan zero)) × Numbers xs.now }
    ensures { matches.new ≡ tab (length filled.now) (Signs.match_at xs.now CH zero filled.now) }
{
    for (k, m) in matches.iter_mut().enumerate() {
        let at = k * CH;
        *m = match_of(zero, filled[k] == 1, xs[at], xs[at + 1], xs[at + 2]);
    }
}

// The same of three or four channels.
fn match_texels(matches: &mut [i8], xs: &[f32], ch: usize, zero: f32, filled: &[u8])
    requires sizes { (length xs.now ≡ length filled.now * ch) × (3 ≤ ch) × (ch ≤ 4) × (length xs.now ≤ 67108864) × (length matches.old ≡ length filled.now) }
    requires numbers { T (not (is_nan zero)) × Numbers xs.now }
    ensures { matches.new ≡ tab (length filled.now) (Signs.match_at xs.now ch zero filled.now) }
{
    if ch == 3 {
        write_matches::<3>(matches, xs, zero, filled);
    } else {
        write_matches::<4>(matches, xs, zero, filled);
    }
}

// Zero for every texel.
fn clear_matches(matches: &mut [i8])
    ensures { matches.new ≡ tab (length matches.old) (λ k. pos 0) }
{
    matches.fill(0);
}

// The match at column nx and row ny, counted from 1, and 0 where they are not inside.
fn match_near(ms: &[i8], b: Bitmap, nx: usize, ny: usize) -> i32
    requires { Mapped b.width b.height ms.now }
    ensures { result ≡ Signs.match_near b.width b.height ms.now nx ny }
{
    if sizes::in_bounds(b.width, b.height, nx, ny) {
        let m = ms[(ny - 1) * b.width + (nx - 1)];
        return m as i32;
    }
    0
}

// The sum of the four matches around texel x, y.
fn vote(ms: &[i8], b: Bitmap, x: usize, y: usize) -> i32
    requires mapped { Mapped b.width b.height ms.now }
    requires inside { (x < b.width) × (y < b.height) }
    ensures { result ≡ Signs.vote b.width b.height ms.now x y }
{
    let left = match_near(ms, b, x, y + 1);
    let right = match_near(ms, b, x + 2, y + 1);
    let below = match_near(ms, b, x + 1, y);
    let above = match_near(ms, b, x + 1, y + 2);
    left + right + below + above
}

// Whether the first three channels of texel x, y, whose number is k, are flipped.
fn turns(ms: &[i8], b: Bitmap, k: usize, x: usize, y: usize) -> bool
    requires mapped { Mapped b.width b.height ms.now }
    requires placed { (k ≡ y * b.width + x) × (x < b.width) × (y < b.height) }
    ensures { result ≡ Signs.turns b.width b.height ms.now x y }
{
    let m = ms[k];
    if m == 0 {
        let v = vote(ms, b, x, y);
        return v < 0;
    }
    m < 0
}

// Flips the three samples from a place on.
fn flip_three(xs: &mut [f32], at: usize, zero: f32)
    requires { at + 2 < length xs.old }
    ensures { xs.new ≡ flipped_at zero xs.old at }
{
    let a = xs[at];
    let b = xs[at + 1];
    let c = xs[at + 2];
    xs[at] = flip(zero, a);
    xs[at + 1] = flip(zero, b);
    xs[at + 2] = flip(zero, c);
}

// The same where a texel turns.
fn flip_texel(xs: &mut [f32], at: usize, zero: f32, turn: bool)
    requires { at + 2 < length xs.old }
    ensures { xs.new ≡ cond turn (flipped_at zero xs.old at) xs.old }
{
    if turn {
        flip_three(xs, at, zero);
    }
}

// Flips the first three channels of every texel that turns.
fn flip_texels(xs: &mut [f32], ms: &[i8], b: Bitmap, zero: f32)
    requires mapped { Mapped b.width b.height ms.now }
    requires sizes { (3 ≤ b.channels) × (b.channels ≤ 4) × (length xs.old ≡ length ms.now * b.channels) }
    ensures { xs.new ≡ Signs.flipped_where zero (turns_at b.width b.height b.channels ms.now) xs.old }
{
    for y in 0..b.height {
        for x in 0..b.width {
            let k = y * b.width + x;
            let turn = turns(ms, b, k, x, y);
            flip_texel(xs, k * b.channels, zero, turn);
        }
    }
}

// What has passed the checks.
fn correct(b: Bitmap, xs: &mut [f32], zero: f32, filled: &[u8], matches: &mut [i8])
    requires { Checks.refusal_number (input b.width b.height b.channels xs.old zero filled.now matches.old) ≡ 0 }
    ensures writes { xs.new ≡ Signs.flipped_where zero (Signs.flips b.width b.height b.channels xs.old zero filled.now) xs.old }
    ensures leaves { matches.new ≡ Signs.match_map xs.old b.channels zero filled.now }
{
    if b.channels == 1 {
        clear_matches(matches);
        correct_alone::<1, 0>(xs, zero, filled);
        return;
    }
    match_texels(matches, xs, b.channels, zero, filled);
    flip_texels(xs, matches, b, zero);
    if b.channels == 4 {
        correct_alone::<4, 3>(xs, zero, filled);
    }
}

// The correction of the signs of a bitmap's values, in place, or the first check that fails.
pub fn distance_sign_correction(
    width: usize,
    height: usize,
    channels: usize,
    samples: &mut [f32],
    zero: f32,
    filled: &[u8],
    matches: &mut [i8],
) -> Result<(), Refusal>
    ensures numbers { number_in result ≡ Checks.refusal_number (input width height channels samples.old zero filled.now matches.old) }
    ensures places { place_in result ≡ Checks.refusal_place (input width height channels samples.old zero filled.now matches.old) }
    ensures writes { samples.new ≡ Signs.samples_after (input width height channels samples.old zero filled.now matches.old) }
    ensures leaves { matches.new ≡ Signs.matches_after (input width height channels samples.old zero filled.now matches.old) }
{
    let b = Bitmap {
        width,
        height,
        channels,
    };
    checks::check(b, samples, zero, filled, matches)?;
    correct(b, samples, zero, filled, matches);
    Ok(())
}
