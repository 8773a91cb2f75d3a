// The checks, each as docs/RULES.md has it: a test that tells whether one fails, and what refuses where it does, with its place.
ghost use Rattle.std.specs.Prelude.{◌≡◌, ◌*◌, ◌≤◌, true, cond, ◌||◌, ltb, length, IfOk};
ghost use Rattle.std.specs.Float.{binary32, binary64};
ghost use Rattle.ranges.specs.Config.{mode_number};
ghost use Rattle.inputs.specs.Checks as Checks;
ghost use Rattle.inputs.specs.Refusal.{number_in, place_in, content_number_in, content_place_in};

use crate::refusal::{ContentRefusal, Refusal};
use crate::sizes::Bitmap;
use ranges::config::{Mode, Settings};
use ranges::constants;

// Check 1: channels not 3 or 4.
pub fn bad_channels(ch: usize) -> bool
    ensures { result ≡ Checks.bad_channels ch }
{
    ch != 3 && ch != 4
}

// A side outside 1..4,096.
fn bad_side(n: usize) -> bool
    ensures { result ≡ Checks.bad_side n }
{
    n < 1 || n > 4096
}

// Check 2: either side.
pub fn bad_size(b: Bitmap) -> bool
    ensures { result ≡ Checks.bad_size b.width b.height }
{
    bad_side(b.width) || bad_side(b.height)
}

// Check 3, of n samples; the bounds are for the product to fit.
fn bad_sample_count(b: Bitmap, n: usize) -> bool
    requires { (b.width ≤ 4096) × (b.height ≤ 4096) × (b.channels ≤ 4) }
    ensures { result ≡ Checks.bad_sample_count b.width b.height b.channels n }
{
    n != b.width * b.height * b.channels
}

// Check 4, of m cells.
fn bad_cell_count(b: Bitmap, m: usize) -> bool
    requires { (b.width ≤ 4096) × (b.height ≤ 4096) }
    ensures { result ≡ Checks.bad_cell_count b.width b.height m }
{
    m != b.width * b.height
}

// The first of checks 1 to 4 that fails, of a bitmap with n samples and m cells.
pub fn check_size(b: Bitmap, n: usize, m: usize) -> Result<(), Refusal>
    ensures numbers { number_in result ≡ Checks.size_refusal b.width b.height b.channels n m }
    ensures places { place_in result ≡ 0 }
{
    if bad_channels(b.channels) {
        return Err(Refusal::Channels);
    }
    if bad_size(b) {
        return Err(Refusal::Size);
    }
    if bad_sample_count(b, n) {
        return Err(Refusal::SampleCount);
    }
    if bad_cell_count(b, m) {
        return Err(Refusal::CellCount);
    }
    Ok(())
}

// Check 60, of n elements for two rows of w.
pub fn bad_room(w: usize, n: usize) -> bool
    ensures { result ≡ Checks.bad_room w n }
{
    n / 2 < w
}

// The same, refused where it fails.
pub fn check_room(w: usize, n: usize) -> Result<(), Refusal>
    ensures numbers { number_in result ≡ cond (Checks.bad_room w n) 60 0 }
    ensures places { place_in result ≡ 0 }
{
    if bad_room(w, n) {
        return Err(Refusal::Room);
    }
    Ok(())
}

// A ratio or a length that is NaN, below 0 or above the limit.
fn bad_length(v: f64) -> bool
    ensures { result ≡ Checks.bad_length v }
{
    !(v >= 0.0 && v <= constants::LIMIT_WIDE)
}

// Check 5, at the first that is bad, and the mode. It comes as a number, since C hands over any.
pub fn check_settings(mode: u8, s: Settings) -> Result<Mode, ContentRefusal>
    ensures numbers { content_number_in result ≡ cond (Checks.bad_settings mode s) 5 0 }
    ensures places { content_place_in result ≡ cond (Checks.bad_settings mode s) (Checks.settings_place mode s) 0 }
    ensures modes { IfOk result (λ m. mode_number m ≡ mode) }
{
    let Some(m) = Mode::of(mode) else {
        return Err(ContentRefusal::Setting(0));
    };
    if bad_length(s.ratio) {
        return Err(ContentRefusal::Setting(1));
    }
    if bad_length(s.horizontal) {
        return Err(ContentRefusal::Setting(2));
    }
    if bad_length(s.vertical) {
        return Err(ContentRefusal::Setting(3));
    }
    if bad_length(s.diagonal) {
        return Err(ContentRefusal::Setting(4));
    }
    Ok(m)
}

// A sample that is NaN, infinite or of size above the limit.
pub fn bad_sample(v: f32) -> bool
    ensures { result ≡ Checks.oversize binary32 v }
{
    !(v >= -constants::LIMIT && v <= constants::LIMIT)
}

// No sample is bad. All are looked at, and no test waits for another.
fn all_good(xs: &[f32]) -> bool
    ensures { result ≡ true → length xs.now ≡ Checks.samples_place xs.now }
{
    let mut good = true;
    for x in xs {
        good = good & ((*x >= -constants::LIMIT) & (*x <= constants::LIMIT));
    }
    good
}

// The first bad sample.
pub fn first_bad_sample(xs: &[f32]) -> Option<usize>
    ensures { Checks.Found (length xs.now) (Checks.samples_place xs.now) result }
{
    if all_good(xs) {
        return None;
    }
    xs.iter().position(|x| bad_sample(*x))
}

// Check 6, at the first bad sample.
pub fn check_samples(xs: &[f32]) -> Result<(), ContentRefusal>
    ensures numbers { content_number_in result ≡ cond (Checks.bad_samples xs.now) 6 0 }
    ensures places { content_place_in result ≡ cond (Checks.bad_samples xs.now) (Checks.samples_place xs.now) 0 }
{
    match first_bad_sample(xs) {
        Some(p) => Err(ContentRefusal::Sample(p)),
        None => Ok(()),
    }
}

// Check 7, of so many colours and coordinates.
fn bad_outlines(colours: usize, coords: usize) -> bool
    ensures { result ≡ Checks.bad_outlines colours coords }
{
    colours > 65536 || coords != 2 * colours
}

// An end below the last one or above the segment count n.
fn bad_end(end: usize, last: usize, n: usize) -> bool
    ensures { result ≡ (ltb end last || ltb n end) }
{
    end < last || end > n
}

// The first bad end.
fn first_bad_end(ends: &[usize], n: usize) -> Option<usize>
    ensures { Checks.Found (length ends.now) (Checks.ends_place ends.now n) result }
{
    let mut last = 0;
    for (i, end) in ends.iter().enumerate() {
        if bad_end(*end, last, n) {
            return Some(i);
        }
        last = *end;
    }
    None
}

// The last end, 0 where there is none.
fn last_end(ends: &[usize]) -> usize
    ensures { result ≡ Checks.end_before ends.now (length ends.now) }
{
    ends.last().copied().unwrap_or(0)
}

// Check 8, at the first bad end, or behind the last where that is not the segment count n.
fn check_ends(ends: &[usize], n: usize) -> Result<(), ContentRefusal>
    ensures numbers { content_number_in result ≡ cond (Checks.bad_ends ends.now n) 8 0 }
    ensures places { content_place_in result ≡ cond (Checks.bad_ends ends.now n) (Checks.ends_place ends.now n) 0 }
{
    if let Some(p) = first_bad_end(ends, n) {
        return Err(ContentRefusal::End(p));
    }
    if last_end(ends) != n {
        return Err(ContentRefusal::End(ends.len()));
    }
    Ok(())
}

// A coordinate that is NaN, infinite or of size above the limit. A trait for both widths would be longer than this and the sample's test.
fn bad_coordinate(v: f64) -> bool
    ensures { result ≡ Checks.oversize binary64 v }
{
    !(v >= -constants::LIMIT_WIDE && v <= constants::LIMIT_WIDE)
}

// A colour above 7, or a bad coordinate.
fn bad_segment(colour: u8, x: f64, y: f64) -> bool
    ensures { result ≡ (ltb 7 colour || (Checks.oversize binary64 x || Checks.oversize binary64 y)) }
{
    colour > 7 || bad_coordinate(x) || bad_coordinate(y)
}

// The first bad segment.
fn first_bad_segment(colours: &[u8], coords: &[f64]) -> Option<usize>
    requires { length coords.now ≡ 2 * length colours.now }
    ensures { Checks.Found (length colours.now) (Checks.segments_place colours.now coords.now) result }
{
    for (i, colour) in colours.iter().enumerate() {
        if bad_segment(*colour, coords[2 * i], coords[2 * i + 1]) {
            return Some(i);
        }
    }
    None
}

// Check 9, at the first bad segment.
fn check_segments(colours: &[u8], coords: &[f64]) -> Result<(), ContentRefusal>
    requires { length coords.now ≡ 2 * length colours.now }
    ensures numbers { content_number_in result ≡ cond (Checks.bad_segments colours.now coords.now) 9 0 }
    ensures places { content_place_in result ≡ cond (Checks.bad_segments colours.now coords.now) (Checks.segments_place colours.now coords.now) 0 }
{
    match first_bad_segment(colours, coords) {
        Some(p) => Err(ContentRefusal::Segment(p)),
        None => Ok(()),
    }
}

// The first of checks 7 to 9 that fails. The outlines are three lists, since C hands over these.
pub fn check_outline(colours: &[u8], coords: &[f64], ends: &[usize]) -> Result<(), ContentRefusal>
    ensures numbers { content_number_in result ≡ Checks.outline_refusal colours.now coords.now ends.now }
    ensures places { content_place_in result ≡ Checks.outline_place colours.now coords.now ends.now (content_number_in result) }
{
    if bad_outlines(colours.len(), coords.len()) {
        return Err(ContentRefusal::OutlineLengths);
    }
    check_ends(ends, colours.len())?;
    check_segments(colours, coords)
}
