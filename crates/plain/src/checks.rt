// The checks, each as docs/RULES.md has it. A search goes from the end to the front, through everything, and keeps what it found last.
ghost use Rattle.std.specs.Prelude.{◌≡◌, ◌*◌, ◌<◌, ◌≤◌, length, if◌then◌else◌, nat_le, Err};
ghost use Rattle.std.specs.Float.{binary32, binary64};
ghost use Rattle.inputs.specs.Checks as Checks;
ghost use Rattle.inputs.specs.Checks.{input};
ghost use Rattle.inputs.specs.Refusal.{number_in, place_in};
ghost use Rattle.inputs.specs.declared.refusal.ContentRefusal.TheVariants.{Setting, Sample, Segment};
ghost use Rattle.inputs.specs.declared.refusal.Refusal.TheVariants.{Content};
ghost use Rattle.plain.specs.Inner.{At};

use inputs::refusal::{ContentRefusal, Refusal};
use inputs::sizes::Bitmap;
use ranges::config::Settings;
use ranges::constants;

// What a check refuses with where it fails, else what the rest say.
fn refused(bad: bool, here: Refusal, rest: Result<(), Refusal>) -> Result<(), Refusal>
    ensures { result ≡ (if bad then Err here else rest) }
{
    if bad { Err(here) } else { rest }
}

// The same of checks 5 to 9.
fn refused_content(
    bad: bool,
    here: ContentRefusal,
    rest: Result<(), Refusal>,
) -> Result<(), Refusal>
    ensures { result ≡ (if bad then Err (Content here) else rest) }
{
    refused(bad, Refusal::Content(here), rest)
}

// Check 1: channels not 3 or 4.
fn bad_channels(ch: usize) -> bool
    ensures { result ≡ Checks.bad_channels ch }
{
    !((ch == 3) | (ch == 4))
}

// Check 2: a side outside 1..4,096.
fn bad_size(b: Bitmap) -> bool
    ensures { result ≡ Checks.bad_size b.width b.height }
{
    !((1 <= b.width) & (b.width <= 4096)) | !((1 <= b.height) & (b.height <= 4096))
}

// n, but no more than so many: then products fit.
fn at_most(n: usize, most: usize) -> usize
    ensures { (result ≡ (if nat_le n most then n else most)) × (result ≤ most) }
{
    if n <= most { n } else { most }
}

// Checks 1 to 4, of n samples and m cells. Where at_most changes a size check 1 or 2 fails, so the products say nothing.
fn check_size(b: Bitmap, n: usize, m: usize) -> Result<(), Refusal>
    ensures numbers { number_in result ≡ Checks.size_refusal b.width b.height b.channels n m }
    ensures places { place_in result ≡ 0 }
{
    let area = at_most(b.width, 4096) * at_most(b.height, 4096);
    let volume = area * at_most(b.channels, 4);
    let cells = refused(m != area, Refusal::CellCount, Ok(()));
    let samples = refused(n != volume, Refusal::SampleCount, cells);
    let sides = refused(bad_size(b), Refusal::Size, samples);
    refused(bad_channels(b.channels), Refusal::Channels, sides)
}

// Check 60, of a room of n: it has not two rows of w.
fn bad_room(w: usize, n: usize) -> bool
    ensures { result ≡ Checks.bad_room w n }
{
    if n < w {
        return true;
    }
    n - w < w
}

// A ratio or a length that is NaN, below 0 or above the limit.
fn bad_length(v: f64) -> bool
    ensures { result ≡ Checks.bad_length v }
{
    !((v >= 0.0) & (v <= constants::LIMIT_WIDE))
}

// Check 5, at the first that is bad, then the rest.
fn check_settings(mode: u8, s: Settings, rest: Result<(), Refusal>) -> Result<(), Refusal>
    ensures { At 5 (Checks.settings_place mode s) Setting rest result }
{
    let diagonal = refused_content(bad_length(s.diagonal), ContentRefusal::Setting(4), rest);
    let vertical = refused_content(bad_length(s.vertical), ContentRefusal::Setting(3), diagonal);
    let horizontal = refused_content(
        bad_length(s.horizontal),
        ContentRefusal::Setting(2),
        vertical,
    );
    let ratio = refused_content(bad_length(s.ratio), ContentRefusal::Setting(1), horizontal);
    refused_content(mode > 3, ContentRefusal::Setting(0), ratio)
}

// A sample that is NaN, infinite or of size above the limit.
fn bad_sample(v: f32) -> bool
    ensures { result ≡ Checks.oversize binary32 v }
{
    !((v >= -constants::LIMIT) & (v <= constants::LIMIT))
}

// Check 6, at the first bad sample, then the rest.
fn check_samples(xs: &[f32], rest: Result<(), Refusal>) -> Result<(), Refusal>
    ensures { At (length xs.now) (Checks.samples_place xs.now) Sample rest result }
{
    let mut found = rest;
    for j in (0..xs.len()).rev() {
        found = refused_content(bad_sample(xs[j]), ContentRefusal::Sample(j), found);
    }
    found
}

// Check 7, of so many colours and coordinates.
fn bad_outlines(colours: usize, coords: usize) -> bool
    ensures { result ≡ Checks.bad_outlines colours coords }
{
    if colours > 65536 {
        return true;
    }
    coords != 2 * colours
}

// The end before end i, 0 before the first.
pub fn end_before(ends: &[usize], i: usize) -> usize
    requires { i ≤ length ends.now }
    ensures { result ≡ Checks.end_before ends.now i }
{
    if i == 0 { 0 } else { ends[i - 1] }
}

// End i is below the one before it or above the segment count n.
fn bad_end(ends: &[usize], n: usize, i: usize) -> bool
    requires { i < length ends.now }
    ensures { result ≡ Checks.bad_end ends.now n i }
{
    let end = ends[i];
    (end < end_before(ends, i)) | (end > n)
}

// Check 8, at the first bad end, or behind the last where that is not the segment count; then the rest.
fn check_ends(ends: &[usize], n: usize, rest: Result<(), Refusal>) -> Result<(), Refusal>
    ensures numbers { number_in result ≡ (if Checks.bad_ends ends.now n then 8 else number_in rest) }
    ensures places { place_in result ≡ (if Checks.bad_ends ends.now n then Checks.ends_place ends.now n else place_in rest) }
{
    let k = ends.len();
    let last = end_before(ends, k);
    let mut found = refused_content(last != n, ContentRefusal::End(k), rest);
    for i in (0..k).rev() {
        found = refused_content(bad_end(ends, n, i), ContentRefusal::End(i), found);
    }
    found
}

// A coordinate that is NaN, infinite or of size above the limit.
fn bad_coordinate(v: f64) -> bool
    ensures { result ≡ Checks.oversize binary64 v }
{
    !((v >= -constants::LIMIT_WIDE) & (v <= constants::LIMIT_WIDE))
}

// Segment i has a colour above 7 or a bad coordinate.
fn bad_segment(colours: &[u8], coords: &[f64], i: usize) -> bool
    requires { (length coords.now ≡ 2 * length colours.now) × (length colours.now ≤ 65536) × (i < length colours.now) }
    ensures { result ≡ Checks.bad_segment colours.now coords.now i }
{
    let x = bad_coordinate(coords[2 * i]);
    let y = bad_coordinate(coords[2 * i + 1]);
    (colours[i] > 7) | (x | y)
}

// Check 9, at the first bad segment, then the rest.
fn check_segments(colours: &[u8], coords: &[f64], rest: Result<(), Refusal>) -> Result<(), Refusal>
    requires { (length coords.now ≡ 2 * length colours.now) × (length colours.now ≤ 65536) }
    ensures { At (length colours.now) (Checks.segments_place colours.now coords.now) Segment rest result }
{
    let mut found = rest;
    for i in (0..colours.len()).rev() {
        found = refused_content(
            bad_segment(colours, coords, i),
            ContentRefusal::Segment(i),
            found,
        );
    }
    found
}

// Checks 7 to 9.
fn check_outline(colours: &[u8], coords: &[f64], ends: &[usize]) -> Result<(), Refusal>
    ensures numbers { number_in result ≡ Checks.outline_refusal colours.now coords.now ends.now }
    ensures places { place_in result ≡ Checks.outline_place colours.now coords.now ends.now (number_in result) }
{
    if bad_outlines(colours.len(), coords.len()) {
        return Err(Refusal::Content(ContentRefusal::OutlineLengths));
    }
    let segments = check_segments(colours, coords, Ok(()));
    check_ends(ends, colours.len(), segments)
}

// All checks, 60 between 4 and 5; the first failure answers.
pub fn check(
    b: Bitmap,
    xs: &[f32],
    stencil: &[u8],
    room: &[f32],
    mode: u8,
    s: Settings,
    colours: &[u8],
    coords: &[f64],
    ends: &[usize],
) -> Result<(), Refusal>
    ensures numbers { number_in result ≡ Checks.refusal_number (input b.width b.height b.channels xs.now stencil.now room.now mode s colours.now coords.now ends.now) }
    ensures places { place_in result ≡ Checks.refusal_place (input b.width b.height b.channels xs.now stencil.now room.now mode s colours.now coords.now ends.now) }
{
    let outline = check_outline(colours, coords, ends);
    let samples = check_samples(xs, outline);
    let settings = check_settings(mode, s, samples);
    let lent = refused(bad_room(b.width, room.len()), Refusal::Room, settings);
    check_size(b, xs.len(), stencil.len()).and(lent)
}
