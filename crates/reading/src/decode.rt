// The case that a well formed input means, decoded into lent slices.
ghost use Rattle.std.specs.Prelude.{◌≡◌, ◌+◌, ◌*◌, ◌≤◌, [], ◌∷◌, length};
ghost use Rattle.ground.specs.Lists.{joined};
ghost use Rattle.ground.specs.Bytes.{f64_at};
ghost use Rattle.ground.specs.Write.{Written};
ghost use Rattle.reading.specs.Case as Case;
ghost use Rattle.reading.specs.Inner.{Outlined, Decoded, Put};

use crate::page::Page;
use crate::reader;
use ground::bytes;

// The n samples of the row at a place. Its bytes are taken as one part: within it no sample's bytes have to be looked for.
fn decode_row(s: &[u8], from: usize, n: usize, page: &mut Page<f32>)
    requires { (from + 3 + 4 * n ≤ length s.now) × (page.old.at + n ≤ length page.old.out.now) }
    ensures { Put page.old (Case.row_samples s.now from n) page.new }
{
    let row = &s[from + 3..from + 3 + 4 * n];
    for j in 0..n {
        page.put(bytes::f32_at(row, 4 * j));
    }
}

// The h rows of n samples from a place on.
pub fn decode_samples(s: &[u8], from: usize, h: usize, n: usize, out: &mut [f32]) -> usize
    requires { (from + h * (3 + 4 * n) ≤ length s.now) × (h * n ≤ length out.old) }
    ensures { Written out.old 0 (joined h (λ y. Case.row_samples s.now (from + y * (3 + 4 * n)) n)) result out.new × (result ≡ h * n) }
{
    let mut page = Page { out, at: 0 };
    for y in 0..h {
        decode_row(s, from + y * (3 + 4 * n), n, &mut page);
    }
    page.at
}

// The colours of the n segments of the contour at a place.
fn contour_colours(s: &[u8], from: usize, n: usize, page: &mut Page<u8>)
    requires { (from + 3 + 17 * n ≤ length s.now) × (page.old.at + n ≤ length page.old.out.now) }
    ensures { Put page.old (Case.contour_colours s.now from n) page.new }
{
    for j in 0..n {
        page.put(s[from + 3 + 17 * j]);
    }
}

// The coordinates of the segment at a place.
fn segment_coords(s: &[u8], place: usize, page: &mut Page<f64>)
    requires { (place + 17 ≤ length s.now) × (page.old.at + 2 ≤ length page.old.out.now) }
    ensures { Put page.old (f64_at s.now (place + 1) ∷ f64_at s.now (place + 9) ∷ []) page.new }
{
    page.put(bytes::f64_at(s, place + 1));
    page.put(bytes::f64_at(s, place + 9));
}

// The coordinates of the n segments of the contour at a place.
fn contour_coords(s: &[u8], from: usize, n: usize, page: &mut Page<f64>)
    requires { (from + 3 + 17 * n ≤ length s.now) × (page.old.at + 2 * n ≤ length page.old.out.now) }
    ensures { Put page.old (Case.contour_coords s.now from n) page.new }
{
    for j in 0..n {
        segment_coords(s, from + 3 + 17 * j, page);
    }
}

// The colours, the coordinates and the ends of all k contours, whose n segments end at a place.
pub fn decode_outline(
    s: &[u8],
    end: usize,
    k: usize,
    n: usize,
    colours: &mut [u8],
    coords: &mut [f64],
    ends: &mut [usize],
)
    requires outlined { Outlined s.now end k n }
    requires room { (n ≤ length colours.old) × (2 * n ≤ length coords.old) × (k ≤ length ends.old) }
    ensures { Decoded s.now k n colours.old colours.new coords.old coords.new ends.old ends.new }
{
    let mut colour_page = Page {
        out: colours,
        at: 0,
    };
    let mut coord_page = Page { out: coords, at: 0 };
    let mut end_page = Page { out: ends, at: 0 };
    let mut place = 44usize;
    'contours: for _i in 0..k {
        let f = reader::field_at(s, place);
        contour_colours(s, place, f.len / 17, &mut colour_page);
        contour_coords(s, place, f.len / 17, &mut coord_page);
        end_page.put(colour_page.at);
        place = f.next;
    }
}
