// The fields of the input in their order, and the place of the first breach.
ghost use Rattle.std.specs.Prelude.{◌≡◌, ◌+◌, ◌*◌, ◌≤◌, length};
ghost use Rattle.reading.specs.Grammar as Grammar;
ghost use Rattle.reading.specs.Inner.{Told, Checked, Found, Whole};

use crate::reader::{Field, Reader};
use ground::bytes;

// The tag of a field, and that its length is there.
fn check_head(s: &[u8], f: Field, tag: u8) -> Result<(), usize>
    requires { Told s.now f.at f × (length s.now ≤ 65536) × (f.at ≤ 65536) }
    ensures { Checked (Grammar.head_breach s.now f.at tag) result }
{
    if s.len() <= f.at {
        return Err(s.len());
    }
    if f.tag != tag {
        return Err(f.at);
    }
    if s.len() - f.at < 3 {
        return Err(s.len());
    }
    Ok(())
}

// The contents of a field whose length is there.
fn check_body(s: &[u8], f: Field) -> Result<(), usize>
    requires { (f.at + 3 ≤ length s.now) × (length s.now ≤ 65536) }
    ensures { Checked (Grammar.body_breach s.now f.at f.len) result }
{
    if s.len() - f.at - 3 < f.len {
        return Err(s.len());
    }
    Ok(())
}

// A field of a given length.
fn check_field(s: &[u8], f: Field, tag: u8, len: usize) -> Result<(), usize>
    requires { Told s.now f.at f × (length s.now ≤ 65536) × (f.at ≤ 65536) }
    ensures { Checked (Grammar.field_breach s.now f.at tag len) result }
{
    check_head(s, f, tag)?;
    if f.len != len {
        return Err(f.at);
    }
    check_body(s, f)
}

// A contour that follows k contours with n segments.
fn check_contour(s: &[u8], f: Field, k: usize, n: usize) -> Result<(), usize>
    requires { Told s.now f.at f × (length s.now ≤ 65536) × (f.at ≤ 65536) × (n ≤ 256) }
    ensures { Checked (Grammar.contour_breach s.now f.at k n) result }
{
    check_head(s, f, 3)?;
    if f.len % 17 != 0 {
        return Err(f.at);
    }
    if 64 <= k {
        return Err(f.at);
    }
    if n + f.len / 17 > 256 {
        return Err(f.at);
    }
    check_body(s, f)
}

// How many rows there are, and how many bytes each has.
#[derive(Clone, Copy)]
struct Rows {
    count: usize,
    bytes: usize,
}

// 01: the size, and the sample limit.
fn size(s: &[u8], f: Field) -> Result<Rows, usize>
    requires { Told s.now f.at f × (length s.now ≤ 65536) × (f.at ≡ 0) }
    ensures { Found (Grammar.size_breach s.now) result (λ r. (r.count ≡ Grammar.height s.now) × (r.bytes ≡ 4 * Grammar.row_size s.now)) }
{
    check_field(s, f, 1, 5)?;
    let w = bytes::be16(s, 3);
    let h = bytes::be16(s, 5);
    if w * h * (s[7] as usize) > 12288 {
        return Err(0);
    }
    Ok(Rows {
        count: h,
        bytes: 4 * (w * (s[7] as usize)),
    })
}

// 00: the end, and nothing after it.
fn end(s: &[u8], f: Field) -> Result<(), usize>
    requires { Told s.now f.at f × (length s.now ≤ 65536) × (f.at ≤ 65536) }
    ensures { Checked (Grammar.end_breach s.now f.at) result }
{
    check_field(s, f, 0, 0)?;
    if f.at + 3 < s.len() {
        return Err(f.at + 3);
    }
    Ok(())
}

// Where the rows of an input without a breach start, and how many contours and segments stand before them.
#[derive(Clone, Copy)]
pub struct Layout {
    pub rows: usize,
    pub contours: usize,
    pub segments: usize,
}

// Made once, the reader walks through the input field by field: it tells the field at its place, and moves on behind it. The first breach ends the walk.
pub fn read(s: &[u8]) -> Result<Layout, usize>
    ensures { Found (Grammar.breach s.now) result (λ l. Whole s.now l.rows l.contours l.segments) }
{
    if s.len() > 65536 {
        return Err(65536);
    }
    let mut r = Reader::new(s);
    let head = r.field();
    let rows = size(s, head)?;
    r = r.behind(head.next);
    let set = r.field();
    check_field(s, set, 2, 33)?;
    r = r.behind(set.next);
    let mut f = r.field();
    let mut l = Layout {
        rows: f.at,
        contours: 0,
        segments: 0,
    };
    // No count: the contours end where another field stands.
    'contours: while f.tag == 3 {
        check_contour(s, f, l.contours, l.segments)?;
        l = Layout {
            rows: f.next,
            contours: l.contours + 1,
            segments: l.segments + f.len / 17,
        };
        r = r.behind(f.next);
        f = r.field();
    }
    'rows: for _y in 0..rows.count {
        check_field(s, f, 4, rows.bytes)?;
        r = r.behind(f.next);
        f = r.field();
    }
    end(s, f)?;
    Ok(l)
}
