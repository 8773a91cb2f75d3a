// What is printed, written into a lent slice. Each text is written by its bytes and by no Display, since the promises of both programs say each byte.
ghost use Rattle.std.specs.Prelude.{◌≡◌, ◌+◌, ◌*◌, ◌≤◌, ◌<◌, [], ◌∷◌, ◌++◌, length};
ghost use Rattle.ground.specs.Lists.{joined};
ghost use Rattle.ground.specs.Write.{Written};
ghost use Rattle.correction.specs.Bitmap.{cell_texel};
ghost use Rattle.reading.specs.Decimal.{decimal};
ghost use Rattle.reading.specs.Text as Text;
ghost use Rattle.reading.specs.Inner.{Put, counts_line};

use crate::page::Page;
use detectors::texel;
use ground::bytes;
use inputs::sizes::Bitmap;
use inputs::stencil;
use inputs::stencil::Counts;
use numbers::scalar::Middle;

// The digit, or the capital letter from ten on: `char::from_digit` gives small ones.
fn hex_digit(d: u32) -> u8
    requires { d < 16 }
    ensures { result ≡ Text.hex_digit d }
{
    if d < 10 {
        return (48 + d) as u8;
    }
    (55 + d) as u8
}

// What stands for a cell in a row: the bits are read one by one, as the definition has them, whatever else the byte holds.
fn mark(v: u8) -> u8
    ensures { result ≡ Text.mark v }
{
    if stencil::has_corner(v) {
        if stencil::is_error(v) {
            return b'D';
        }
        return b'C';
    }
    if stencil::is_protected(v) {
        if stencil::is_error(v) {
            return b'B';
        }
        return b'P';
    }
    if stencil::is_error(v) {
        return b'E';
    }
    b'.'
}

// A page of bytes.
impl<'a> Page<'a, u8> {
    // The digits of n.
    fn put_decimal(&mut self, n: usize)
        requires { self.old.at + length (decimal n) ≤ length self.old.out.now }
        ensures { Put self.old (decimal n) self.new }
    {
        let mut buffer = itoa::Buffer::new();
        self.put_all(buffer.format(n).as_bytes());
    }

    // A number and the byte after it: at most 21 bytes for any number.
    fn put_number(&mut self, n: usize, b: u8)
        requires { self.old.at + length (Text.numbered n b) ≤ length self.old.out.now }
        ensures { Put self.old (Text.numbered n b) self.new }
    {
        self.put_decimal(n);
        self.put(b);
    }

    // The last two hex digits of a number.
    fn put_hex_pair(&mut self, v: u32)
        requires { self.old.at + 2 ≤ length self.old.out.now }
        ensures { Put self.old (Text.hex_pair v) self.new }
    {
        self.put(hex_digit(v / 16 % 16));
        self.put(hex_digit(v % 16));
    }

    fn put_hex(&mut self, v: u32)
        requires { self.old.at + 8 ≤ length self.old.out.now }
        ensures { Put self.old (Text.hex v) self.new }
    {
        self.put_hex_pair(v / 16777216);
        self.put_hex_pair(v / 65536);
        self.put_hex_pair(v / 256);
        self.put_hex_pair(v);
    }

    // A text, then a number and the byte after it.
    fn put_named(&mut self, t: &[u8], n: usize, b: u8)
        requires { self.old.at + length t.now + 21 ≤ length self.old.out.now }
        ensures { Put self.old (t.now ++ Text.numbered n b) self.new }
    {
        self.put_all(t);
        self.put_number(n, b);
    }

    // `size W H C`
    fn put_size(&mut self, b: Bitmap)
        requires { self.old.at + 68 ≤ length self.old.out.now }
        ensures { Put self.old (Text.size_text b.width b.height b.channels) self.new }
    {
        self.put_named(b"size ", b.width, b' ');
        self.put_number(b.height, b' ');
        self.put_number(b.channels, b'\n');
    }

    // `protected P error E corner K`
    fn put_cells(&mut self, c: Counts)
        requires { self.old.at + 85 ≤ length self.old.out.now }
        ensures { Put self.old (Text.cells_text c) self.new }
    {
        self.put_named(b"protected ", c.protected, b' ');
        self.put_named(b"error ", c.error, b' ');
        self.put_all(b"corner ");
        self.put_decimal(c.corner);
    }

    // The counts' line: the range tests are there where they are counted.
    fn put_counts(&mut self, c: Counts, tests: Option<usize>)
        requires { self.old.at + 113 ≤ length self.old.out.now }
        ensures { Put self.old (counts_line c tests) self.new × (self.new.at ≤ self.old.at + 113) }
    {
        self.put_cells(c);
        match tests {
            Some(t) => self.put_named(b" tests ", t, b'\n'),
            None => self.put(b'\n'),
        }
    }

    // Row y of w cells.
    fn put_row(&mut self, st: &[u8], w: usize, y: usize)
        requires { (self.old.at + w + 1 ≤ length self.old.out.now) × (y * w + w ≤ length st.now) }
        ensures { Put self.old (Text.row_text w st.now y) self.new }
    {
        for x in 0..w {
            self.put(mark(st[y * w + x]));
        }
        self.put(b'\n');
    }

    // The rows from the bottom.
    fn put_rows(&mut self, st: &[u8], b: Bitmap)
        requires { (self.old.at + b.height * (b.width + 1) ≤ length self.old.out.now) × (b.height * b.width ≤ length st.now) }
        ensures { Put self.old (Text.rows_text b.width b.height st.now) self.new }
    {
        for y in 0..b.height {
            self.put_row(st, b.width, y);
        }
    }

    // `X Y BITS ch I`, of places with at most five digits.
    fn put_texel(&mut self, x: usize, y: usize, m: Middle)
        requires { (self.old.at + 26 ≤ length self.old.out.now) × (x < 100000) × (y < 100000) × (m.channel < 3) }
        ensures { Put self.old (Text.texel_text x y m) self.new }
    {
        self.put_number(x, b' ');
        self.put_number(y, b' ');
        self.put_hex(bytes::bits_of_float32(m.value));
        self.put_all(b" ch ");
        self.put_number(m.channel, b'\n');
    }

    // Cell k, where it is flagged; xs has its texel as it was before the pass.
    fn put_flagged(&mut self, st: &[u8], xs: &[f32], b: Bitmap, k: usize)
        requires room { (self.old.at + 26 ≤ length self.old.out.now) × (k < length st.now) }
        requires texels { (k * b.channels + 2 < length xs.now) × (0 < b.width) × (k < 100000) }
        ensures { Put self.old (Text.flagged_text b.width st.now (cell_texel xs.now b.channels) k) self.new }
    {
        if stencil::is_error(st[k]) {
            let j = k * b.channels;
            let m = texel::median([xs[j], xs[j + 1], xs[j + 2]]);
            self.put_texel(k % b.width, k / b.width, m);
        }
    }

    // Each flagged texel, row by row.
    fn put_texels(&mut self, st: &[u8], xs: &[f32], b: Bitmap)
        requires room { (self.old.at + 26 * (b.width * b.height) ≤ length self.old.out.now) × (b.width * b.height ≤ length st.now) }
        requires texels { (b.width * b.height * b.channels ≤ length xs.now) × (3 ≤ b.channels) × (0 < b.width) × (b.width * b.height ≤ 100000) }
        ensures { Put self.old (joined (b.width * b.height) (Text.flagged_text b.width st.now (cell_texel xs.now b.channels))) self.new }
    {
        let n = b.width * b.height;
        for k in 0..n {
            self.put_flagged(st, xs, b, k);
        }
    }
}

// `bad input AT`
pub fn put_bad(out: &mut [u8], place: usize) -> usize
    requires { 31 ≤ length out.old }
    ensures { Written out.old 0 (Text.bad_text place) result out.new }
{
    let mut page = Page { out, at: 0 };
    page.put_named(b"bad input ", place, b'\n');
    page.at
}

// `refused N PLACE`
pub fn put_refused(out: &mut [u8], n: usize, place: usize) -> usize
    requires { 50 ≤ length out.old }
    ensures { Written out.old 0 (Text.refused_text n place) result out.new }
{
    let mut page = Page { out, at: 0 };
    page.put_named(b"refused ", n, b' ');
    page.put_number(place, b'\n');
    page.at
}

// The size, the counts, the rows, then each flagged texel; xs has the samples as they were before the pass.
pub fn put_accepted(
    out: &mut [u8],
    b: Bitmap,
    c: Counts,
    tests: Option<usize>,
    st: &[u8],
    xs: &[f32],
) -> usize
    requires sizes { (0 < b.width) × (3 ≤ b.channels) × (b.height ≤ 4096) × (b.width * b.height ≤ 4096) }
    requires room { (b.width * b.height ≤ length st.now) × (b.width * b.height * b.channels ≤ length xs.now) × (131072 ≤ length out.old) }
    ensures { Written out.old 0 (Text.accepted_with b.width b.height b.channels (counts_line c tests) st.now (cell_texel xs.now b.channels)) result out.new }
{
    let mut page = Page { out, at: 0 };
    page.put_size(b);
    page.put_counts(c, tests);
    page.put_rows(st, b);
    page.put_texels(st, xs, b);
    page.at
}
