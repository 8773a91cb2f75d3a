// The field reader: the input, and the place in it at which the next field starts.
// It tells the field at its place and moves on behind it, and `fields::read` makes one and walks it through the whole input.
// These three and that function are all that holds a reader: whatever judges or decodes a field takes the slice and the field that was told.
ghost use Rattle.std.specs.Prelude.{◌≡◌};
ghost use Rattle.reading.specs.Inner.{Told};

use ground::bytes;

#[derive(Clone, Copy)]
pub struct Reader<'a> {
    pub src: &'a [u8],
    pub at: usize,
}

// A field: where it starts, its tag and its length, 0 where the input ends before them, and where its contents end and the next field starts, which is the input's end where some of them are missing.
#[derive(Clone, Copy)]
pub struct Field {
    pub at: usize,
    pub tag: u8,
    pub len: usize,
    pub next: usize,
}

// The field at a place.
pub fn field_at(s: &[u8], at: usize) -> Field
    ensures { Told s.now at result }
{
    let end = s.len();
    if end <= at {
        return Field {
            at,
            tag: 0,
            len: 0,
            next: end,
        };
    }
    let tag = s[at];
    if end - at < 3 {
        return Field {
            at,
            tag,
            len: 0,
            next: end,
        };
    }
    let len = bytes::be16(s, at + 1);
    if end - at - 3 < len {
        return Field {
            at,
            tag,
            len,
            next: end,
        };
    }
    Field {
        at,
        tag,
        len,
        next: at + 3 + len,
    }
}

impl<'a> Reader<'a> {
    // A reader at the first field.
    pub fn new(src: &'a [u8]) -> Reader<'a>
        ensures { (result.src ≡ src.entry) × (result.at ≡ 0) }
    {
        Reader { src, at: 0 }
    }

    // What stands at the reader's place.
    pub fn field(self) -> Field
        ensures { Told self.entry.src.now self.entry.at result }
    {
        field_at(self.src, self.at)
    }

    // The reader behind a field that ends at a place.
    pub fn behind(self, at: usize) -> Reader<'a>
        ensures { (result.src ≡ self.entry.src) × (result.at ≡ at) }
    {
        Reader { src: self.src, at }
    }
}
