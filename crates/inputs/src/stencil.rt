// The stencil: what the byte of a cell says, and how one of its bits is set.
ghost use Rattle.std.specs.Prelude.{◌≡◌, false, cond, ◌+◌, ◌<◌, length};
ghost use Rattle.ground.specs.Lists.{tab};
ghost use Rattle.inputs.specs.Stencil as Stencil;

// The stencil cells that are protected, those with an error, and those that a corner protects.
#[derive(Clone, Copy, Debug, PartialEq, Eq)]
pub struct Counts {
    pub protected: usize,
    pub error: usize,
    pub corner: usize,
}

// The bits' values: numbers, since C is lent the bytes and reads them by these.
pub const ERROR: u8 = 1;

pub const PROTECTED: u8 = 2;

pub const CORNER: u8 = 4;

// What stands above the three bits while errors are found is a texel's order, counted in this.
pub const ORDER: u8 = 8;

// Whether a byte has a bit. There is a function for each, since the definitions and docs/PROMISES.md name each.
pub fn is_error(v: u8) -> bool
    ensures { result ≡ Stencil.is_error v }
{
    v / ERROR % 2 == 1
}

pub fn is_protected(v: u8) -> bool
    ensures { result ≡ Stencil.is_protected v }
{
    v / PROTECTED % 2 == 1
}

pub fn has_corner(v: u8) -> bool
    ensures { result ≡ Stencil.has_corner v }
{
    v / CORNER % 2 == 1
}

// The byte with the bit b added, unless it has it.
fn with_bit(v: u8, has: bool, b: u8) -> u8
    requires { has ≡ false → v + b < 256 }
    ensures { result ≡ cond has v (v + b) }
{
    if has { v } else { v + b }
}

// The byte with its error bit set and all others as they were.
pub fn set_error(v: u8) -> u8
    ensures { result ≡ Stencil.set_error v }
{
    with_bit(v, is_error(v), ERROR)
}

// The same of its protected bit.
pub fn set_protected(v: u8) -> u8
    ensures { result ≡ Stencil.set_protected v }
{
    with_bit(v, is_protected(v), PROTECTED)
}

// The same of its corner bit.
pub fn set_corner(v: u8) -> u8
    ensures { result ≡ Stencil.set_corner v }
{
    with_bit(v, has_corner(v), CORNER)
}

// What a corner leaves of a byte: the corner bit beside the protected one.
pub fn set_both(v: u8) -> u8
    ensures { result ≡ Stencil.set_corner (Stencil.set_protected v) }
{
    let u = set_protected(v);
    set_corner(u)
}

// The same byte in every cell.
pub fn fill(stencil: &mut [u8], v: u8)
    ensures { stencil.new ≡ tab (length stencil.old) (λ k. v) }
{
    stencil.fill(v);
}

// How many cells have each bit.
pub fn count_cells(stencil: &[u8]) -> Counts
    ensures { result ≡ Stencil.counts_of stencil.now }
{
    let mut protected = 0;
    let mut error = 0;
    let mut corner = 0;
    for v in stencil {
        protected += (*v / PROTECTED % 2) as usize;
        error += (*v / ERROR % 2) as usize;
        corner += (*v / CORNER % 2) as usize;
    }
    Counts {
        protected,
        error,
        corner,
    }
}
