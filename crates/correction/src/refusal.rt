// Why a sheet is refused: the first check that fails, with its cell and its place where it has them. docs/RULES.md has the checks and their numbers.
ghost use Rattle.std.specs.Prelude.{◌≡◌};
ghost use Rattle.correction.specs.Sheet.{told};

use inputs::refusal::ContentRefusal;

#[derive(Clone, Copy, Debug, PartialEq, Eq)]
pub enum Refusal {
    Channels,
    Sheet,
    Room,
    Outside(usize),
    Overlap(usize),
    Run(usize),
    Cell(usize, ContentRefusal),
}

impl Refusal {
    // The number of the check.
    pub fn number(self) -> u8
        ensures { result ≡ (told self).number }
    {
        match self {
            Refusal::Channels => 1,
            Refusal::Sheet => 50,
            Refusal::Room => 60,
            Refusal::Outside(_) => 51,
            Refusal::Overlap(_) => 52,
            Refusal::Run(_) => 53,
            Refusal::Cell(_, r) => r.number(),
        }
    }

    // Its cell, 0 where it is of the whole sheet.
    pub fn cell(self) -> usize
        ensures { result ≡ (told self).cell }
    {
        match self {
            Refusal::Outside(c) | Refusal::Overlap(c) | Refusal::Run(c) | Refusal::Cell(c, _) => c,
            _ => 0,
        }
    }

    // Its place in the cell, 0 where it has none.
    pub fn place(self) -> usize
        ensures { result ≡ (told self).place }
    {
        match self {
            Refusal::Cell(_, r) => r.place(),
            _ => 0,
        }
    }
}
