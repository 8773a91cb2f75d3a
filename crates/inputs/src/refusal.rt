// Why a bitmap is refused: the first check that fails, with its place where it has one. docs/RULES.md has the checks and their numbers.
ghost use Rattle.std.specs.Prelude.{◌≡◌};
ghost use Rattle.inputs.specs.Refusal as Rules;
ghost use Rattle.inputs.specs.declared.refusal.Refusal.TheVariants.{Content};

// Checks 5 to 9, of what a bitmap holds.
#[derive(Clone, Copy, Debug, PartialEq, Eq)]
pub enum ContentRefusal {
    Setting(usize),
    Sample(usize),
    OutlineLengths,
    End(usize),
    Segment(usize),
}

// All checks: those of sizes and room, and those of what is held.
#[derive(Clone, Copy, Debug, PartialEq, Eq)]
pub enum Refusal {
    Channels,
    Size,
    SampleCount,
    CellCount,
    Room,
    Content(ContentRefusal),
}

impl ContentRefusal {
    // The number of the check.
    pub fn number(self) -> u8
        ensures { result ≡ Rules.content_number self }
    {
        match self {
            ContentRefusal::Setting(_) => 5,
            ContentRefusal::Sample(_) => 6,
            ContentRefusal::OutlineLengths => 7,
            ContentRefusal::End(_) => 8,
            ContentRefusal::Segment(_) => 9,
        }
    }

    // Its place, 0 where it has none.
    pub fn place(self) -> usize
        ensures { result ≡ Rules.content_place self }
    {
        match self {
            ContentRefusal::Setting(p)
            | ContentRefusal::Sample(p)
            | ContentRefusal::End(p)
            | ContentRefusal::Segment(p) => p,
            ContentRefusal::OutlineLengths => 0,
        }
    }
}

impl Refusal {
    // The number of the check.
    pub fn number(self) -> u8
        ensures { result ≡ Rules.number self }
    {
        match self {
            Refusal::Channels => 1,
            Refusal::Size => 2,
            Refusal::SampleCount => 3,
            Refusal::CellCount => 4,
            Refusal::Room => 60,
            Refusal::Content(c) => c.number(),
        }
    }

    // Its place, 0 where it has none.
    pub fn place(self) -> usize
        ensures { result ≡ Rules.place self }
    {
        match self {
            Refusal::Content(c) => c.place(),
            _ => 0,
        }
    }
}

impl From<ContentRefusal> for Refusal {
    ghost from_gives = { λ c r. r ≡ Content c };

    fn from(c: ContentRefusal) -> Refusal {
        Refusal::Content(c)
    }
}
