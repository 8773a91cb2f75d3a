// Why a correction of signs is refused: the first check that fails, with its place where it has one.
ghost use Rattle.std.specs.Prelude.{◌≡◌};
ghost use Rattle.signs.specs.Refusal as Refusals;

#[derive(Clone, Copy, Debug, PartialEq, Eq)]
pub enum Refusal {
    Channels,
    Size,
    SampleCount,
    Sample(usize),
    Zero,
    Filled,
    Matches,
}

impl Refusal {
    // The number of its check.
    pub fn number(self) -> u8
        ensures { result ≡ Refusals.number self }
    {
        match self {
            Refusal::Channels => 1,
            Refusal::Size => 2,
            Refusal::SampleCount => 3,
            Refusal::Sample(_) => 6,
            Refusal::Zero => 10,
            Refusal::Filled => 11,
            Refusal::Matches => 12,
        }
    }

    // Its place, 0 where it has none.
    pub fn place(self) -> usize
        ensures { result ≡ Refusals.place self }
    {
        match self {
            Refusal::Sample(p) => p,
            _ => 0,
        }
    }
}
