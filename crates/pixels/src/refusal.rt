// Why samples or bytes are refused: the first check that fails, with its place where it has one.
ghost use Rattle.std.specs.Prelude.{◌≡◌};
ghost use Rattle.pixels.specs.Refusal as Refusals;

#[derive(Clone, Copy, Debug, PartialEq, Eq)]
pub enum Refusal {
    Length,
    Sample(usize),
}

impl Refusal {
    // The number of its check.
    pub fn number(self) -> u8
        ensures { result ≡ Refusals.number self }
    {
        match self {
            Refusal::Length => 40,
            Refusal::Sample(_) => 6,
        }
    }

    // Its place, 0 where it has none.
    pub fn place(self) -> usize
        ensures { result ≡ Refusals.place self }
    {
        match self {
            Refusal::Sample(p) => p,
            _ => 0,
        }
    }
}
