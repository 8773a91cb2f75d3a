// Settings and mode: `generator/config.rs`, and the spans that settings make.
ghost use Rattle.std.specs.Prelude.{◌≡◌, ◌<◌, MatchOption};
ghost use Rattle.ranges.specs.Config as Config;

// The ratio and the three lengths that stand for the unprojected vectors.
#[derive(Clone, Copy)]
pub struct Settings {
    pub ratio: f64,
    pub horizontal: f64,
    pub vertical: f64,
    pub diagonal: f64,
}

impl Settings {
    // The span of a side neighbour, in the row or upright in the column: the flag is the definition's.
    pub fn side_span(self, upright: bool) -> f64
        ensures { result ≡ Config.side_span self upright }
    {
        if upright {
            self.ratio * self.vertical
        } else {
            self.ratio * self.horizontal
        }
    }

    // The span of a diagonal one.
    pub fn diagonal_span(self) -> f64
        ensures { result ≡ Config.diagonal_span self }
    {
        self.ratio * self.diagonal
    }
}

// The modes: no correction; every artifact; only where no edge or corner is affected; only at edges.
#[derive(Clone, Copy, Debug, PartialEq, Eq)]
pub enum Mode {
    Disabled,
    Indiscriminate,
    EdgePriority,
    EdgeOnly,
}

impl Mode {
    // The mode that a number stands for, since C hands over any.
    pub fn of(number: u8) -> Option<Mode>
        ensures { MatchOption result (3 < number) (λ m. Config.mode_number m ≡ number) }
    {
        match number {
            0 => Some(Mode::Disabled),
            1 => Some(Mode::Indiscriminate),
            2 => Some(Mode::EdgePriority),
            3 => Some(Mode::EdgeOnly),
            _ => None,
        }
    }
}

// Their numbers: the plain engine, which shares no function with the pass, tests the number that C hands over.
pub const DISABLED: u8 = 0;

pub const INDISCRIMINATE: u8 = 1;

pub const EDGE_PRIORITY: u8 = 2;

pub const EDGE_ONLY: u8 = 3;
