// The verdict of a search for artifacts: whether there is one, and how many range tests were made.
ghost use Rattle.std.specs.Prelude.{◌≡◌, ◌+◌, ◌%◌, ◌^◌, true, false, leb};
ghost use Rattle.detectors.specs.Verdict.{verdict};

use std::marker::Model;

// How much larger the number of a verdict is where there is an artifact: no texel takes as many tests.
pub const ARTIFACT: usize = 128;

// Both as one number, which is returned in a register and added to that of the next search.
#[derive(Clone, Copy)]
pub struct Verdict {
    number: usize,
}

impl Model for Verdict {
    ghost use Rattle.std.specs.Prelude.{ℕ};

    ghost Value = { ℕ };

    ghost view = { λ v. v.number };

    ghost inverse = { λ n. record { number = n } };
}

impl Verdict {
    // Nothing was tried.
    pub const NONE: Verdict = Verdict { number: 0 };

    // No artifact in a number of tests.
    pub fn clear(tests: usize) -> Verdict
        ensures { result ≡ verdict false tests }
    {
        Verdict { number: tests }
    }

    // An artifact, after a number of tests. The sum wraps round, but for no number that a search makes.
    pub fn artifact(tests: usize) -> Verdict
        ensures { result ≡ verdict true tests % 2 ^ 64 }
    {
        Verdict {
            number: ARTIFACT.wrapping_add(tests),
        }
    }

    pub fn is_artifact(self) -> bool
        ensures { result ≡ leb 128 self }
    {
        self.number >= ARTIFACT
    }

    // How many tests were made.
    pub fn tests(self) -> usize
        ensures { result ≡ self % 128 }
    {
        self.number % ARTIFACT
    }

    // What a search without an artifact and the next one come to. The sum wraps round, but for no two searches.
    pub fn then(self, next: Verdict) -> Verdict
        ensures { result ≡ (self + next) % 2 ^ 64 }
    {
        Verdict {
            number: self.number.wrapping_add(next.number),
        }
    }
}
