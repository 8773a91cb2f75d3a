// What the pass answers and leaves, held to the list.
ghost use Rattle.std.specs.Prelude.{◌≡◌, ◌+◌, ◌*◌, ◌<◌, length, Ok, Err, MatchResult};
ghost use Rattle.inputs.specs.Refusal.{number, place};

use correction::pass::Corrected;
use ground::bytes;
use inputs::refusal::Refusal;
use inputs::stencil::Counts;

// An answer as the list has it: the refusal's number and place, and what is counted; what an answer lacks is 0.
#[derive(Clone, Copy, PartialEq, Eq)]
struct Recorded {
    number: u8,
    place: usize,
    corrected: Corrected,
}

// What a refusal counts.
const NOTHING: Corrected = Corrected {
    counts: Counts {
        protected: 0,
        error: 0,
        corner: 0,
    },
    tests: 0,
};

impl From<Result<Corrected, Refusal>> for Recorded {
    ghost from_gives = { λ a r. MatchResult a (λ c. r.corrected ≡ c) (λ e. (r.number ≡ number e) × (r.place ≡ place e)) };

    fn from(a: Result<Corrected, Refusal>) -> Recorded {
        match a {
            Ok(c) => Recorded {
                number: 0,
                place: 0,
                corrected: c,
            },
            Err(r) => Recorded {
                number: r.number(),
                place: r.place(),
                corrected: NOTHING,
            },
        }
    }
}

// The list's number of range tests.
pub fn tests(list: &[u8], at: usize) -> usize
    requires { at < 800000 }
{
    bytes::be64(list, at + 33) as usize
}

// Whether the answer that the list has at a place is this one.
pub fn is_answer(list: &[u8], at: usize, a: Result<Corrected, Refusal>) -> bool
    requires { at < 800000 }
{
    let recorded = Recorded {
        number: bytes::byte_from(list, at, 0),
        place: bytes::be64(list, at + 1) as usize,
        corrected: Corrected {
            counts: Counts {
                protected: bytes::be64(list, at + 9) as usize,
                error: bytes::be64(list, at + 17) as usize,
                corner: bytes::be64(list, at + 25) as usize,
            },
            tests: tests(list, at),
        },
    };
    recorded == Recorded::from(a)
}

// The same bits, or a NaN on both sides.
pub fn is_sample(bits: u32, x: f32) -> bool {
    if x.is_nan() {
        return bytes::float_of_bits32(bits).is_nan();
    }
    bits == bytes::bits_of_float32(x)
}

pub fn are_samples(list: &[u8], at: usize, xs: &[f32]) -> bool
    requires { at + 4 * length xs.now < 900000 }
{
    xs.iter()
        .enumerate()
        .all(|(i, x)| is_sample(bytes::be32(list, at + 4 * i), *x))
}

pub fn are_cells(list: &[u8], at: usize, cells: &[u8]) -> bool {
    cells
        .iter()
        .enumerate()
        .all(|(i, v)| bytes::byte_from(list, at, i) == *v)
}
