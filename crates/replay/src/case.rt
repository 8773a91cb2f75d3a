// One case of the list: what it holds and where, and its run.
ghost use Rattle.std.specs.Prelude.{◌≤◌, length, IsTrue};
ghost use Rattle.replay.specs.Inner.{Roomy};

use crate::{answer, number};
use correction::pass;
use correction::pass::Corrected;
use ground::bytes;
use inputs::refusal::Refusal;
use ranges::config::Settings;

// Where a case begins, and how many samples, cells, colours, coordinates and ends it holds: one more than there is room for stands for all numbers that are larger.
#[derive(Clone, Copy)]
pub struct Case {
    pub at: usize,
    pub samples: usize,
    pub cells: usize,
    pub colours: usize,
    pub coords: usize,
    pub ends: usize,
    ghost begins: { at ≤ 262144 },
    ghost bounded: { (samples ≤ 65) × (cells ≤ 65) × (colours ≤ 65) × (coords ≤ 65) × (ends ≤ 65) },
}

// A number of things.
fn count(list: &[u8], at: usize) -> usize
    ensures { result ≤ 65 }
{
    bytes::be64(list, at).min(65) as usize
}

impl Case {
    // The case that begins at a place of the list.
    pub fn read(list: &[u8], at: usize) -> Case
        requires { at ≤ 262144 }
    {
        let samples = count(list, at + 57);
        let after = at + 65 + 4 * samples;
        let cells = count(list, after);
        let after = after + 8 + cells;
        let colours = count(list, after);
        let after = after + 8 + colours;
        let coords = count(list, after);
        let after = after + 8 + 8 * coords;
        let ends = count(list, after);
        Case {
            at,
            samples,
            cells,
            colours,
            coords,
            ends,
        }
    }

    // Where the cells, the colours, the coordinates, the ends and the answer begin, the first four each after their number.
    fn cells_at(self) -> usize
        ensures { result ≤ 300000 }
    {
        self.at + 73 + 4 * self.samples
    }

    fn colours_at(self) -> usize
        ensures { result ≤ 300000 }
    {
        self.at + 81 + 4 * self.samples + self.cells
    }

    fn coords_at(self) -> usize
        ensures { result ≤ 300000 }
    {
        self.at + 89 + 4 * self.samples + self.cells + self.colours
    }

    fn ends_at(self) -> usize
        ensures { result ≤ 310000 }
    {
        self.coords_at() + 8 + 8 * self.coords
    }

    fn answer_at(self) -> usize
        ensures { result ≤ 320000 }
    {
        self.ends_at() + 8 * self.ends
    }

    // Where the next case begins.
    pub fn end(self) -> usize
        ensures { result ≤ 330000 }
    {
        self.answer_at() + 41 + 4 * self.samples + self.cells
    }

    // Whether it ends within the list, and there is room for what it holds.
    pub fn has_room(self, next: usize, size: usize) -> bool
        ensures { IsTrue result → (next ≤ size) × Roomy self.samples self.cells self.colours self.coords self.ends }
    {
        next <= size
            && self.samples <= 64
            && self.cells <= 64
            && self.colours <= 64
            && self.coords <= 64
            && self.ends <= 64
    }
}

// The ratio and the three lengths.
fn settings(list: &[u8], at: usize) -> Settings
    requires { at ≤ 300000 }
{
    Settings {
        ratio: bytes::f64_at(list, at + 25),
        horizontal: bytes::f64_at(list, at + 33),
        vertical: bytes::f64_at(list, at + 41),
        diagonal: bytes::f64_at(list, at + 49),
    }
}

// Reads what a case holds into these arrays.
fn load(
    list: &[u8],
    c: Case,
    samples: &mut [f32],
    cells: &mut [u8],
    colours: &mut [u8],
    coords: &mut [f64],
    ends: &mut [usize],
)
    requires { (length samples.old ≤ 64) × (length cells.old ≤ 64) × (length colours.old ≤ 64) × (length coords.old ≤ 64) × (length ends.old ≤ 64) }
{
    let (samples_at, cells_at, colours_at) = (c.at + 65, c.cells_at(), c.colours_at());
    let (coords_at, ends_at) = (c.coords_at(), c.ends_at());
    number::fill(samples, |i| bytes::f32_at(list, samples_at + 4 * i));
    number::fill(cells, |i| bytes::byte_from(list, cells_at, i));
    number::fill(colours, |i| bytes::byte_from(list, colours_at, i));
    number::fill(coords, |i| bytes::f64_at(list, coords_at + 8 * i));
    number::fill(ends, |i| bytes::be64(list, ends_at + 8 * i) as usize);
}

// An engine: it does the pass in place, and answers with the number of range tests, or, where it counts none, with the list's.
pub trait Engine {
    fn correct(
        list_tests: usize,
        width: usize,
        height: usize,
        channels: usize,
        samples: &mut [f32],
        cells: &mut [u8],
        room: &mut [f32],
        mode: u8,
        s: Settings,
        colours: &[u8],
        coords: &[f64],
        ends: &[usize],
    ) -> Result<Corrected, Refusal>;
}

// The first engine, the pass.
pub struct First;

impl Engine for First {
    fn correct(
        _list_tests: usize,
        width: usize,
        height: usize,
        channels: usize,
        samples: &mut [f32],
        cells: &mut [u8],
        room: &mut [f32],
        mode: u8,
        s: Settings,
        colours: &[u8],
        coords: &[f64],
        ends: &[usize],
    ) -> Result<Corrected, Refusal> {
        pass::msdf_error_correction(
            width, height, channels, samples, cells, room, mode, s, colours, coords, ends,
        )
    }
}

// The plain engine.
pub struct Plain;

impl Engine for Plain {
    fn correct(
        list_tests: usize,
        width: usize,
        height: usize,
        channels: usize,
        samples: &mut [f32],
        cells: &mut [u8],
        room: &mut [f32],
        mode: u8,
        s: Settings,
        colours: &[u8],
        coords: &[f64],
        ends: &[usize],
    ) -> Result<Corrected, Refusal> {
        let counts = plain::pass::plain_error_correction(
            width, height, channels, samples, cells, room, mode, s, colours, coords, ends,
        )?;
        Ok(Corrected {
            counts,
            tests: list_tests,
        })
    }
}

// Runs a case. 64 samples are at most 21 texels a row.
fn correct<E: Engine>(
    list: &[u8],
    c: Case,
    samples: &mut [f32],
    cells: &mut [u8],
    colours: &[u8],
    coords: &[f64],
    ends: &[usize],
) -> Result<Corrected, Refusal> {
    let mut room = [1.0f32; 42];
    E::correct(
        answer::tests(list, c.answer_at()),
        bytes::be64(list, c.at) as usize,
        bytes::be64(list, c.at + 8) as usize,
        bytes::be64(list, c.at + 16) as usize,
        samples,
        cells,
        &mut room,
        bytes::byte_from(list, c.at, 24),
        settings(list, c.at),
        colours,
        coords,
        ends,
    )
}

// Whether an answer, the samples and the cells afterwards are the list's.
fn is_right(
    list: &[u8],
    c: Case,
    a: Result<Corrected, Refusal>,
    samples: &[f32],
    cells: &[u8],
) -> bool
    requires { (length samples.now ≤ 64) × (length cells.now ≤ 64) }
{
    let at = c.answer_at();
    let after = at + 41;
    let then = after + 4 * c.samples;
    answer::is_answer(list, at, a)
        && answer::are_samples(list, after, samples)
        && answer::are_cells(list, then, cells)
}

// Reads a case into these arrays, which are as long as it says, runs it, and answers whether it goes as the list says.
fn run<E: Engine>(
    list: &[u8],
    c: Case,
    samples: &mut [f32],
    cells: &mut [u8],
    colours: &mut [u8],
    coords: &mut [f64],
    ends: &mut [usize],
) -> bool
    requires { (length samples.old ≤ 64) × (length cells.old ≤ 64) × (length colours.old ≤ 64) × (length coords.old ≤ 64) × (length ends.old ≤ 64) }
{
    load(list, c, samples, cells, colours, coords, ends);
    let a = correct::<E>(list, c, samples, cells, colours, coords, ends);
    is_right(list, c, a, samples, cells)
}

// Whether a case goes as the list says, by an engine.
pub fn is_same<E: Engine>(list: &[u8], c: Case) -> bool
    requires { Roomy c.samples c.cells c.colours c.coords c.ends }
{
    let mut samples = [0.0f32; 64];
    let mut cells = [0u8; 64];
    let mut colours = [0u8; 64];
    let mut coords = [0.0f64; 64];
    let mut ends = [0usize; 64];
    run::<E>(
        list,
        c,
        &mut samples[..c.samples],
        &mut cells[..c.cells],
        &mut colours[..c.colours],
        &mut coords[..c.coords],
        &mut ends[..c.ends],
    )
}
