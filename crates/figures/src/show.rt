// How a figure is printed: its name, the answer, the rows from the bottom, and the samples of flagged texels as bits.
use correction::pass::Corrected;
use ground::bytes;
use inputs::refusal::Refusal;
use inputs::sizes::Bitmap;
use std::{fmt, io};

// The number, the place, the three counts and the number of range tests.
#[derive(Clone, Copy)]
struct Answered(Result<Corrected, Refusal>);

impl fmt::Display for Answered {
    fn fmt<W: fmt::Write>(&self, f: &mut fmt::Formatter<W>) -> fmt::Result {
        match self.0 {
            Ok(c) => write!(
                f,
                " 0 0 {} {} {} {}",
                c.counts.protected, c.counts.error, c.counts.corner, c.tests
            ),
            Err(r) => {
                let (number, place) = (r.number(), r.place());
                write!(f, " {number} {place} 0 0 0 0")
            }
        }
    }
}

// A stencil cell: `?` where it has none of the pass's bytes.
fn mark(v: u8) -> char {
    match v {
        0 => '.',
        1 => 'E',
        2 => 'P',
        3 => 'B',
        6 => 'C',
        7 => 'D',
        _ => '?',
    }
}

// The rows of a stencil, where a row has cells.
#[derive(Clone, Copy)]
struct Cells<'a> {
    stencil: &'a [u8],
    width: usize,
}

impl<'a> fmt::Display for Cells<'a> {
    fn fmt<W: fmt::Write>(&self, f: &mut fmt::Formatter<W>) -> fmt::Result {
        if self.width == 0 {
            return Ok(());
        }
        for row in self.stencil.chunks(self.width) {
            f.write_char(' ')?;
            for v in row {
                f.write_char(mark(*v))?;
            }
        }
        Ok(())
    }
}

// One of the pass's bytes, with an error.
fn is_flagged(v: u8) -> bool {
    matches!(v, 1 | 3 | 7)
}

// The samples of each flagged texel, where a texel has some.
#[derive(Clone, Copy)]
struct Samples<'a> {
    stencil: &'a [u8],
    samples: &'a [f32],
    channels: usize,
}

impl<'a> fmt::Display for Samples<'a> {
    fn fmt<W: fmt::Write>(&self, f: &mut fmt::Formatter<W>) -> fmt::Result {
        if self.channels == 0 {
            return Ok(());
        }
        for (v, texel) in self.stencil.iter().zip(self.samples.chunks(self.channels)) {
            if is_flagged(*v) {
                for x in texel {
                    if x.is_nan() {
                        f.write_str(" NaN")?;
                    } else {
                        write!(f, " {:08x}", bytes::bits_of_float32(*x))?;
                    }
                }
            }
        }
        Ok(())
    }
}

pub fn line(
    rt: &impl Print,
    name: &str,
    a: Result<Corrected, Refusal>,
    stencil: &[u8],
    samples: &[f32],
    b: Bitmap,
) -> io::Result<()> {
    let cells = Cells {
        stencil,
        width: b.width,
    };
    let flagged = Samples {
        stencil,
        samples,
        channels: b.channels,
    };
    println!(rt; "{name}:{}{cells}{flagged}", Answered(a))
}
