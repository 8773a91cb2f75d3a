// The reading program: standard input through the pass, and the answer to standard output.
#![tactic(auto)]

ghost use Rattle.std.specs.Prelude.{◌≡◌, OnOk, IfSome, length, take};
ghost use Rattle.std.specs.Io.KnownBytes.{Appends};
ghost use Rattle.reading.specs.Answer.{written};

use std::io;
use std::io::{Read, Write};

// Room for the longest input that is taken and one byte more, which shows that it is too long.
fn input_buffer() -> [u8; 65537]
    ensures { 65537 ≡ length result }
{
    [0; 65537]
}

// Room for the longest answer.
fn output_buffer() -> [u8; 131072]
    ensures { 131072 ≡ length result }
{
    [0; 131072]
}

// Reads an input, of which it takes as much as there is room for, and writes the answer.
// `rungtwine_plain` has the same of its own: what each program must not do is an edit of this text.
fn run<R: Read, W: Write>(from: &mut R, to: &mut W) -> io::Result<()>
    ensures { OnOk result (IfSome (R.remaining from.old) (λ xs. Appends (W.contents to.old) (W.contents to.new) (written 131072 (take 65537 xs)))) }
{
    let mut input = input_buffer();
    let mut output = output_buffer();
    let n = streams::read_full(from, &mut input)?;
    let m = reading::answer(&input[..n], &mut output);
    to.write_all(&output[..m])
}

fn main(rt: HostRuntime) -> io::Result<()> {
    run(&mut rt.stdin(), &mut rt.stdout())
}
