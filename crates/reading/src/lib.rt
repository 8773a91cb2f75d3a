// The reading program's library: the input's fields, the case that they mean, and the text that is printed.
#![tactic(auto)]

ghost use Rattle.std.specs.Prelude.{◌≡◌, ◌≤◌, ◌++◌, length, drop};
ghost use Rattle.reading.specs.Answer.{written, written_plainly};
ghost use Rattle.reading.specs.Inner.{printed_by, written_by};

mod decode;
mod engines;
mod fields;
mod page;
mod reader;
mod run;
mod text;

use engines::{Engine, First, Plain};

// Writes what the program prints for an input, with either engine, into the front of `out`, and answers how many bytes that is.
fn answer_into<E: Engine>(input: &[u8], out: &mut [u8]) -> usize
    requires { 131072 ≤ length out.old }
    ensures { (result ≡ length (printed_by E.plainly input.now)) × (out.new ≡ printed_by E.plainly input.now ++ drop result out.old) }
{
    let l = match fields::read(input) {
        Ok(l) => l,
        Err(place) => return text::put_bad(out, place),
    };
    if input[7] == 0 {
        return text::put_refused(out, 1, 0);
    }
    let mut samples = [0.0f32; 12288];
    let mut stencil = [0u8; 12288];
    let mut colours = [0u8; 256];
    let mut coords = [0.0f64; 512];
    let mut ends = [0usize; 64];
    run::answer_case::<E>(
        input,
        l,
        out,
        &mut samples,
        &mut stencil,
        &mut colours,
        &mut coords,
        &mut ends,
    )
}

// The same for any slice: one with less room than the longest text needs is left alone, and the answer is 0.
fn answer_by<E: Engine>(input: &[u8], out: &mut [u8]) -> usize
    ensures { (result ≡ length (written_by E.plainly (length out.old) input.now)) × (out.new ≡ written_by E.plainly (length out.old) input.now ++ drop result out.old) }
{
    if out.len() < 131072 {
        return 0;
    }
    answer_into::<E>(input, out)
}

// Writes what the program prints for an input into the front of `out`, and answers how many bytes that is; a slice with less room than the longest text needs is left alone, and the answer is 0.
pub fn answer(input: &[u8], out: &mut [u8]) -> usize
    ensures { (result ≡ length (written (length out.old) input.now)) × (out.new ≡ written (length out.old) input.now ++ drop result out.old) }
{
    answer_by::<First>(input, out)
}

// The same for the plain program, which judges with the plain engine and prints no tests.
pub fn answer_plainly(input: &[u8], out: &mut [u8]) -> usize
    ensures { (result ≡ length (written_plainly (length out.old) input.now)) × (out.new ≡ written_plainly (length out.old) input.now ++ drop result out.old) }
{
    answer_by::<Plain>(input, out)
}
