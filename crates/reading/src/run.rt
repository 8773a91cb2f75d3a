// The case through the pass, and what is printed of it.
ghost use Rattle.std.specs.Prelude.{◌≡◌, ◌≤◌, ◌<◌, length};
ghost use Rattle.ground.specs.Lists.{tab};
ghost use Rattle.ground.specs.Write.{Written};
ghost use Rattle.inputs.specs.Checks.{input};
ghost use Rattle.reading.specs.Answer as Answers;
ghost use Rattle.reading.specs.Case.{mode_of};
ghost use Rattle.reading.specs.Grammar.{channels};
ghost use Rattle.reading.specs.Inner as Inner;

use crate::engines::Engine;
use crate::fields::Layout;
use crate::{decode, text};
use ground::bytes;
use inputs::sizes::Bitmap;
use ranges::config::Settings;

// The settings field.
fn settings(s: &[u8]) -> Settings
    ensures { result ≡ Answers.settings_of s.now }
{
    Settings {
        ratio: bytes::f64_at(s, 12),
        horizontal: bytes::f64_at(s, 20),
        vertical: bytes::f64_at(s, 28),
        diagonal: bytes::f64_at(s, 36),
    }
}

// The samples, copied to the front of `out`.
fn keep(xs: &[f32], out: &mut [f32]) -> usize
    requires { length xs.now ≤ length out.old }
    ensures { Written out.old 0 xs.now result out.new }
{
    out[..xs.len()].copy_from_slice(xs);
    xs.len()
}

// The pass on a decoded case, by either engine, with the mode and the settings of the input s. The medians are printed of the samples as they came in.
fn run<E: Engine>(
    out: &mut [u8],
    s: &[u8],
    b: Bitmap,
    samples: &mut [f32],
    stencil: &mut [u8],
    colours: &[u8],
    coords: &[f64],
    ends: &[usize],
) -> usize
    requires { (131072 ≤ length out.old) × (length samples.old ≤ 12288) × (11 < length s.now) }
    ensures { Written out.old 0 (Inner.judged_text (input b.width b.height b.channels samples.old stencil.old Answers.lent_room (mode_of s.now) (Answers.settings_of s.now) colours.now coords.now ends.now) (Inner.judged E.plainly (input b.width b.height b.channels samples.old stencil.old Answers.lent_room (mode_of s.now) (Answers.settings_of s.now) colours.now coords.now ends.now))) result out.new }
{
    let mut kept = [0.0f32; 12288];
    let mut room = [0.0f32; 8192];
    let n = keep(samples, &mut kept);
    match E::judge(
        b,
        samples,
        stencil,
        &mut room,
        s[11],
        settings(s),
        colours,
        coords,
        ends,
    ) {
        Ok(j) => text::put_accepted(out, b, j.counts, j.tests, stencil, &kept[..n]),
        Err(r) => text::put_refused(out, r.number() as usize, r.place()),
    }
}

// Zeros in the first n cells.
fn clear(out: &mut [u8], n: usize) -> usize
    requires { n ≤ length out.old }
    ensures { Written out.old 0 (tab n (λ k. 0)) result out.new × (result ≡ n) }
{
    out[..n].fill(0);
    n
}

// A well formed input, laid out as l says, decoded into what is lent.
pub fn answer_case<E: Engine>(
    s: &[u8],
    l: Layout,
    out: &mut [u8],
    samples: &mut [f32],
    stencil: &mut [u8],
    colours: &mut [u8],
    coords: &mut [f64],
    ends: &mut [usize],
) -> usize
    requires whole { Inner.Whole s.now l.rows l.contours l.segments }
    requires room { (131072 ≤ length out.old) × (0 < channels s.now) }
    requires lent { Inner.Lent samples.old stencil.old colours.old coords.old ends.old }
    ensures { Written out.old 0 (Inner.judged_text (Answers.case_of s.now) (Inner.judged E.plainly (Answers.case_of s.now))) result out.new }
{
    let b = Bitmap {
        width: bytes::be16(s, 3),
        height: bytes::be16(s, 5),
        channels: s[7] as usize,
    };
    let k = l.contours;
    let n = l.segments;
    let a = decode::decode_samples(s, l.rows, b.height, b.width * b.channels, samples);
    let c = clear(stencil, b.width * b.height);
    decode::decode_outline(s, l.rows, k, n, colours, coords, ends);
    run::<E>(
        out,
        s,
        b,
        &mut samples[..a],
        &mut stencil[..c],
        &colours[..n],
        &coords[..2 * n],
        &ends[..k],
    )
}
