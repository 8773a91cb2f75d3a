// Replays the fixed list of cases, from standard input, through both engines of the pass, and says how many differ from their answers. tests/fixed/README.md has the format.
#![tactic(auto)]

ghost use Rattle.std.specs.Prelude.{◌+◌, ◌≤◌, length, IfOk};

mod answer;
mod case;
mod number;

use case::{Case, First, Plain};
use ground::bytes;
use std::io;

// So many of the cases that differ are named.
const NAMED: u64 = 5;

// Names a case that differs, by the first engine or by the plain one, while few do, and counts it.
fn judge(
    rt: &impl Print,
    is_same: bool,
    is_plain_same: bool,
    number: u64,
    differ: u64,
) -> io::Result<u64>
    requires { (differ ≤ number) × (number ≤ 262144) }
    ensures { IfOk result (λ counted. counted ≤ number + 1) }
{
    if is_same && is_plain_same {
        return Ok(differ);
    }
    if differ < NAMED {
        let by = if is_same {
            " by the plain engine alone"
        } else {
            ""
        };
        println!(rt; "case {number} differs{by}")?;
    }
    Ok(differ + 1)
}

fn total(rt: &impl Print, cases: u64, differ: u64) -> io::Result<()> {
    println!(rt; "{cases} cases by both engines, {differ} differ")
}

// How many cases the list says it holds, up to more than there is room for.
fn said(list: &[u8]) -> u64
    ensures { result ≤ 262144 }
{
    bytes::be64(list, 0).min(262144)
}

// Whether every case was run, and the list ends there.
fn is_whole(number: u64, cases: u64, at: usize, end: usize) -> bool {
    number == cases && at == end
}

// Runs the cases in order, up to one that is cut off or too large. A list that ends elsewhere than after its last case counts as one that differs.
// The cases are counted by hand: how many were run is told afterwards, which a range that is left early would not say.
fn replay(rt: &impl Print, list: &[u8]) -> io::Result<()>
    requires { length list.now ≤ 262144 }
{
    let cases = said(list);
    let mut at = 8usize;
    let mut number = 0u64;
    let mut differ = 0u64;
    while number < cases {
        let c = Case::read(list, at);
        let next = c.end();
        if !c.has_room(next, list.len()) {
            break;
        }
        differ = judge(
            rt,
            case::is_same::<First>(list, c),
            case::is_same::<Plain>(list, c),
            number,
            differ,
        )?;
        number += 1;
        at = next;
    }
    differ = judge(
        rt,
        is_whole(number, cases, at, list.len()),
        true,
        number,
        differ,
    )?;
    total(rt, number, differ)
}

// A list that is longer than the room is cut off.
fn main(rt: HostRuntime) -> io::Result<()> {
    let mut room = [0u8; 262144];
    let n = streams::read_full(&mut rt.stdin(), &mut room)?;
    replay(&rt, &room[..n])
}
