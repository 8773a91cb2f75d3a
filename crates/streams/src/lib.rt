// Reading a stream into room of a fixed size.
#![tactic(auto)]

ghost use Rattle.std.specs.Prelude.{◌≡◌, IfOk, IfSome, length, take};
ghost use Rattle.std.specs.Io.{ReadsAtMost};

use std::io;
use std::io::Read;

// Reads until `room` is full or the input ends, and answers how many bytes that put at its front.
// How far a turn comes is the reader's to say, so no range counts the turns.
pub fn read_full<R: Read>(input: &mut R, room: &mut [u8]) -> io::Result<usize>
    ensures count { ReadsAtMost result room.new }
    ensures bytes { IfOk result (λ n. IfSome (R.remaining input.old) (λ xs. take n room.new ≡ take (length room.old) xs)) }
{
    let mut done = 0;
    while done < room.len() {
        let n = input.read(&mut room[done..])?;
        if n == 0 {
            break;
        }
        done += n;
    }
    Ok(done)
}
