// Reads until a space is full.
#![tactic(auto)]

ghost use Rattle.std.specs.Prelude.{◌≡◌, ◌<◌, ◌≤◌, length, take, IfOk};
ghost use Rattle.std.specs.Io.KnownBytes.{Consumes, IsAtEnd};

use std::io;
use std::io::Read;

/// Reads until the space is full or the input ends, and says how many bytes were read. A read that fails ends it: no byte then counts.
pub fn read_full<R: Read>(input: &mut R, space: &mut [u8]) -> io::Result<usize>
    ensures within { IfOk result (λ n. n ≤ length space.new) }
    ensures in_order { IfOk result (λ n. Consumes (R.remaining input.old) (R.remaining input.new) (take n space.new)) }
    ensures to_the_end { IfOk result (λ n. n < length space.new → IsAtEnd (R.remaining input.new)) }
{
    // A loop of its own: there is no heap for the library's read_to_end, and its read_exact does not say how much was read.
    let mut done = 0;
    while done < space.len() {
        let more = input.read(&mut space[done..])?;
        if more == 0 {
            break;
        }
        done += more;
    }
    Ok(done)
}
