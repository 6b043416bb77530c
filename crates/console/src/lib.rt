// Standard input in blocks.
#![tactic(auto)]

ghost use Rattle.std.specs.Prelude.{◌≡◌, ◌≢◌, ℕ, IfOk, IfErr, length, take, ◌<◌, ◌≤◌};
ghost use Rattle.std.specs.Io.{ReadsAtMost};
ghost use Rattle.std.specs.Io.KnownBytes.{Consumes, IsAtEnd};

use std::io;
use std::io::Read;

// Reads until buf is full or the input ends, and returns how many bytes it put at the start of buf. On an empty buf it makes no call. An error is the
// read's own, and what the input has lost by then stands at the start of buf.
pub fn read_full<R: Read>(input: &mut R, buf: &mut [u8]) -> io::Result<usize>
    ensures in_bounds { ReadsAtMost result buf.new }
    ensures bytes { IfOk result (λ n. Consumes (R.remaining input.old) (R.remaining input.new) (take n buf.new)) }
    ensures end { IfOk result (λ n. n < length buf.old → IsAtEnd (R.remaining input.new)) }
    ensures err { IfErr result (λ e. length buf.new ≡ length buf.old) }
    ensures lost { IfErr result (λ e. (n : ℕ) × (n ≤ length buf.new)
        × Consumes (R.remaining input.old) (R.remaining input.new) (take n buf.new)) }
{
    let mut done = 0;
    while done < buf.len() {
        let n = input.read(&mut buf[done..])?;
        if n == 0 {
            break;
        }
        done += n;
    }
    Ok(done)
}
