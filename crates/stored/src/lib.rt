// Records from an input: words, of which the first is the number of records, and a record is its length in words and the words. These
// go to a buffer that the caller lends.
#![tactic(auto)]

pub mod bits;
pub mod bytes;
pub mod memory;
pub mod room;
pub mod tally;
mod words;

ghost use Rattle.std.specs.Prelude.{◌≡◌, ◌≤◌, length, IfOk, IfErr};

use console::read_full;
use std::io;
use std::io::Read;
use words::{read_word, read_words};

// Where a record is not whole: the place of the first word that is bad, or missing; word 0 is the length, which is bad too where the buffer is shorter.
#[derive(Clone, Copy, PartialEq, Eq, Debug)]
pub struct Damaged(pub u64);

// A word of a record as a length of at most `most`; it stands at the place `at`.
pub fn length_in(word: u64, most: usize, at: u64) -> Result<usize, Damaged>
    ensures { IfOk result (λ n. n ≤ most) }
{
    let n = word as usize;
    if n <= most { Ok(n) } else { Err(Damaged(at)) }
}

// From the front of w: a number, which stands at the place `at` of its record, and as many words. Then what is left of w.
pub fn counted(w: &[u64], most: usize, at: u64) -> Result<(&[u64], &[u64]), Damaged>
    ensures { IfOk result (λ r. length r.0.now ≤ most) }
{
    let Some((n, w)) = w.split_first() else {
        return Err(Damaged(0));
    };
    let n = length_in(*n, most, at)?;
    w.split_at_checked(n).ok_or(Damaged(0))
}

fn next_word<R: Read>(input: &mut R) -> io::Result<Option<u64>> {
    let mut bytes = [0u8; 17];
    let n = read_full(input, &mut bytes)?;
    Ok(read_word(&bytes[..n], 0))
}

// How many words the record has, which stand at the front of the buffer, or where it is not whole. An error is a read's own, and leaves `out` as long as it was.
pub fn next_record<R: Read>(input: &mut R, out: &mut [u64]) -> io::Result<Result<usize, Damaged>>
    ensures ok { IfOk result (λ r. IfOk r (λ words. words ≤ length out.new)) }
    ensures err { IfErr result (λ e. length out.new ≡ length out.old) }
{
    let Some(n) = next_word(input)? else {
        return Ok(Err(Damaged(0)));
    };
    let n = n as usize;
    if n > out.len() {
        return Ok(Err(Damaged(0)));
    }
    let filled = fill(input, &mut out[..n])?;
    Ok(match filled {
        Ok(()) => Ok(n),
        Err(i) => Err(Damaged((i as u64).wrapping_add(1))),
    })
}

// The next words, as many at a time as `some` has room for; or the place of the first that is bad. It is below the length, so that no sum here and above wraps.
fn fill<R: Read>(input: &mut R, out: &mut [u64]) -> io::Result<Result<(), usize>> {
    let mut at = 0usize;
    for part in out.chunks_mut(240) {
        if let Err(i) = some(input, part)? {
            return Ok(Err(at.wrapping_add(i)));
        }
        at = at.wrapping_add(part.len());
    }
    Ok(Ok(()))
}

fn some<R: Read>(input: &mut R, out: &mut [u64]) -> io::Result<Result<(), usize>>
    requires { length out.old ≤ 240 }
{
    let mut bytes = [0u8; 4096];
    let n = read_full(input, &mut bytes[..17 * out.len()])?;
    Ok(read_words(&bytes[..n], out))
}
