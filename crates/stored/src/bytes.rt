// Bytes in words: 8 to a word, the first of them highest.
ghost use Rattle.std.specs.Prelude.{◌≡◌, ◌*◌, ◌≤◌, length, IfOk};

use super::{Damaged, length_in};

pub fn words_for(n: usize) -> usize
    requires { n ≤ 65536 }
    ensures { (n ≤ 8 * result) × (result ≤ 8192) }
{
    n.div_ceil(8)
}

// The first `len` bytes of the words.
#[derive(Clone, Copy)]
pub struct Packed<'a> {
    words: &'a [u64],
    pub len: usize,
    ghost in_range: { len ≤ 8 * length words.now },
}

impl<'a> Packed<'a> {
    pub fn new(words: &'a [u64], len: usize) -> Packed<'a>
        requires { len ≤ 8 * length words.now }
        ensures { result.len ≡ len }
    {
        Packed { words, len }
    }

    // From the front of w: the number of bytes, which stands at the place `at` of its record, and the words that they stand in. Then what is left of w.
    pub fn split(w: &'a [u64], most: usize, at: u64) -> Result<(Packed<'a>, &'a [u64]), Damaged>
        requires { most ≤ 65536 }
        ensures { IfOk result (λ r. r.0.len ≤ most) }
    {
        let Some((n, w)) = w.split_first() else {
            return Err(Damaged(0));
        };
        let len = length_in(*n, most, at)?;
        let Some((words, rest)) = w.split_at_checked(words_for(len)) else {
            return Err(Damaged(0));
        };
        Ok((Packed { words, len }, rest))
    }

    // As many of them as `out` holds.
    pub fn unpack(self, out: &mut [u8]) {
        let bytes = self.words.iter().flat_map(|word| word.to_be_bytes());
        for (to, byte) in out.iter_mut().zip(bytes) {
            *to = byte;
        }
    }

    // Are these the same bytes?
    pub fn is(self, s: &[u8]) -> bool {
        let bytes = self.words.iter().flat_map(|word| word.to_be_bytes());
        s.iter().copied().eq(bytes.take(self.len))
    }

    // Do they stand in front?
    pub fn begins(self, s: &[u8]) -> bool {
        s.get(..self.len).is_some_and(|front| self.is(front))
    }
}
