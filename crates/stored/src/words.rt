// Words of stored answers: 16 lowercase hexadecimal digits and, after them, a space or a newline.
ghost use Rattle.std.specs.Prelude.{◌≡◌, ◌<◌, ◌≤◌, length, IfSome};
ghost use Rattle.stored.specs.Words.{digit_of, ends_word, hex_from, word_at};
ghost use Rattle.stored.specs.Runs.{RunRead};

// As many words of s as `out` holds, up to the first one that is bad: then its place, from 0.
pub fn read_words(s: &[u8], out: &mut [u64]) -> Result<(), usize>
    ensures { RunRead s.now (length out.old) out.old result out.new }
{
    for (i, x) in out.iter_mut().enumerate() {
        let word = read_word(s, 17 * i).ok_or(i)?;
        *x = word;
    }
    Ok(())
}

// None where it is bad, or s ends before the word does.
pub fn read_word(s: &[u8], at: usize) -> Option<u64>
    ensures { result ≡ word_at s.now at }
{
    if s.len() < 17 || s.len() - 17 < at {
        return None;
    }
    if ends_word(s[at + 16]) {
        number(&s[at..at + 16])
    } else {
        None
    }
}

fn number(digits: &[u8]) -> Option<u64>
    requires { length digits.now ≤ 16 }
    ensures { result ≡ hex_from 0 digits.now }
{
    let mut n = 0;
    for b in digits {
        n = n * 16 + digit(*b)?;
    }
    Some(n)
}

#[tactic(auto, unfolding(crate::specs::Words::digit_of))]
fn digit(b: u8) -> Option<u64>
    ensures value { result ≡ digit_of b }
    ensures bound { IfSome result (λ d. d < 16) }
{
    match b {
        b'0'..=b'9' => Some((b - b'0') as u64),
        b'a'..=b'f' => Some((b - b'a') as u64 + 10),
        _ => None,
    }
}

#[tactic(auto, unfolding(crate::specs::Words::ends_word))]
fn ends_word(b: u8) -> bool
    ensures { result ≡ ends_word b }
{
    b == b' ' || b == b'\n'
}
