// The lines of an answer, written into a lent slice, so that one program can print many.
#![tactic(auto)]

ghost use Rattle.std.specs.Prelude.{◌≡◌, ◌+◌, ◌≤◌, ◌<◌, length};
ghost use Rattle.answer_text.specs.Text.{Wrote, Written.written, digit_of, hex_of, decimal_from};
ghost use Rattle.answer_text.specs.Text.{count_text, word_text, end_text, counts_text, weight_text, weights_text, done_of, refused_of};

use refusal::Way;

// The byte of a digit: 0 to 9, then a to f.
#[tactic(auto, unfolding(crate::specs::Text::digit_of))]
fn digit(d: u64) -> u8
    requires { d < 16 }
    ensures { result ≡ digit_of d }
{
    if d < 10 {
        b'0' + d as u8
    } else {
        b'a' + (d - 10) as u8
    }
}

// Writes s from `at` on and answers the place behind it, as every writer here does.
fn text(out: &mut [u8], at: usize, s: &[u8]) -> usize
    requires { at + length s.now ≤ length out.old }
    ensures { Wrote out.old at s.now result out.new }
{
    let end = at + s.len();
    out[at..end].copy_from_slice(s);
    end
}

// n in k hexadecimal digits, with zeros in front; of a longer number the last k.
fn hex(out: &mut [u8], at: usize, k: usize, n: u64) -> usize
    requires { at + k ≤ length out.old }
    ensures { Wrote out.old at (hex_of k n) result out.new }
{
    if k == 0 {
        return at;
    }
    let a = hex(out, at, k - 1, n / 16);
    out[a] = digit(n % 16);
    a + 1
}

// n in decimal, with no zeros in front; of a number with more than k digits the last k. 20 are enough for every u64.
fn decimal(out: &mut [u8], at: usize, k: usize, n: u64) -> usize
    requires { at + k ≤ length out.old }
    ensures { Wrote out.old at (decimal_from k n) result out.new }
{
    if k == 0 {
        return at;
    }
    if n < 10 {
        out[at] = digit(n);
        return at + 1;
    }
    let a = decimal(out, at, k - 1, n / 10);
    out[a] = digit(n % 10);
    a + 1
}

fn count(out: &mut [u8], at: usize, label: &[u8], n: u64) -> usize
    requires { at + length label.now + 20 ≤ length out.old }
    ensures { Wrote out.old at (count_text label.now n) result out.new }
{
    let a = text(out, at, label);
    decimal(out, a, 20, n)
}

// A label, the 16 digits of x, and the end of the line.
fn word(out: &mut [u8], at: usize, label: &[u8], x: u64) -> usize
    requires { at + length label.now + 17 ≤ length out.old }
    ensures { Wrote out.old at (word_text label.now x) result out.new }
{
    let a = text(out, at, label);
    let b = hex(out, a, 16, x);
    text(out, b, b"\n")
}

#[tactic(auto, unfolding(crate::specs::Text::end_text))]
fn end(out: &mut [u8], at: usize, e: Way) -> usize
    requires { at + 16 ≤ length out.old }
    ensures { Wrote out.old at (end_text e) result out.new }
{
    match e {
        Way::Converged => text(out, at, b"ended converged\n"),
        Way::Limit => text(out, at, b"ended limit\n"),
    }
}

fn counts(out: &mut [u8], at: usize, rounds: u64, solver: u64, trials: u64) -> usize
    requires { at + 84 ≤ length out.old }
    ensures { Wrote out.old at (counts_text rounds solver trials) result out.new }
{
    let a = count(out, at, b"rounds ", rounds);
    let b = count(out, a, b" solver ", solver);
    let c = count(out, b, b" trials ", trials);
    text(out, c, b"\n")
}

// The line of column j: its number, and its weight's bits.
fn weight(out: &mut [u8], at: usize, j: usize, x: u64) -> usize
    requires { at + 40 ≤ length out.old }
    ensures { Wrote out.old at (weight_text j x) result out.new }
{
    let a = count(out, at, b"w ", j as u64);
    word(out, a, b" ", x)
}

// Every line has 22 bytes at most, since a column below 100 has two digits; `weight` asks for 40.
fn weights(out: &mut [u8], at: usize, w: &[u64]) -> usize
    requires at_in_bounds { at + 1426 ≤ length out.old }
    requires w_len_bound { length w.now ≤ 64 }
    ensures { Wrote out.old at (weights_text w.now (length w.now)) result out.new }
{
    let mut a = at;
    for (j, x) in w.iter().enumerate() {
        a = weight(out, a, j, *x);
    }
    a
}

// Writes the lines of a fit that is done at the front of `out` and answers their length. With more than 64 weights or fewer than 2,048 bytes it
// writes nothing and answers 0.
#[tactic(auto, unfolding(crate::specs::Text::done_of, crate::specs::Text::laid))]
pub fn write_done(
    out: &mut [u8],
    e: Way,
    rounds: u64,
    solver: u64,
    trials: u64,
    intercept: u64,
    w: &[u64],
) -> usize
    ensures { written result out.new ≡ done_of e rounds solver trials intercept w.now out.old }
{
    if w.len() > 64 || out.len() < 2048 {
        return 0;
    }
    let a = end(out, 0, e);
    let b = counts(out, a, rounds, solver, trials);
    let c = word(out, b, b"intercept ", intercept);
    weights(out, c, w)
}

// Writes the line of a refusal in the same way. It is shorter, but asks for the same 2,048 bytes, so that one size serves every answer.
pub fn write_refused(out: &mut [u8], number: u64, place: u64) -> usize
    ensures { written result out.new ≡ refused_of number place out.old }
{
    if out.len() < 2048 {
        return 0;
    }
    let a = count(out, 0, b"refused ", number);
    let b = count(out, a, b" at ", place);
    text(out, b, b"\n")
}
