// IEEE 754 squareRoot of an f64, to nearest, in whole numbers: one bit of the result after the other, as long division gives digits.
ghost use Rattle.std.specs.Prelude.{◌≡◌, ◌-◌, ◌^◌, ◌≤◌, ◌<◌};
ghost use Rattle.numbers.specs.Root.{root_of};
ghost use Rattle.numbers.specs.Nearest.{Nearest, Half, RootBits};
ghost use Rattle.numbers.specs.Digits.{Workable, next_bit};

use super::normal::normalised;

// A pattern's sign: a number whose pattern is from here on is below zero, or -0.
const SIGN: u64 = 0x8000_0000_0000_0000;

// The pattern of +infinity; the finite ones above zero lie below it.
const INFINITY: u64 = 0x7ff0_0000_0000_0000;

// 2^52: one step of a pattern's exponent, and the least number of 53 bits.
const TWO_52: u64 = 0x10_0000_0000_0000;

// `normalised` counts its power from 2^-1127: the smallest double, 2^-1074, is 2^52 * 2^(1 - 1127). `half` counts from 2^-2098, as it says there.
const BIAS: u64 = 2098 - 1127;

// Both zeros and +infinity are their own roots; below 0, and of a NaN, it is a NaN.
pub fn root(x: f64) -> f64
    ensures { result ≡ root_of x }
{
    if x != x {
        return 0.0 / 0.0; // of a NaN: nothing else differs from itself
    }
    let bits = f64::to_bits(x);
    if bits % SIGN == 0 {
        return x; // +0 or -0
    }
    if bits >= SIGN {
        return 0.0 / 0.0; // of a number below zero
    }
    if bits >= INFINITY {
        return x; // +infinity
    }
    f64::from_bits(root_bits(bits))
}

// The pattern of the root of the pattern `bits`, which is above zero and finite.
fn root_bits(bits: u64) -> u64
    requires bits_nonzero { 0 < bits }
    requires bits_bound { bits < 0x7ff0_0000_0000_0000 }
    ensures { RootBits bits result }
{
    let n = normalised(bits);
    half(n.power + BIAS, n.digits)
}

// The pattern of the root of digits * 2^(b - 2098): half the power of two, and of an odd one the digits take a factor of two.
fn half(b: u64, digits: u64) -> u64
    requires bound { 2 ^ 52 ≤ digits }
    requires digits_bound { digits < 2 ^ 53 }
    requires le_b { 972 ≤ b }
    requires b_bound { b ≤ 3069 }
    ensures { Half b digits result }
{
    // Where r has 53 bits, the pattern e * 2^52 + r stands for r * 2^(e - 1074). With r the root of m * 2^52 the square of that is m * 2^52 * 2^(2e - 2148),
    // which is m * 2^(2e + 2 - 2098): so 2e + 2 is b, or b - 1 with m twice the digits. A power of 1 to 2098 makes b 972 to 3069.
    let e = b / 2 - 1;
    if b % 2 == 1 {
        return e * TWO_52 + nearest_root(digits * 2);
    }
    e * TWO_52 + nearest_root(digits)
}

// A root on its way. As in long division it is worked from the top, here bit by bit, and for each bit the argument's next pair of bits is brought down.
#[derive(Clone, Copy)]
struct Digits {
    // the bits of the result so far
    root: u64,
    // what is left of the pairs so far, with root * root taken off
    remainder: u64,
    // the bits of the argument that are still to come, the next pair at 2^53 and 2^52
    ahead: u64,
}

// The next bit of the result: 1 where the trial can be taken off the remainder, else 0. The trial is what a 1 adds to the square:
// (2 root + 1)^2 is (2 root)^2 + (4 root + 1). An example, the root of 2, which is 1.01101.. in binary. The argument's pairs are 10 00 00 00 00 00. A pair is
// brought down behind the remainder of the line above: 4 times that, plus the pair. The trial is 4 times the root of the line above, plus 1. The roots are
// written in binary, all other numbers in decimal.
//
//     brought down  trial  bit  root so far  remainder
//                2      1    1            1          1
//                4      5    0           10          4
//               16      9    1          101          7
//               28     21    1         1011          7
//               28     45    0        10110         28
//              112     89    1       101101         23
fn next_bit(w: Digits) -> Digits
    requires { Workable w }
    ensures { result ≡ next_bit w }
{
    let remainder = w.remainder * 4 + w.ahead / TWO_52; // bring down two bits of the argument
    let ahead = w.ahead % TWO_52 * 4; // the bits behind them move up
    let trial = w.root * 4 + 1; // (2 root + 1)^2 - (2 root)^2
    if trial <= remainder {
        return Digits {
            root: w.root * 2 + 1,
            remainder: remainder - trial,
            ahead,
        };
    }
    Digits {
        root: w.root * 2,
        remainder,
        ahead,
    }
}

// The whole number nearest to the root of m * 2^52. It has 53 bits, and one more is worked, by which it is rounded: a 1 says that the root lies above the point
// half way between two whole numbers. It never lies on it: with that bit the argument is m * 2^54, an even number, and the square of an odd number is odd.
// None is rounded up to 2^53, since m has 53 bits or is twice such a number, so that it is at most 2^54 - 2.
fn nearest_root(m: u64) -> u64
    requires bound { 2 ^ 52 ≤ m }
    requires m_bound { m < 2 ^ 54 - 1 }
    ensures { Nearest m result }
{
    let mut w = Digits {
        root: 0,
        remainder: 0,
        ahead: m,
    };
    for bit in 0u64..54 {
        w = next_bit(w);
    }
    (w.root + 1) / 2 // a 1 at the end rounds up, a 0 is dropped
}
