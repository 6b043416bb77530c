// Memory to lend, to see afterwards what was written: at each place a finite number of its own, but for one value that may stand at some places.
use super::bits::all;
use numbers::bits::{bits_of, of_bits};

// A word to fill lent words with, which no record and no answer has.
pub const MARK: u64 = 0x1234_5678_9abc_def0;

// The value's bits, the first place that has it, how many have it, and how far apart these are; no place by default.
#[derive(Clone, Copy, Default)]
pub struct Spoilt {
    pub value: u64,
    pub from: usize,
    pub times: usize,
    pub apart: usize,
}

impl Spoilt {
    fn has(self, i: usize) -> bool {
        self.from <= i
            && self.apart > 0
            && (i - self.from) % self.apart == 0
            && (i - self.from) / self.apart < self.times
    }
}

// The marks of a slice, whose places are those from `first` on. They stay far below 2^64, so that no sum here wraps.
#[derive(Clone, Copy, Default)]
pub struct Marks {
    pub first: usize,
    pub spoilt: Spoilt,
}

impl Marks {
    // The marks behind the n in front.
    pub fn behind(self, n: usize) -> Marks {
        Marks {
            first: self.first.wrapping_add(n),
            ..self
        }
    }

    pub fn fill(self, s: &mut [f64]) {
        for (i, x) in s.iter_mut().enumerate() {
            *x = self.number_at(i);
        }
    }

    pub fn kept(self, s: &[f64]) -> bool {
        self.written(s) == 0
    }

    // The n words in front are +0, and those behind them as they were.
    pub fn cleared(self, s: &[f64], n: usize) -> bool {
        s.split_at_checked(n)
            .is_some_and(|(front, rest)| all(front, 0) && self.behind(n).kept(rest))
    }

    // One more than the last index whose number is another than `fill` left; 0 where there is none.
    pub fn written(self, s: &[f64]) -> usize {
        s.iter()
            .enumerate()
            .rposition(|(i, x)| bits_of(*x) != self.bits_at(i))
            .map_or(0, |i| i + 1)
    }

    pub fn number_at(self, i: usize) -> f64 {
        of_bits(self.bits_at(i))
    }

    // A mark is 2 + i / 32768: a column of them is not constant.
    fn bits_at(self, i: usize) -> u64 {
        let i = self.first.wrapping_add(i);
        if self.spoilt.has(i) {
            self.spoilt.value
        } else {
            0x4000_0000_0000_0000 + (i % 65536) as u64 * 0x10_0000_0000
        }
    }
}
