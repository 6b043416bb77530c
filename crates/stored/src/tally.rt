// What the programs that go through the records of their input count and print alike. An error is that of a read or of a print.
ghost use Rattle.std.specs.Prelude.{◌≡◌, ◌<◌, ◌≤◌, length, IfOk};

use super::room::word_room;
use super::{Damaged, next_record, next_word};
use std::io::Read;
use std::{fmt, io};

// Up to four things are compared: which are as stored. Those that a program does not have are true.
#[derive(Clone, Copy, PartialEq, Eq, Debug)]
pub struct Compared(pub [bool; 4]);

impl Compared {
    // The first alone is compared.
    pub fn one(same: bool) -> Compared {
        Compared([same, true, true, true])
    }

    pub fn all(self) -> bool {
        self.0.iter().all(|same| *same)
    }

    // As stored both times.
    pub fn and(self, other: Compared) -> Compared {
        let [a, b, c, d] = self.0;
        let [e, f, g, h] = other.0;
        Compared([a && e, b && f, c && g, d && h])
    }
}

// Those that differ, counted from 1.
impl fmt::Display for Compared {
    fn fmt<W: fmt::Write>(&self, f: &mut fmt::Formatter<W>) -> fmt::Result {
        for (same, number) in self.0.iter().zip(1..5) {
            if !*same {
                write!(f, " {number}")?;
            }
        }
        Ok(())
    }
}

// Where the input is not whole: at the number of records, or at a word of a record.
#[derive(Clone, Copy, PartialEq, Eq, Debug)]
pub enum Damage {
    Count,
    Record(u64, Damaged),
}

impl fmt::Display for Damage {
    fn fmt<W: fmt::Write>(&self, f: &mut fmt::Formatter<W>) -> fmt::Result {
        match *self {
            Damage::Count => write!(f, "damaged at the number of records"),
            Damage::Record(n, Damaged(word)) => write!(f, "damaged at record {n} word {word}"),
        }
    }
}

#[derive(Clone, Copy, Debug)]
pub struct Share {
    some: u64,
    all: u64,
}

impl fmt::Display for Share {
    fn fmt<W: fmt::Write>(&self, f: &mut fmt::Formatter<W>) -> fmt::Result {
        let Share { some, all } = *self;
        write!(f, "{some} of {all}")
    }
}

// No input has 2^64 records, so that none of these counts wraps.
#[derive(Clone, Copy, Debug)]
pub struct Tally {
    pub records: u64,
    // how many are still to be read
    pub left: u64,
    // in how many each of the four things is as stored
    pub same: [u64; 4],
    // in how many all are, or not
    pub agree: u64,
    pub differ: u64,
}

impl Tally {
    fn begun(records: u64) -> Tally
        ensures { result.left ≡ records }
    {
        Tally {
            records,
            left: records,
            same: [0; 4],
            agree: 0,
            differ: 0,
        }
    }

    // So many of the records.
    pub fn share(self, some: u64) -> Share {
        Share {
            some,
            all: self.records,
        }
    }

    fn present(self) -> u64 {
        self.records.wrapping_sub(self.left)
    }

    pub fn tallied(self, seen: Compared) -> Tally
        requires { 1 ≤ self.left }
        ensures { result.left < self.left }
    {
        let [a, b, c, d] = seen.0;
        let [first, second, third, fourth] = self.same;
        let all = seen.all();
        Tally {
            left: self.left - 1,
            same: [
                more(first, a),
                more(second, b),
                more(third, c),
                more(fourth, d),
            ],
            agree: more(self.agree, all),
            differ: more(self.differ, !all),
            ..self
        }
    }
}

pub fn more(n: u64, yes: bool) -> u64 {
    n.wrapping_add(u64::from(yes))
}

// Each record is tried, and what is said of it is counted; of the first ten that differ it is printed which do.
pub fn each_record<R: Read, F: Fn(&[u64]) -> io::Result<Result<Compared, Damaged>>>(
    rt: &impl Print,
    input: &mut R,
    tried: F,
) -> io::Result<Result<Tally, Damage>>
    requires { (w : _) → length w.now ≤ 16400 → F.pre tried w }
{
    let Some(records) = next_word(input)? else {
        return Ok(Err(Damage::Count));
    };
    let mut t = Tally::begun(records);
    while t.left > 0 {
        let seen = match next(input, &tried)? {
            Ok(seen) => seen,
            Err(damaged) => return Ok(Err(Damage::Record(t.present(), damaged))),
        };
        if !seen.all() && t.differ < 10 {
            let n = t.present();
            println!(rt; "record {n} differs in{seen}")?;
        }
        t = t.tallied(seen);
    }
    Ok(Ok(t))
}

fn next<R: Read, F: Fn(&[u64]) -> io::Result<Result<Compared, Damaged>>>(
    input: &mut R,
    tried: &F,
) -> io::Result<Result<Compared, Damaged>>
    requires { (w : _) → length w.now ≤ 16400 → F.pre tried.now w }
{
    let mut w = word_room();
    match next_record(input, &mut w)? {
        Ok(n) => tried(&w[..n]),
        Err(damaged) => Ok(Err(damaged)),
    }
}
