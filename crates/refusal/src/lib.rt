// How a call ends: why an input or a fit is refused, in the order of the numbers that the refusals have; how a fit is done, and how it fails.
#![tactic(auto)]

ghost use Rattle.std.specs.Prelude.{◌≡◌};
ghost use Rattle.refusal.specs.Checks.{found_at, Near};
ghost use Rattle.refusal.specs.Refusal.{ends_fit, number_of, place_of, refused_by};
ghost use Rattle.refusal.specs.Sizes.{in_size};

use std::fmt;

#[derive(Clone, Copy, PartialEq, Eq, Debug)]
pub enum Refusal {
    Size,
    Length,
    Setting,
    Scratch,
    NotFinite(usize),
    Constant(usize),
    Search,
    Tolerance,
    Record,
    NoRounds,
    Version,
    SheetLength,
    Flags,
    Claim(usize),
    Pair(usize),
    TooLarge,
}

// How a fit is done: with converged weights, or after as many rounds as it may make.
#[derive(Clone, Copy, PartialEq, Eq, Debug)]
pub enum Way {
    Converged,
    Limit,
}

// Why a fit fails that was begun: a round's search found no step, or its solver's tolerance is at or below 0.
#[derive(Clone, Copy, PartialEq, Eq, Debug)]
pub enum Failure {
    Search,
    Tolerance,
}

// Its number, from 1 to 16, which callers in C and Rust see.
pub fn number(r: Refusal) -> u64
    ensures { result ≡ number_of r }
{
    match r {
        Refusal::Size => 1,
        Refusal::Length => 2,
        Refusal::Setting => 3,
        Refusal::Scratch => 4,
        Refusal::NotFinite(_) => 5,
        Refusal::Constant(_) => 6,
        Refusal::Search => 7,
        Refusal::Tolerance => 8,
        Refusal::Record => 9,
        Refusal::NoRounds => 10,
        Refusal::Version => 11,
        Refusal::SheetLength => 12,
        Refusal::Flags => 13,
        Refusal::Claim(_) => 14,
        Refusal::Pair(_) => 15,
        Refusal::TooLarge => 16,
    }
}

// Where the input is at fault: the index of a value, a column or a row; 0 for a refusal that has no place.
pub fn place(r: Refusal) -> usize
    ensures { result ≡ place_of r }
{
    match r {
        Refusal::NotFinite(i) | Refusal::Constant(i) | Refusal::Claim(i) | Refusal::Pair(i) => i,
        _ => 0,
    }
}

// As the programs print it.
impl fmt::Display for Refusal {
    fn fmt<W: fmt::Write>(&self, f: &mut fmt::Formatter<W>) -> fmt::Result {
        write!(f, "refused {} at {}", number(*self), place(*self))
    }
}

impl fmt::Display for Way {
    fn fmt<W: fmt::Write>(&self, f: &mut fmt::Formatter<W>) -> fmt::Result {
        match self {
            Way::Converged => write!(f, "converged"),
            Way::Limit => write!(f, "limit"),
        }
    }
}

// The refusal that a failed fit ends with.
impl From<Failure> for Refusal {
    ghost from_gives = { λ f r. r ≡ refused_by f };

    fn from(f: Failure) -> Refusal {
        match f {
            Failure::Search => Refusal::Search,
            Failure::Tolerance => Refusal::Tolerance,
        }
    }
}

// Whether it ends a fit that was begun. Every other one leaves record, weights and scratch as they were.
pub fn ends_fit(r: Refusal) -> bool
    ensures { result ≡ ends_fit (number_of r) }
{
    matches!(r, Refusal::Search | Refusal::Tolerance)
}

// The ranges of rows and columns, 1 to 4,096 and 1 to 64, which refusal 1 asks of every call.
pub fn in_size(n: usize, p: usize) -> bool
    ensures { result ≡ in_size n p }
{
    1 <= n && n <= 4096 && 1 <= p && p <= 64
}

// A scan's find as refusal 5, its place counted from `from`, since several slices count as one. None where the scan found nothing.
pub fn at(f: Option<usize>, from: usize) -> Result<(), Refusal>
    requires { Near f from }
    ensures { result ≡ found_at f from }
{
    match f {
        Some(i) => Err(Refusal::NotFinite(from + i)),
        None => Ok(()),
    }
}
