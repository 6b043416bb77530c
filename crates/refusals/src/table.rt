// The table that is printed.
ghost use Rattle.std.specs.Prelude.{◌≤◌};

use super::calls::Call;
use std::{fmt, io};

pub fn head(rt: &impl Print) -> io::Result<()> {
    println!(rt;
        "start n p alpha l1_ratio tol M R C normalise lazy matrix targets scratch value from times apart answer"
    )?;
    println!(rt;
        "resume n p alpha l1_ratio tol M R C normalise lazy matrix targets weights scratch value from times apart stage index round rounds solver trials budget answer"
    )?;
    println!(rt; "predict n p matrix out weights value from times apart answer")?;
    println!(rt;
        "solve order tolerance limit matrix right start scratch value from times apart answer"
    )
}

// The words that a call takes.
#[derive(Clone, Copy)]
pub struct Given<'a>(pub &'a [u64; 36]);

impl fmt::Display for Given<'_> {
    fn fmt<W: fmt::Write>(&self, f: &mut fmt::Formatter<W>) -> fmt::Result {
        match Call::from(self.0[0]) {
            Call::Start => {
                write!(f, "start ")?;
                self.columns(f, 1, 13)?;
                self.columns(f, 14, 19)
            }
            Call::Resume => {
                write!(f, "resume ")?;
                self.columns(f, 1, 25)?;
                self.columns(f, 35, 36)
            }
            Call::Predict => {
                write!(f, "predict ")?;
                self.columns(f, 1, 3)?;
                self.columns(f, 11, 14)?;
                self.columns(f, 15, 19)
            }
            Call::Solve => {
                write!(f, "solve ")?;
                self.columns(f, 1, 2)?;
                self.columns(f, 5, 7)?;
                self.columns(f, 11, 19)
            }
        }
    }
}

impl Given<'_> {
    // The first three settings and the value are bits.
    fn columns<W: fmt::Write>(
        self,
        f: &mut fmt::Formatter<W>,
        from: usize,
        to: usize,
    ) -> fmt::Result
        requires { to ≤ 36 }
    {
        for i in from..to {
            let n = self.0[i];
            match i {
                3..=5 | 15 => write!(f, "{n:016x} ")?,
                _ => write!(f, "{n} ")?,
            }
        }
        Ok(())
    }
}

// What a call came to. A number is one more than the last place that it wrote to in the scratch, or in the predictions.
#[derive(Clone, Copy)]
pub enum Outcome {
    Ready(usize),
    Pending {
        nothing: bool,
    },
    Converged(usize),
    Limit(usize),
    Predicted(usize),
    Solved {
        cleared: bool,
    },
    Refused {
        number: u64,
        place: u64,
        nothing: bool,
    },
    NoKind,
}

impl fmt::Display for Outcome {
    fn fmt<W: fmt::Write>(&self, f: &mut fmt::Formatter<W>) -> fmt::Result {
        match *self {
            Outcome::Ready(n) => write!(f, "ready, written up to {n}"),
            Outcome::Pending { nothing } => {
                let what = what(nothing);
                write!(f, "pending, {what} written")
            }
            Outcome::Converged(n) => write!(f, "ended converged, written up to {n}"),
            Outcome::Limit(n) => write!(f, "ended limit, written up to {n}"),
            Outcome::Predicted(n) => write!(f, "predicted, written up to {n}"),
            Outcome::Solved { cleared: true } => write!(f, "solved, scratch cleared"),
            Outcome::Solved { cleared: false } => write!(f, "solved, scratch not cleared"),
            Outcome::Refused {
                number,
                place,
                nothing,
            } => {
                let what = what(nothing);
                write!(f, "refused {number} at {place}, {what} written")
            }
            Outcome::NoKind => write!(f, "an answer of no kind"),
        }
    }
}

fn what(nothing: bool) -> &'static str {
    if nothing { "nothing" } else { "something" }
}
