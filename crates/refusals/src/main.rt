// The refusals of start, resume, predict and the lone solver, by the calls over words. Standard input has a record of 36 words for each call: which
// call (0 start, 1 resume, 2 predict, 3 the solver); rows, columns; the settings; the lengths of matrix, targets, weights and scratch; the bits of a value, the first place
// that has it among the values of the call, how many have it and how far apart; the paused record; the budget. All other values are finite.
// The targets of a prediction are the slice that it writes. The solver's order stands for the rows, right side and start for targets and weights,
// limit for M. The words that a call takes and its answer make a line of the table that is printed.
#![tactic(auto)]

mod calls;
mod table;

use calls::{Lengths, called};
use std::io;
use stored::Damaged;
use stored::tally::{Compared, each_record};
use table::{Given, head};

// An error where a read or a write fails.
fn main(rt: HostRuntime) -> io::Result<()> {
    let mut input = rt.stdin();
    head(&rt)?;
    match each_record(&rt, &mut input, |w| row(&rt, w))? {
        Ok(_) => Ok(()),
        Err(damage) => println!(rt; "{damage}"),
    }
}

// More than the buffers hold counts as damage. Nothing is compared.
fn row(rt: &impl Print, w: &[u64]) -> io::Result<Result<Compared, Damaged>> {
    let Some(w) = w.as_array::<36>() else {
        return Ok(Err(Damaged(0)));
    };
    let lengths = match Lengths::read(w) {
        Ok(lengths) => lengths,
        Err(damaged) => return Ok(Err(damaged)),
    };
    let given = Given(w);
    let outcome = called(w, lengths);
    println!(rt; "{given}{outcome}")?;
    Ok(Ok(Compared([true; 4])))
}
