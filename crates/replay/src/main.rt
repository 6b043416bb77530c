// Replays stored answers, kind by kind, and compares them bit for bit. Of each kind standard input has the number of its records, and the records.
// A record is its kind, how many words stand before its numbers, how many of these are the first of two parts, and then what its trial is given
// (crates `replay_parts`, `replay_fits`, `replay_moves` and `replay_sheets`): words, and the bits of numbers.
#![tactic(auto)]

ghost use Rattle.std.specs.Prelude.{◌≤◌, length};

use replay_fits::{designs, fits};
use replay_moves::{moves, writings};
use replay_parts::{functions, predictions, solver};
use replay_sheets::sheets;
use std::io;
use std::io::Read;
use stored::bits::load;
use stored::room::number_room;
use stored::tally::{Compared, Tally, each_record};
use stored::{Damaged, length_in};

#[derive(Clone, Copy)]
enum Kind {
    Fit = 1,
    Solver = 2,
    Prediction = 3,
    Design = 4,
    Sheet = 5,
    Root = 6,
    Logarithm = 7,
    // a sheet in both versions
    Both = 8,
    Move = 9,
    Writing = 10,
}

// An error where a read or a write fails.
fn main(rt: HostRuntime) -> io::Result<()> {
    let mut input = rt.stdin();
    let kinds = [
        Kind::Root,
        Kind::Logarithm,
        Kind::Solver,
        Kind::Design,
        Kind::Fit,
        Kind::Prediction,
        Kind::Both,
        Kind::Sheet,
        Kind::Move,
        Kind::Writing,
    ];
    for kind in kinds {
        section(&rt, &mut input, kind)?;
    }
    Ok(())
}

fn section<R: Read>(rt: &impl Print, input: &mut R, kind: Kind) -> io::Result<()> {
    let tried = |w: &[u64]| -> io::Result<Result<Compared, Damaged>>
        requires { length w.now ≤ 16400 }
    { Ok(verdict(w, kind)) };
    match each_record(rt, input, tried)? {
        Ok(t) => end(rt, t, kind),
        Err(damage) => println!(rt; "{damage}"),
    }
}

fn verdict(w: &[u64], kind: Kind) -> Result<Compared, Damaged>
    requires { length w.now ≤ 16400 }
{
    if w.len() < 3 {
        return Err(Damaged(0));
    }
    if w[0] != kind as u64 {
        return Err(Damaged(1));
    }
    let h = w[1] as usize;
    if h < 3 || w.len() < h {
        return Err(Damaged(2));
    }
    let a = length_in(w[2], w.len() - h, 3)?;
    let words = &w[3..h];
    let values = &w[h..];
    match kind {
        Kind::Fit => loaded(words, values, a, fits::verdict),
        Kind::Solver => loaded(words, values, a, solver::verdict),
        Kind::Prediction => loaded(words, values, a, predictions::verdict),
        Kind::Design => loaded(words, values, a, designs::verdict),
        Kind::Sheet => sheets::alone(&w[3..]),
        Kind::Root => functions::root_verdict(&w[3..]),
        Kind::Logarithm => functions::logarithm_verdict(&w[3..]),
        Kind::Both => sheets::both(&w[3..]),
        Kind::Move => moves::verdict(&w[3..]),
        Kind::Writing => loaded(words, values, a, writings::verdict),
    }
}

// The trial is given the numbers in two parts, of which the first has a.
fn loaded<F: FnOnce(&[u64], &[f64], &[f64]) -> Result<Compared, Damaged>>(
    w: &[u64],
    values: &[u64],
    a: usize,
    tried: F,
) -> Result<Compared, Damaged>
    requires callable { F.IsAlwaysCallable tried }
    requires values_len_bound { length values.now ≤ 16400 }
    requires a_in_bounds { a ≤ length values.now }
{
    let mut space = number_room();
    let numbers = &mut space[..values.len()];
    load(values, numbers);
    let (x, y) = numbers.split_at(a);
    tried(w, x, y)
}

fn end(rt: &impl Print, t: Tally, kind: Kind) -> io::Result<()> {
    let [first, second, third, fourth] = t.same.map(|some| t.share(some));
    let all = t.share(t.agree);
    match kind {
        Kind::Fit => println!(rt;
            "fits in one call {first} agree\nin budgets of 1 {second} agree\nin random budgets from 0 to 16 {third} agree"
        ),
        Kind::Solver => println!(rt; "solver {first} agree, scratch kept and cleared in {second}"),
        Kind::Prediction => println!(rt; "predictions {all} agree"),
        Kind::Design => println!(rt;
            "statistics {first}, targets {second}, Grams {third}, products {fourth}\ndesigns {all} agree: statistics, targets, Grams, products; panels 1 by 1, 7 by 3 and 256 by 32"
        ),
        Kind::Sheet => println!(rt; "sheets alone {all} agree"),
        Kind::Root => println!(rt; "roots {all} agree"),
        Kind::Logarithm => println!(rt; "logarithms {all} agree"),
        Kind::Both => println!(rt; "sheets in version 1 {first} agree, in version 2 {second}"),
        Kind::Move => println!(rt; "moves {all} agree"),
        Kind::Writing => println!(rt; "writings {all} agree"),
    }
}
