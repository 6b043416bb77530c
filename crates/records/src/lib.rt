// The paused record: its types, the records that a call hands back, and which of those that it is given it may continue.
#![tactic(auto)]

ghost use Rattle.std.specs.Prelude.{◌≡◌, ◌≤◌};
ghost use Rattle.pause.specs.Parts.{none};
ghost use Rattle.records.specs.Record.{counts_back, paused_at};
ghost use Rattle.records.specs.declared.Stage.TheVariants.{Opening};
ghost use Rattle.records.specs.Records.{counted_of, possible_of, spent_at, ended_of};

use lasso_optimizer::Scalars;
use numbers::bits::canonical;

// Rounds opened, solver rounds made, trials made: each a type of its own, so that none stands in for another.
#[derive(Clone, Copy)]
pub struct Rounds(pub u64);

#[derive(Clone, Copy)]
pub struct SolverRounds(pub u64);

#[derive(Clone, Copy)]
pub struct Trials(pub u64);

#[derive(Clone, Copy)]
pub struct Counts {
    pub rounds: Rounds,
    pub solver: SolverRounds,
    pub trials: Trials,
}

// What is next: a round is opened; the solver's k-th round, from 1, is made; a trial is made, after j others. Or nothing, since the fit has ended.
#[derive(Clone, Copy)]
pub enum Stage {
    Opening,
    Solving(u64),
    Searching(u64),
    Ended,
}

#[derive(Clone, Copy)]
pub struct Paused {
    pub stage: Stage,
    pub round: u64,
    pub counts: Counts,
    pub scalars: Scalars,
}

// Whether the counts are possible with so many rounds opened: at most 4,999 solver rounds and 100 trials to each.
fn counted(opened: u64, c: Counts) -> bool
    requires { opened ≤ 1000 }
    ensures { result ≡ counted_of opened c }
{
    let a = c.rounds;
    let b = c.solver;
    let t = c.trials;
    if a.0 != opened {
        return false;
    }
    if 4999 * opened < b.0 {
        return false;
    }
    100 * opened >= t.0
}

// Whether a call may continue the record, which it refuses with 9 where not. Never one that has ended. With a limit of 0 no round is below it, and only a
// record at its start is possible.
pub fn possible(limit: u64, rec: Paused) -> bool
    requires { limit ≤ 1000 }
    ensures { result ≡ possible_of limit rec }
{
    let stage = rec.stage;
    let c = rec.counts;
    let r = rec.round;
    match stage {
        Stage::Opening => {
            if r < limit {
                return counted(r, c);
            }
            if limit != 0 {
                return false;
            }
            if r != 0 {
                return false;
            }
            counted(r, c)
        }
        Stage::Solving(k) => {
            if limit <= r {
                return false;
            }
            if k < 1 {
                return false;
            }
            if 4999 < k {
                return false;
            }
            counted(r + 1, c)
        }
        Stage::Searching(j) => {
            if limit <= r {
                return false;
            }
            if 99 < j {
                return false;
            }
            counted(r + 1, c)
        }
        Stage::Ended => false,
    }
}

// Whether a call ends the fit before its first step: only where the limit is 0.
pub fn spent(limit: u64, rec: Paused) -> bool
    ensures { result ≡ spent_at limit rec }
{
    let stage = rec.stage;
    let r = rec.round;
    match stage {
        Stage::Opening => limit <= r,
        Stage::Solving(k) => false,
        Stage::Searching(j) => false,
        Stage::Ended => false,
    }
}

pub fn no_counts() -> Counts
    ensures { result ≡ counts_back none }
{
    Counts {
        rounds: Rounds(0),
        solver: SolverRounds(0),
        trials: Trials(0),
    }
}

// A record whose fit is over: its counts, and fixed values.
pub fn ended(c: Counts) -> Paused
    ensures { result ≡ ended_of c }
{
    Paused {
        stage: Stage::Ended,
        round: 0,
        counts: c,
        scalars: Scalars {
            t: 0.0,
            s: 0.0,
            dual: 0.0,
            pcgtol: 0.0,
            bnrm: 0.0,
            bkden: 0.0,
            error: 0.0,
            phi: 0.0,
            gdx: 0.0,
            missed: false,
        },
    }
}

// The record of a fit that was just started: round 0 is to be opened.
pub fn first(a: Scalars) -> Paused
    ensures { result ≡ paused_at Opening 0 none a }
{
    let c = no_counts();
    Paused {
        stage: Stage::Opening,
        round: 0,
        counts: c,
        scalars: a,
    }
}

fn clean_scalars(a: Scalars) -> Scalars
    ensures { result ≡ a }
{
    Scalars {
        t: canonical(a.t),
        s: canonical(a.s),
        dual: canonical(a.dual),
        pcgtol: canonical(a.pcgtol),
        bnrm: canonical(a.bnrm),
        bkden: canonical(a.bkden),
        error: canonical(a.error),
        phi: canonical(a.phi),
        gdx: canonical(a.gdx),
        missed: a.missed,
    }
}

// The same record, each NaN in its one pattern.
pub fn clean(rec: Paused) -> Paused
    ensures { result ≡ rec }
{
    let stage = rec.stage;
    let c = rec.counts;
    let a = clean_scalars(rec.scalars);
    Paused {
        stage: stage,
        round: rec.round,
        counts: c,
        scalars: a,
    }
}
