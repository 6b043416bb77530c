// One step of each stage.
#![tactic(auto)]

ghost use Rattle.std.specs.Prelude.{◌≡◌, ◌≤◌};
ghost use Rattle.pause.specs.Paused.{opening, solving, searching, step};
ghost use Rattle.layout.specs.Slots.{HasRoom, Suits, vars, rest};
ghost use Rattle.duality.specs.Gap.{Known};
ghost use Rattle.lasso_optimizer.specs.Data.{held};
ghost use Rattle.lasso_optimizer.specs.Fit.{parts};
ghost use Rattle.lasso_optimizer.specs.Solving.{aim_by};
ghost use Rattle.records.specs.Record.{counts_of, OpeningIn, SolvingIn, SearchingIn};
ghost use Rattle.stages.specs.Stage.{turned_in, tried_in, search_from, Did};

use lasso_optimizer::{Opened, Scalars, Tried, Turned};
use layout::fit::Fit;
use opening::open;
use records::{Counts, Paused, Rounds, SolverRounds, Stage, Trials};
use refusal::{Failure, Way};
use solver_round::{aim, turn};
use trial::attempt;

// A step: the fit goes on, or it is over, done in one way or failed.
#[derive(Clone, Copy)]
pub enum Stepped {
    Going(Paused),
    Over(Result<Way, Failure>, Counts),
}

// The scalars that a solver round leaves, whether it stops or not.
fn scalars_in(o: Turned) -> Scalars
    ensures { result ≡ turned_in o }
{
    match o {
        Turned::More(w) => w,
        Turned::Stop(w) => w,
    }
}

// The scalars that a trial leaves, whether it is taken or not.
fn scalars_of(o: Tried) -> Scalars
    ensures { result ≡ tried_in o }
{
    match o {
        Tried::Accept(w) => w,
        Tried::Halve(w) => w,
    }
}

// Opens round r, which is counted however it ends: the solver is ready for its first round, or the fit has converged or failed.
// Where `known`, newz holds the residuals already.
pub fn opening_step(fit: &Fit, s: &mut [f64], r: u64, c: Counts, a: Scalars, known: bool) -> Stepped
    requires room { HasRoom fit.now.sizes s.old }
    requires suits { Suits fit.now.sizes fit.now.matrix.now }
    requires limit_bound { fit.now.limit ≤ 1000 }
    requires known { let f = fit.now in Known f.sizes f.terms f.matrix.now known (vars f.sizes s.old) }
    requires opening_in { OpeningIn fit.now.limit r (counts_of c) }
    ensures { let f = fit.now in
        Did f.sizes (rest f.sizes s.old) (step (parts f.sizes f.terms f.tol f.matrix.now) f.limit
        (opening r (counts_of c) (held a (vars f.sizes s.old)))) result s.new }
{
    let d = Counts {
        rounds: Rounds(c.rounds.0 + 1),
        ..c
    };
    match open(fit, s, r, a, known) {
        Opened::Ready(w) => Stepped::Going(Paused {
            stage: Stage::Solving(1),
            round: r,
            counts: d,
            scalars: w,
        }),
        Opened::Done => Stepped::Over(Ok(Way::Converged), d),
        Opened::Failed(f) => Stepped::Over(Err(f), d),
    }
}

// The solver's last round is behind: the search begins.
fn search_begins(fit: &Fit, s: &[f64], r: u64, d: Counts, w: Scalars) -> Stepped
    requires { HasRoom fit.now.sizes s.now }
    ensures { let f = fit.now in
        result ≡ search_from r (counts_of d) (aim_by f.sizes f.terms w (vars f.sizes s.now)) }
{
    let g = aim(fit, s, w);
    Stepped::Going(Paused {
        stage: Stage::Searching(0),
        round: r,
        counts: d,
        scalars: g,
    })
}

// Makes the solver's round k. Where it stops, or is round 4,999, the search begins in the same step.
pub fn solving_step(fit: &Fit, s: &mut [f64], r: u64, k: u64, c: Counts, a: Scalars) -> Stepped
    requires room { HasRoom fit.now.sizes s.old }
    requires suits { Suits fit.now.sizes fit.now.matrix.now }
    requires limit_bound { fit.now.limit ≤ 1000 }
    requires solving_in { SolvingIn fit.now.limit r k (counts_of c) }
    ensures { let f = fit.now in
        Did f.sizes (rest f.sizes s.old) (step (parts f.sizes f.terms f.tol f.matrix.now) f.limit
        (solving r k (counts_of c) (held a (vars f.sizes s.old)))) result s.new }
{
    let d = Counts {
        solver: SolverRounds(c.solver.0 + 1),
        ..c
    };
    let o = turn(fit, s, k, a);
    let Turned::More(next) = o else {
        let last = scalars_in(o);
        return search_begins(fit, s, r, d, last);
    };
    if k < 4999 {
        return Stepped::Going(Paused {
            stage: Stage::Solving(k + 1),
            round: r,
            counts: d,
            scalars: next,
        });
    }
    search_begins(fit, s, r, d, next)
}

// Makes a trial after j others. One that is taken leads to the next round or the limit; one that is not halves the step, and the hundredth fails.
pub fn searching_step(fit: &Fit, s: &mut [f64], r: u64, j: u64, c: Counts, a: Scalars) -> Stepped
    requires room { HasRoom fit.now.sizes s.old }
    requires suits { Suits fit.now.sizes fit.now.matrix.now }
    requires limit_bound { fit.now.limit ≤ 1000 }
    requires searching_in { SearchingIn fit.now.limit r j (counts_of c) }
    ensures { let f = fit.now in
        Did f.sizes (rest f.sizes s.old) (step (parts f.sizes f.terms f.tol f.matrix.now) f.limit
        (searching r j (counts_of c) (held a (vars f.sizes s.old)))) result s.new }
{
    let d = Counts {
        trials: Trials(c.trials.0 + 1),
        ..c
    };
    let o = attempt(fit, s, a);
    let Tried::Accept(next) = o else {
        if j + 1 < 100 {
            let halved = scalars_of(o);
            return Stepped::Going(Paused {
                stage: Stage::Searching(j + 1),
                round: r,
                counts: d,
                scalars: halved,
            });
        }
        return Stepped::Over(Err(Failure::Search), d);
    };
    if r + 1 < fit.limit {
        return Stepped::Going(Paused {
            stage: Stage::Opening,
            round: r + 1,
            counts: d,
            scalars: next,
        });
    }
    Stepped::Over(Ok(Way::Limit), d)
}
