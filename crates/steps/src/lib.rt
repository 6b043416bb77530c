// One step of a paused fit, and steps up to a budget.
#![tactic(auto)]

ghost use Rattle.std.specs.Prelude.{◌≡◌, ◌≤◌};
ghost use Rattle.pause.specs.Progress.{run};
ghost use Rattle.pause.specs.Paused.{step};
ghost use Rattle.layout.specs.Slots.{HasRoom, Suits, vars, rest};
ghost use Rattle.lasso_optimizer.specs.Fit.{parts};
ghost use Rattle.records.specs.Record.{state_of, Sane};
ghost use Rattle.stages.specs.Stage.{Did};
ghost use Rattle.steps.specs.Known.{KnownAt, searched_of};

use layout::fit::Fit;
use records::{Paused, Stage};
use stages::{Stepped, opening_step, searching_step, solving_step};

// One step of the stage that the record is in, which is none that has ended.
// `known` is for an opening: where it is true, newz holds the residuals already.
pub fn one_step(fit: &Fit, s: &mut [f64], rec: Paused, known: bool) -> Stepped
    requires room { HasRoom fit.now.sizes s.old }
    requires suits { Suits fit.now.sizes fit.now.matrix.now }
    requires limit_bound { fit.now.limit ≤ 1000 }
    requires known_at { let f = fit.now in
        KnownAt rec.stage f.sizes f.terms f.matrix.now known (vars f.sizes s.old) }
    requires sane { Sane fit.now.limit rec }
    ensures { let f = fit.now in
        Did f.sizes (rest f.sizes s.old) (step (parts f.sizes f.terms f.tol f.matrix.now) f.limit
        (state_of rec (vars f.sizes s.old))) result s.new }
{
    match rec.stage {
        Stage::Opening => opening_step(fit, s, rec.round, rec.counts, rec.scalars, known),
        Stage::Solving(k) => solving_step(fit, s, rec.round, k, rec.counts, rec.scalars),
        Stage::Searching(j) => searching_step(fit, s, rec.round, j, rec.counts, rec.scalars),
        Stage::Ended => unreachable!(),
    }
}

// Whether a step of this stage is a trial: an opening that comes right after it follows one that was accepted.
fn searched(g: Stage) -> bool
    ensures { result ≡ searched_of g }
{
    matches!(g, Stage::Searching(_))
}

// Steps until the fit is over or the budget is spent. With a budget of 0 the record comes back as it was. The residuals that a trial has just made are not made
// again, but a record that comes from outside is not trusted, so an opening that begins a call makes its residuals.
pub fn run_steps(fit: &Fit, s: &mut [f64], rec: Paused, budget: u64) -> Stepped
    requires room { HasRoom fit.now.sizes s.old }
    requires suits { Suits fit.now.sizes fit.now.matrix.now }
    requires limit_bound { fit.now.limit ≤ 1000 }
    requires sane { Sane fit.now.limit rec }
    ensures { let f = fit.now in
        Did f.sizes (rest f.sizes s.old) (run (step (parts f.sizes f.terms f.tol f.matrix.now) f.limit) budget
        (state_of rec (vars f.sizes s.old))) result s.new }
{
    let mut cur = rec;
    let mut known = false;
    for made in 0..budget {
        let stage = cur.stage;
        let o = one_step(fit, s, cur, known);
        let Stepped::Going(next) = o else {
            return o;
        };
        cur = next;
        known = searched(stage);
    }
    Stepped::Going(cur)
}
