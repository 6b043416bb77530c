// The elastic net: a fit that is started, and resumed with a budget of steps until it ends.
#![tactic(auto)]

ghost use Rattle.std.specs.Prelude.{◌≡◌, true, ◌≤◌, length};
ghost use Rattle.pause.specs.Paused.{call};
ghost use Rattle.settings.specs.Settings.{terms_of};
ghost use Rattle.layout.specs.Slots.{HasRoom, Suits, vars, rest};
ghost use Rattle.layout.specs.Need.{sizes_of, Small};
ghost use Rattle.lasso_optimizer.specs.Fit.{parts};
ghost use Rattle.records.specs.Record.{state_of};
ghost use Rattle.stages.specs.Stage.{Did};
ghost use Rattle.checks.specs.Checks.{Accepted};
ghost use Rattle.records.specs.Records.{possible_of};
ghost use Rattle.elastic_net.specs.ElasticNet.{outcome, start_outcome, end_outcome, shown, resume_of, start_of};

use arrays::vectors::{fill, sweep};
use beginning::{begin, fresh_scalars};
use checks::{limits, start_values};
use ending::{solution, wipe};
use layout::fit::{Fit, Ranged};
use layout::need;
use records::{Counts, Paused, clean, ended, first, possible, spent};
use refusal::{Failure, Refusal, Way};
use settings::Settings;
use stages::Stepped;
use steps::run_steps;

// What a resuming call answers. Done carries the intercept, how the fit ended, and the counts; the weights are in the lent slice.
#[derive(Clone, Copy)]
pub enum Answer {
    Pending,
    Done(f64, Way, Counts),
    Refused(Refusal),
}

#[derive(Clone, Copy)]
pub struct Resumed {
    pub answer: Answer,
    pub paused: Paused,
}

// Up to `budget` steps. A fit that may open no round ends at the limit before its first step, whatever the budget.
fn go(fit: &Fit, s: &mut [f64], rec: Paused, budget: u64) -> Stepped
    requires room { HasRoom fit.now.sizes s.old }
    requires suits { Suits fit.now.sizes fit.now.matrix.now }
    requires limit_bound { fit.now.limit ≤ 1000 }
    requires rec_value { possible_of fit.now.limit rec ≡ true }
    ensures { let f = fit.now in
        Did f.sizes (rest f.sizes s.old) (call (parts f.sizes f.terms f.tol f.matrix.now) f.limit budget
        (state_of rec (vars f.sizes s.old))) result s.new }
{
    if spent(fit.limit, rec) {
        return Stepped::Over(Ok(Way::Limit), rec.counts);
    }
    run_steps(fit, s, rec, budget)
}

// Each NaN in the vectors that steps write gets its one pattern; where no step was taken none is touched.
fn tidy(fit: &Fit, s: &mut [f64], budget: u64)
    requires { HasRoom fit.now.sizes s.old }
    ensures { s.new ≡ s.old }
{
    if budget == 0 {
        return;
    }
    sweep(s, 0, fit.places.centre);
    sweep(s, fit.places.z, 3 * fit.sizes.k);
}

// The end of a fit: the weights, +0 in the needed scratch, and the answer. The weights of a fit that failed are +0.
fn finish(
    fit: &Fit,
    s: &mut [f64],
    y: &[f64],
    w: &mut [f64],
    how: Result<Way, Failure>,
    c: Counts,
) -> Resumed
    requires room { HasRoom fit.now.sizes s.old }
    requires small { Small fit.now.sizes }
    requires rows { fit.now.sizes.n ≤ 4096 }
    requires targets { length y.now ≡ fit.now.sizes.n }
    requires weights { length w.old ≡ fit.now.sizes.p }
    ensures { let f = fit.now in outcome result w.new s.new
        ≡ end_outcome f.sizes f.normalise f.terms.gamma y.now (rest f.sizes s.old) how c (vars f.sizes s.old) }
{
    let e = ended(c);
    let b = solution(fit, s, y, w);
    wipe(s, fit.sizes, need(fit.sizes));
    match how {
        Ok(way) => Resumed {
            answer: Answer::Done(b, way, c),
            paused: e,
        },
        Err(f) => {
            fill(w, 0, fit.sizes.p, 0.0);
            Resumed {
                answer: Answer::Refused(Refusal::from(f)),
                paused: e,
            }
        }
    }
}

// A call that passed every check: its steps, and then the record to resume from or the end.
fn accepted(
    n: usize,
    p: usize,
    x: &[f64],
    y: &[f64],
    st: Settings,
    rec: Paused,
    s: &mut [f64],
    w: &mut [f64],
    budget: u64,
) -> Resumed
    requires accepted { Accepted n p (length x.now) (length y.now) (length w.old) st (length s.old) }
    requires rec_value { possible_of st.max_iter rec ≡ true }
    ensures { outcome result w.new s.new
        ≡ shown (sizes_of n p st) st.normalise (terms_of st n).gamma y.now (rest (sizes_of n p st) s.old) w.old
        (call (parts (sizes_of n p st) (terms_of st n) st.tol x.now) st.max_iter budget
        (state_of rec (vars (sizes_of n p st) s.old))) }
{
    let fit = Fit::new(x, n, p, st);
    let ranged = Ranged { fit };
    match go(&ranged.fit, s, rec, budget) {
        Stepped::Going(next) => {
            tidy(&ranged.fit, s, budget);
            let r = clean(next);
            Resumed {
                answer: Answer::Pending,
                paused: r,
            }
        }
        Stepped::Over(how, c) => finish(&ranged.fit, s, y, w, how, c),
    }
}

// Takes up to `budget` steps and answers Pending, with the record for the next call, or the end of the fit. Input that is refused changes nothing, and the
// record comes back as it was. Total, for all input: answer, record, weights and scratch are `resume_of`.
pub fn resume(
    n: usize,
    p: usize,
    x: &[f64],
    y: &[f64],
    st: Settings,
    rec: Paused,
    s: &mut [f64],
    w: &mut [f64],
    budget: u64,
) -> Resumed
    ensures { outcome result w.new s.new
        ≡ resume_of n p x.now y.now st rec s.old w.old budget }
{
    if let Err(r) = limits(n, p, x.len(), y.len(), w.len(), st, s.len()) {
        return Resumed {
            answer: Answer::Refused(r),
            paused: rec,
        };
    }
    if !possible(st.max_iter, rec) {
        return Resumed {
            answer: Answer::Refused(Refusal::Record),
            paused: rec,
        };
    }
    accepted(n, p, x, y, st, rec, s, w, budget)
}

// Checks the input, writes the needed scratch and answers the first record. It takes no step, and where it refuses it writes nothing. Total, for all input:
// answer and scratch are `start_of`.
#[tactic(auto, unfolding(crate::specs::ElasticNet::start_of))]
pub fn start(
    n: usize,
    p: usize,
    x: &[f64],
    y: &[f64],
    st: Settings,
    s: &mut [f64],
) -> Result<Paused, Refusal>
    ensures { start_outcome result s.new ≡ start_of n p x.now y.now st s.old }
{
    limits(n, p, x.len(), y.len(), p, st, s.len())?;
    start_values(x, y, n, p, st.normalise)?;
    let fit = Fit::new(x, n, p, st);
    let ranged = Ranged { fit };
    begin(&ranged.fit, y, s, need(ranged.fit.sizes));
    Ok(first(fresh_scalars(p, ranged.fit.terms.lambda)))
}
