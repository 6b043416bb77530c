// A whole fit in one call, and its promise: smartcore's fit.
#![tactic(auto)]

ghost use Rattle.std.specs.Prelude.{◌≡◌};
ghost use Rattle.elastic_net.specs.ElasticNet.{start_outcome};
ghost use Rattle.whole_fit.specs.Fit.{whole_outcome, whole_of, start_whole, refused_as, Settles, HasEnded};

use checks::limits;
use elastic_net::{Answer, Resumed, resume, start};
use records::{Counts, Paused, ended, no_counts};
use refusal::{Refusal, Way};
use settings::Settings;

// What a whole fit that is done says: as a resuming call, but never pending.
#[derive(Clone, Copy)]
pub struct Fitted {
    pub intercept: f64,
    pub way: Way,
    pub counts: Counts,
}

// The answer, and an ended record with the counts.
#[derive(Clone, Copy)]
pub struct Whole {
    pub answer: Result<Fitted, Refusal>,
    pub paused: Paused,
}

// A fit that was not begun: an ended record with counts 0.
pub fn refused(r: Refusal) -> Whole
    ensures { result ≡ refused_as r }
{
    Whole {
        answer: Err(r),
        paused: ended(no_counts()),
    }
}

// What the call that ended a fit says of it.
pub fn settled(r: Resumed) -> Whole
    requires { HasEnded r }
    ensures { Settles r result }
{
    match r.answer {
        Answer::Done(intercept, way, counts) => Whole {
            answer: Ok(Fitted {
                intercept,
                way,
                counts,
            }),
            paused: r.paused,
        },
        Answer::Refused(q) => Whole {
            answer: Err(q),
            paused: r.paused,
        },
        Answer::Pending => unreachable!(),
    }
}

// The start of a fit whose weights are lent from the beginning: their number is tested with the other lengths, before anything is written.
#[tactic(auto, unfolding(crate::specs::Fit::start_whole))]
pub fn start_whole(
    n: usize,
    p: usize,
    x: &[f64],
    y: &[f64],
    st: Settings,
    s: &mut [f64],
    weights: usize,
) -> Result<Paused, Refusal>
    ensures { start_outcome result s.new ≡ start_whole n p x.now y.now st s.old weights }
{
    limits(n, p, x.len(), y.len(), weights, st, s.len())?;
    start(n, p, x, y, st, s)
}

// A whole fit: the start, and one call with 5,100 steps for each round, the most that a round takes. Total, for all input.
pub fn fit(
    n: usize,
    p: usize,
    x: &[f64],
    y: &[f64],
    st: Settings,
    s: &mut [f64],
    w: &mut [f64],
) -> Whole
    ensures { whole_outcome result w.new s.new
        ≡ whole_of n p x.now y.now st s.old w.old }
{
    match start_whole(n, p, x, y, st, s, w.len()) {
        Ok(rec) => settled(resume(n, p, x, y, st, rec, s, w, 5100 * st.max_iter)),
        Err(r) => refused(r),
    }
}
