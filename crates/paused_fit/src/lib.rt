// A whole fit in up to three resuming calls, and its promise: that of one call.
#![tactic(auto)]

ghost use Rattle.std.specs.Prelude.{◌≡◌, [], ◌∷◌, length};
ghost use Rattle.promises.specs.Chain.{Chain};
ghost use Rattle.whole_fit.specs.Fit.{whole_outcome, whole_of};

use elastic_net::{Answer, Resumed, resume};
use records::Paused;
use settings::Settings;
use whole_fit::{Whole, refused, settled, start_whole};

// Calls with these budgets, each on what the one before left, until one is not pending.
fn resumed(
    n: usize,
    p: usize,
    x: &[f64],
    y: &[f64],
    st: Settings,
    fresh: Paused,
    s: &mut [f64],
    w: &mut [f64],
    first: u64,
    second: u64,
    third: u64,
) -> Resumed
    requires { length w.old ≡ p }
    ensures { Chain n p x.now y.now st (first ∷ second ∷ third ∷ []) fresh s.old result w.new s.new }
{
    let r = resume(n, p, x, y, st, fresh, s, w, first);
    let Answer::Pending = r.answer else {
        return r;
    };
    let r = resume(n, p, x, y, st, r.paused, s, w, second);
    let Answer::Pending = r.answer else {
        return r;
    };
    resume(n, p, x, y, st, r.paused, s, w, third)
}

// Total, for all input and all budgets. What the first two calls do not end, the third does; the contract is that of `fit`, so pausing changes nothing.
pub fn fit_in_pieces(
    n: usize,
    p: usize,
    x: &[f64],
    y: &[f64],
    st: Settings,
    s: &mut [f64],
    w: &mut [f64],
    first: u64,
    second: u64,
) -> Whole
    ensures { whole_outcome result w.new s.new
        ≡ whole_of n p x.now y.now st s.old w.old }
{
    match start_whole(n, p, x, y, st, s, w.len()) {
        Ok(fresh) => settled(resumed(
            n,
            p,
            x,
            y,
            st,
            fresh,
            s,
            w,
            first,
            second,
            5100 * st.max_iter,
        )),
        Err(r) => refused(r),
    }
}
