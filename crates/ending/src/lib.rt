// What an end writes: the rescaled weights and the intercept, and +0 in every needed word of the scratch.
#![tactic(auto)]

ghost use Rattle.std.specs.Prelude.{◌≡◌, true, false, ◌+◌, ◌≤◌, length};
ghost use Rattle.arrays.specs.Part.{part};
ghost use Rattle.layout.specs.Slots.{HasRoom, words, vars, rest};
ghost use Rattle.ending.specs.End.{rescaled_of, weights_of, intercept_of, gone};

use arrays::sums::{mean, product};
use arrays::vectors::{copy_from, fill, sweep, times};
use layout::Sizes;
use layout::fit::Fit;
use numbers::bits::canonical;

// gamma * w / deviation, in place of the weights.
fn rescale(w: &mut [f64], gamma: f64, s: &[f64], sc: usize, p: usize)
    requires w_len { length w.old ≡ p }
    requires p_in_bounds { sc + p ≤ length s.now }
    ensures { w.new ≡ rescaled_of true gamma p w.old (part s.now sc p) }
{
    for (i, d) in s[sc..sc + p].iter().enumerate() {
        w[i] = gamma * w[i] / *d;
    }
}

// gamma * w, for a fit that did not normalise.
fn scale(w: &mut [f64], gamma: f64, p: usize)
    requires { length w.old ≡ p }
    ensures { w.new ≡ rescaled_of false gamma p w.old w.old }
{
    times(w, 0, gamma, 0, p);
}

// Writes the weights in the scale of the lent matrix and answers the intercept: the targets' mean, less the means' product with the weights where the fit
// normalised.
pub fn solution(fit: &Fit, s: &[f64], y: &[f64], w: &mut [f64]) -> f64
    requires room { HasRoom fit.now.sizes s.now }
    requires rows { fit.now.sizes.n ≤ 4096 }
    requires targets { length y.now ≡ fit.now.sizes.n }
    requires weights { length w.old ≡ fit.now.sizes.p }
    ensures weights_are { let f = fit.now in
        w.new ≡ weights_of f.sizes f.normalise f.terms.gamma (vars f.sizes s.now) }
    ensures intercept_is { let f = fit.now in
        result ≡ intercept_of f.sizes f.normalise f.terms.gamma y.now (vars f.sizes s.now) }
{
    let p = fit.sizes.p;
    let l = fit.places;
    let gamma = fit.terms.gamma;
    copy_from(w, 0, s, l.w, p);
    let mu = mean(y, 0, fit.sizes.n);
    if fit.normalise {
        rescale(w, gamma, s, l.scale, p);
        let b = product(w, 0, s, l.centre, p);
        sweep(w, 0, p);
        return canonical(mu - b);
    }
    scale(w, gamma, p);
    sweep(w, 0, p);
    canonical(mu)
}

// The needed scratch becomes +0; what lies behind it stays.
pub fn wipe(s: &mut [f64], sh: Sizes, need: usize)
    requires need_value { need ≡ words sh }
    requires need_in_bounds { need ≤ length s.old }
    ensures { s.new ≡ gone sh (rest sh s.old) }
{
    fill(s, 0, need, 0.0);
}
