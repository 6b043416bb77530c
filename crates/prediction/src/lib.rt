// Predictions: each row of a matrix times the weights, plus the intercept.
#![tactic(auto)]

ghost use Rattle.std.specs.Prelude.{◌≡◌, ◌*◌, ◌≤◌, length};
ghost use Rattle.numbers.specs.Ops.{◌⊕◌};
ghost use Rattle.arrays.specs.Part.{put, tab};
ghost use Rattle.arrays.specs.Sums.{◌!◌};
ghost use Rattle.prediction.specs.Predict.{Outcome.outcome, checked_of, values_of, predicted_of, predict_of};

use arrays::scan::{finite, first_infinite};
use arrays::sums::product;
use numbers::bits::canonical;
use refusal::{Refusal, at, in_size};
use several::{eight, put_eight};

// The first of the refusals 1, 2 and 5 that holds.
fn check(n: usize, p: usize, x: &[f64], w: &[f64], b: f64, out: usize) -> Result<(), Refusal>
    ensures { result ≡ checked_of n p x.now w.now b out }
{
    if !in_size(n, p) {
        return Err(Refusal::Size);
    }
    if x.len() != n * p || w.len() != p || out != n {
        return Err(Refusal::Length);
    }
    values(n, p, x, w, b)
}

// Refusal 5 over matrix, weights and intercept, with its place counted through all of them.
fn values(n: usize, p: usize, x: &[f64], w: &[f64], b: f64) -> Result<(), Refusal>
    requires x_len { length x.now ≡ n * p }
    requires w_len { length w.now ≡ p }
    requires n_bound { n ≤ 4096 }
    requires p_bound { p ≤ 64 }
    ensures { result ≡ values_of x.now w.now b }
{
    at(first_infinite(x), 0)?;
    at(first_infinite(w), n * p)?;
    if !finite(b) {
        return Err(Refusal::NotFinite(n * p + p));
    }
    Ok(())
}

// Each product plus the intercept, a NaN with its one pattern.
fn finish(t: [f64; 8], b: f64) -> [f64; 8]
    ensures { result ≡ tab (λ k. t ! k ⊕ b) 8 }
{
    let mut r = [0.0; 8];
    for k in 0..8 {
        r[k] = canonical(t[k] + b);
    }
    r
}

// The first 8 * e predictions, eight at a time: one from each run of e rows. So eight sums go side by side, of which none waits for another.
fn runs(e: usize, p: usize, x: &[f64], w: &[f64], b: f64, out: &mut [f64])
    requires p_in_bounds { 8 * e * p ≤ length x.now }
    requires w_len { length w.now ≡ p }
    requires e_in_bounds { 8 * e ≤ length out.old }
    ensures { out.new ≡ put out.old 0 (predicted_of (8 * e) p x.now w.now b) }
{
    let apart = e * p;
    for i in 0..e {
        let t = eight(x, i * p, apart, w, 0, p);
        put_eight(out, i, e, finish(t, b));
    }
}

// Eight rows at a time, then the remaining ones.
fn rows(n: usize, p: usize, x: &[f64], w: &[f64], b: f64, out: &mut [f64])
    requires x_len { length x.now ≡ n * p }
    requires w_len { length w.now ≡ p }
    requires out_len { length out.old ≡ n }
    requires n_bound { n ≤ 4096 }
    requires p_bound { p ≤ 64 }
    ensures { out.new ≡ predicted_of n p x.now w.now b }
{
    let e = n / 8;
    runs(e, p, x, w, b, out);
    for i in 8 * e..n {
        out[i] = canonical(product(x, i * p, w, 0, p) + b);
    }
}

// Writes a prediction for each of the n rows; a call that is refused writes nothing. Total, for all input: answer and `out` are `predict_of`.
#[tactic(auto, unfolding(crate::specs::Predict::predict_of))]
pub fn predict(
    n: usize,
    p: usize,
    x: &[f64],
    w: &[f64],
    b: f64,
    out: &mut [f64],
) -> Result<(), Refusal>
    ensures { outcome result out.new ≡ predict_of n p x.now w.now b out.old }
{
    check(n, p, x, w, b, out.len())?;
    rows(n, p, x, w, b, out);
    Ok(())
}
