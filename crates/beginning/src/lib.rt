// What a start writes: every needed word of the scratch, with statistics, targets, design and Gram; and the scalars of a fresh fit.
#![tactic(auto)]

ghost use Rattle.std.specs.Prelude.{◌≡◌, ◌≤◌, ◌<◌, ◌^◌, length};
ghost use Rattle.layout.specs.Slots.{HasRoom, Suits, Panelled, words, Makes};
ghost use Rattle.lasso_optimizer.specs.Fit.{fresh};
ghost use Rattle.beginning.specs.Start.{blank_store, prepared_store, start_store};

use arrays::vectors::{fill, sweep};
use design::eager::augment;
use design::statistics::{statistics, targets};
use lasso_optimizer::Scalars;
use layout::fit::Fit;
use lazy_normalization::reciprocals;
use newton::first_t;
use numbers::bits::canonical;

// All needed words +0, then the bounds 1 and f -1.
fn blank(fit: &Fit, s: &mut [f64], need: usize)
    requires room { HasRoom fit.now.sizes s.old }
    requires need_value { need ≡ words fit.now.sizes }
    ensures { Makes fit.now.sizes (λ _. blank_store fit.now.sizes) s.old s.new }
{
    fill(s, 0, need, 0.0);
    fill(s, fit.places.u, fit.sizes.p, 1.0);
    fill(s, fit.places.f, 2 * fit.sizes.p, -1.0);
}

// The design and its Gram, or what a design that is not stored needs.
fn prepare(fit: &Fit, s: &mut [f64])
    requires room { HasRoom fit.now.sizes s.old }
    requires suits { Suits fit.now.sizes fit.now.matrix.now }
    requires some_columns { 1 ≤ fit.now.sizes.p }
    requires panelled { Panelled fit.now.sizes }
    ensures { let f = fit.now in
        Makes f.sizes (prepared_store f.sizes f.normalise f.terms f.matrix.now) s.old s.new }
{
    let sh = fit.sizes;
    let l = fit.places;
    if sh.lazy {
        reciprocals(s, sh, l);
        lazy_gram::gram(fit.matrix, sh, fit.terms, s, l);
        return;
    }
    augment(fit.matrix, sh, fit.normalise, fit.terms, s, l);
    eager_gram::gram(sh, s, l);
}

// Writes every needed word of the scratch, whatever it held. The sweep at the end changes no number: it leaves each NaN in its one pattern.
pub fn begin(fit: &Fit, y: &[f64], s: &mut [f64], need: usize)
    requires room { HasRoom fit.now.sizes s.old }
    requires suits { Suits fit.now.sizes fit.now.matrix.now }
    requires some_columns { 1 ≤ fit.now.sizes.p }
    requires panelled { Panelled fit.now.sizes }
    requires need_value { need ≡ words fit.now.sizes }
    requires targets { length y.now ≡ fit.now.sizes.n }
    ensures { let f = fit.now in
        Makes f.sizes (λ _. start_store f.sizes f.normalise f.terms f.matrix.now y.now) s.old s.new }
{
    blank(fit, s, need);
    statistics(fit.matrix, fit.sizes, fit.normalise, s, fit.places);
    targets(y, fit.sizes, s, fit.places);
    prepare(fit, s);
    sweep(s, 0, need);
}

// The scalars before the first round: t by its formula, s infinite, so that the first round may raise t, and the others +0.
pub fn fresh_scalars(p: usize, lambda: f64) -> Scalars
    requires { p < 2 ^ 32 }
    ensures { result ≡ fresh p lambda }
{
    let t = first_t(p, lambda);
    Scalars {
        t: canonical(t),
        s: 1.0 / 0.0,
        dual: 0.0,
        pcgtol: 0.0,
        bnrm: 0.0,
        bkden: 0.0,
        error: 0.0,
        phi: 0.0,
        gdx: 0.0,
        missed: false,
    }
}
