// The gap part of an opening: residuals, the dual point, and the gap between the two values.
#![tactic(auto)]

ghost use Rattle.std.specs.Prelude.{◌≡◌};
ghost use Rattle.layout.specs.Slots.{HasRoom, Suits, vars, rest, Makes};
ghost use Rattle.lasso_optimizer.specs.Opening.{residual_store, shrunk_store, primal_of, dual_of};
ghost use Rattle.lasso_optimizer.specs.Gradphi.{Gradphi};
ghost use Rattle.duality.specs.Gap.{DidGap, Known, start_store};

use arrays::sums::{norm_1, norm_inf, three_dots};
use arrays::vectors::{copy, sub, times};
use design_products::{matvec, transposed_both};
use layout::fit::Fit;
use numbers::order::maximum;

// The primal value and the best dual one.
#[derive(Clone, Copy)]
struct Objectives {
    primal: f64,
    dual: f64,
}

#[derive(Clone, Copy)]
pub struct Values {
    pub gap: f64,
    pub dual: f64,
    pub gradphi: [f64; 64],
}

// Writes z, the design times the weights less the targets. Where newz is known to hold that, it is copied: the product is as dear as a trial's, and an
// accepted trial has just made it.
fn start_residuals(fit: &Fit, s: &mut [f64], known: bool)
    requires room { HasRoom fit.now.sizes s.old }
    requires suits { Suits fit.now.sizes fit.now.matrix.now }
    requires known { let f = fit.now in Known f.sizes f.terms f.matrix.now known (vars f.sizes s.old) }
    ensures { let f = fit.now in Makes f.sizes (start_store f.sizes f.terms f.matrix.now) s.old s.new }
{
    let l = fit.places;
    if known {
        copy(s, l.z, l.newz, fit.sizes.k);
        return;
    }
    matvec(fit, s, l.w, l.z);
    sub(s, l.z, l.z, l.y, fit.sizes.k);
}

// Writes z; nu, twice z; and xnu, the transposed design times nu. It answers gradphi, the transposed design times z: the design is read, or its entries are made,
// once for both products where no reciprocal is missing.
fn residuals(fit: &Fit, s: &mut [f64], known: bool) -> [f64; 64]
    requires room { HasRoom fit.now.sizes s.old }
    requires suits { Suits fit.now.sizes fit.now.matrix.now }
    requires known { let f = fit.now in Known f.sizes f.terms f.matrix.now known (vars f.sizes s.old) }
    ensures makes { let f = fit.now in Makes f.sizes (residual_store f.sizes f.terms f.matrix.now) s.old s.new }
    ensures gradphi { let f = fit.now in
        Gradphi f.sizes f.terms f.matrix.now (residual_store f.sizes f.terms f.matrix.now (vars f.sizes s.old))
        result }
{
    let l = fit.places;
    start_residuals(fit, s, known);
    times(s, l.nu, 2.0, l.z, fit.sizes.k);
    let mut r = [0.0; 64];
    transposed_both(fit, s, l.nu, l.xnu, l.z, &mut r);
    r
}

// Makes nu smaller where the largest of xnu is above lambda; a NaN is not.
fn shrink(fit: &Fit, s: &mut [f64], most: f64)
    requires { HasRoom fit.now.sizes s.old }
    ensures { let f = fit.now in Makes f.sizes (shrunk_store f.sizes f.terms most) s.old s.new }
{
    let l = fit.places;
    if most > fit.terms.lambda {
        times(s, l.nu, fit.terms.lambda / most, l.nu, fit.sizes.k);
        return;
    }
}

// Both values: z times itself, plus lambda times the sum of the weights' magnitudes; and the larger of the dual value at nu and the best one before. A NaN is
// passed over.
fn primal_and_dual(fit: &Fit, s: &[f64], dual: f64) -> Objectives
    requires { HasRoom fit.now.sizes s.now }
    ensures primal_value { let f = fit.now in result.primal ≡ primal_of f.sizes f.terms (vars f.sizes s.now) }
    ensures dual_value { result.dual ≡ dual_of fit.now.sizes dual (vars fit.now.sizes s.now) }
{
    let l = fit.places;
    let d = three_dots(s, l.z, l.nu, l.y, fit.sizes.k);
    let primal = d.aa + fit.terms.lambda * norm_1(s, l.w, fit.sizes.p);
    let new = -0.25 * d.bb - d.bc;
    Objectives {
        primal,
        dual: maximum(dual, new),
    }
}

// The gap between the primal value of the weights and the best dual value so far, and that value. `dual` is the best one before.
// Where `known`, newz holds the residuals already. gradphi comes with them, for the Newton part.
pub fn gap(fit: &Fit, s: &mut [f64], dual: f64, known: bool) -> Values
    requires room { HasRoom fit.now.sizes s.old }
    requires suits { Suits fit.now.sizes fit.now.matrix.now }
    requires known { let f = fit.now in Known f.sizes f.terms f.matrix.now known (vars f.sizes s.old) }
    ensures { let f = fit.now in
        DidGap f.sizes f.terms f.matrix.now (rest f.sizes s.old) (vars f.sizes s.old) dual result s.new }
{
    let l = fit.places;
    let gradphi = residuals(fit, s, known);
    let most = norm_inf(s, l.xnu, fit.sizes.p);
    shrink(fit, s, most);
    let o = primal_and_dual(fit, s, dual);
    Values {
        gap: o.primal - o.dual,
        dual: o.dual,
        gradphi,
    }
}
