// The Newton part of an opening: the barrier's terms, the gradient and the preconditioner, for the weight t of the barrier.
#![tactic(auto)]

ghost use Rattle.std.specs.Prelude.{◌≡◌};
ghost use Rattle.arrays.specs.Part.{part, put};
ghost use Rattle.design_products.specs.Mode.{transposed_of};
ghost use Rattle.layout.specs.Slots.{HasRoom, Suits, vars, Makes};
ghost use Rattle.lasso_optimizer.specs.Gradphi.{Gradphi};
ghost use Rattle.lasso_optimizer.specs.Opening.{barrier_store, gradient_store, preconditioner_store, newton_store};

use arrays::vectors::copy_from;
use layout::fit::Fit;
use newton::{
    difference_of_squares, g1, negated, negated_g2, over_difference, over_sum, prb, prs,
    sum_of_squares,
};

// q1, q2, d1 and d2.
fn barrier(fit: &Fit, s: &mut [f64], t: f64)
    requires { HasRoom fit.now.sizes s.old }
    ensures { Makes fit.now.sizes (barrier_store fit.now.sizes t) s.old s.new }
{
    let l = fit.places;
    over_sum(s, l.q1, l.u, l.w, fit.sizes.p);
    over_difference(s, l.q2, l.u, l.w, fit.sizes.p);
    sum_of_squares(s, l.d1, l.q1, l.q2, t, fit.sizes.p);
    difference_of_squares(s, l.d2, l.q1, l.q2, t, fit.sizes.p);
}

// gradphi, in the place of xnu: g, so that the design is not read again.
fn gradphi(fit: &Fit, s: &mut [f64], g: [f64; 64])
    requires room { HasRoom fit.now.sizes s.old }
    requires suits { Suits fit.now.sizes fit.now.matrix.now }
    requires gradphi { let f = fit.now in Gradphi f.sizes f.terms f.matrix.now (vars f.sizes s.old) g }
    ensures { let f = fit.now in s.new ≡ put s.old f.places.xnu
        (transposed_of f.sizes f.terms f.matrix.now (vars f.sizes s.old) (part s.old f.places.z f.sizes.k)) }
{
    let l = fit.places;
    copy_from(s, l.xnu, &g, 0, fit.sizes.p);
}

// gradphi and then g1 in the place of xnu, and grad.
fn gradient(fit: &Fit, s: &mut [f64], t: f64, g: [f64; 64])
    requires room { HasRoom fit.now.sizes s.old }
    requires suits { Suits fit.now.sizes fit.now.matrix.now }
    requires gradphi { let f = fit.now in Gradphi f.sizes f.terms f.matrix.now (vars f.sizes s.old) g }
    ensures { let f = fit.now in Makes f.sizes (gradient_store f.sizes f.terms f.matrix.now t) s.old s.new }
{
    let l = fit.places;
    gradphi(fit, s, g);
    g1(s, l.xnu, l.q1, l.q2, t, fit.sizes.p);
    negated(s, l.grad, l.xnu, fit.sizes.p);
    let high = l.grad + fit.sizes.p;
    negated_g2(s, high, l.q1, l.q2, fit.terms.lambda, t, fit.sizes.p);
}

fn preconditioner(fit: &Fit, s: &mut [f64])
    requires { HasRoom fit.now.sizes s.old }
    ensures { Makes fit.now.sizes (preconditioner_store fit.now.sizes) s.old s.new }
{
    let l = fit.places;
    prb(s, l.prb, l.d1, fit.sizes.p);
    prs(s, l.prs, l.prb, l.d1, l.d2, fit.sizes.p);
}

// All that the solver reads besides the Gram and its start: the terms of the barrier, the gradient and the preconditioner. g is what the gap part answered.
pub fn newton_terms(fit: &Fit, s: &mut [f64], t: f64, g: [f64; 64])
    requires room { HasRoom fit.now.sizes s.old }
    requires suits { Suits fit.now.sizes fit.now.matrix.now }
    requires gradphi { let f = fit.now in Gradphi f.sizes f.terms f.matrix.now (vars f.sizes s.old) g }
    ensures { let f = fit.now in Makes f.sizes (newton_store f.sizes f.terms f.matrix.now t) s.old s.new }
{
    barrier(fit, s, t);
    gradient(fit, s, t, g);
    preconditioner(fit, s);
}
