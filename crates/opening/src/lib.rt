// A round's opening: the gap part, the test of convergence, t, the Newton part, the solver's tolerance and first lines.
#![tactic(auto)]

ghost use Rattle.std.specs.Prelude.{◌≡◌};
ghost use Rattle.layout.specs.Slots.{HasRoom, Suits, vars, rest};
ghost use Rattle.duality.specs.Gap.{Known};
ghost use Rattle.lasso_optimizer.specs.Data.{held};
ghost use Rattle.lasso_optimizer.specs.Opening.{opens, pcgtol_of};
ghost use Rattle.lasso_optimizer.specs.Fit.{DidOpen};

use arrays::sums::norm_2;
use duality::gap;
use inner_solver::begin;
use lasso_optimizer::{Opened, Scalars};
use layout::fit::Fit;
use newton::{next_t, solver_tolerance};
use newton_step::newton_terms;
use refusal::Failure;

// The solver's tolerance, in round r, from the gradient in the scratch.
fn pcgtol(fit: &Fit, s: &[f64], r: u64, a: Scalars, gap: f64) -> f64
    requires { HasRoom fit.now.sizes s.now }
    ensures { result ≡ pcgtol_of fit.now.sizes r a gap (vars fit.now.sizes s.now) }
{
    let l = fit.places;
    let normg = norm_2(s, l.grad, 2 * fit.sizes.p);
    if r == 0 {
        return solver_tolerance(false, gap, normg);
    }
    solver_tolerance(!a.missed, gap, normg)
}

// Opens round r from the scalars that the one before left. Done where the gap over the dual value is below tol; Failed where the solver's tolerance is at or
// below 0; else Ready. A NaN is neither, so it goes on. Where `known`, newz holds the residuals already.
pub fn open(fit: &Fit, s: &mut [f64], r: u64, a: Scalars, known: bool) -> Opened
    requires room { HasRoom fit.now.sizes s.old }
    requires suits { Suits fit.now.sizes fit.now.matrix.now }
    requires known { let f = fit.now in Known f.sizes f.terms f.matrix.now known (vars f.sizes s.old) }
    ensures { let f = fit.now in DidOpen f.sizes (rest f.sizes s.old)
        (opens f.sizes f.terms f.matrix.now f.tol r (held a (vars f.sizes s.old))) result s.new }
{
    let g = gap(fit, s, a.dual, known);
    if g.gap / g.dual < fit.tol {
        return Opened::Done;
    }
    let t = next_t(fit.sizes.p, a.s, g.gap, a.t);
    let gradphi = g.gradphi;
    newton_terms(fit, s, t, gradphi);
    let pcg = pcgtol(fit, s, r, a, g.gap);
    if pcg <= 0.0 {
        return Opened::Failed(Failure::Tolerance);
    }
    let bnrm = begin(fit, s);
    Opened::Ready(Scalars {
        t,
        dual: g.dual,
        pcgtol: pcg,
        bnrm,
        ..a
    })
}
