// A solver round inside a fit, and what follows the last one.
#![tactic(auto)]

ghost use Rattle.std.specs.Prelude.{◌≡◌};
ghost use Rattle.layout.specs.Slots.{HasRoom, vars, rest};
ghost use Rattle.lasso_optimizer.specs.Data.{held};
ghost use Rattle.lasso_optimizer.specs.Solving.{turns, phi_at, missed_by, aim_by};
ghost use Rattle.lasso_optimizer.specs.Fit.{DidTurn};

use arrays::sums::{dot, sum};
use lasso_optimizer::{Scalars, Turned};
use layout::fit::Fit;
use line_search::{phi, sumlogneg};

// The k-th round of a solve, from 1. Its error and bkden go into the scalars.
pub fn turn(fit: &Fit, s: &mut [f64], k: u64, a: Scalars) -> Turned
    requires { HasRoom fit.now.sizes s.old }
    ensures { let f = fit.now in
        DidTurn f.sizes (rest f.sizes s.old) (turns f.sizes k (held a (vars f.sizes s.old))) result s.new }
{
    match inner_solver::turn(fit, s, k == 1, a.bkden, a.bnrm, a.pcgtol) {
        bg_solver::shared::Turned::Stop(e, d) => Turned::Stop(Scalars {
            bkden: d,
            error: e,
            ..a
        }),
        bg_solver::shared::Turned::More(e, d) => Turned::More(Scalars {
            bkden: d,
            error: e,
            ..a
        }),
    }
}

// A miss is never forgotten; a NaN error is none.
fn missed(a: Scalars) -> bool
    ensures { result ≡ missed_by a }
{
    if a.missed {
        return true;
    }
    a.error > a.pcgtol
}

fn phi_at(fit: &Fit, s: &[f64], t: f64) -> f64
    requires { HasRoom fit.now.sizes s.now }
    ensures { let f = fit.now in result ≡ phi_at f.sizes f.terms t (vars f.sizes s.now) }
{
    let l = fit.places;
    let zz = dot(s, l.z, s, l.z, fit.sizes.k);
    let sumu = sum(s, l.u, fit.sizes.p);
    let logs = sumlogneg(s, l.f, 2 * fit.sizes.p);
    phi(fit.terms.lambda, t, zz, sumu, logs)
}

// What follows a solve's last round, ready for the search: whether it missed its tolerance, phi and gdx at the start, and a first step of 1.
pub fn aim(fit: &Fit, s: &[f64], a: Scalars) -> Scalars
    requires { HasRoom fit.now.sizes s.now }
    ensures { let f = fit.now in result ≡ aim_by f.sizes f.terms a (vars f.sizes s.now) }
{
    let l = fit.places;
    let far = missed(a);
    let at = phi_at(fit, s, a.t);
    let gdx = dot(s, l.grad, s, l.dxu, 2 * fit.sizes.p);
    Scalars {
        s: 1.0,
        phi: at,
        gdx,
        missed: far,
        ..a
    }
}
