// A trial of the line search.
#![tactic(auto)]

ghost use Rattle.std.specs.Prelude.{◌≡◌};
ghost use Rattle.layout.specs.Slots.{HasRoom, Suits, vars, rest, Makes};
ghost use Rattle.lasso_optimizer.specs.Data.{held};
ghost use Rattle.lasso_optimizer.specs.Trial.{moved_store, newz_store, newphi_of, taken_store, halved, decide_by, tries};
ghost use Rattle.lasso_optimizer.specs.Fit.{DidTry};

use arrays::sums::{dot, sum};
use arrays::vectors::{add_scaled, copy, sub};
use design_products::matvec;
use lasso_optimizer::{Scalars, Tried};
use layout::fit::Fit;
use line_search::{accepts, faces, largest, phi, sumlogneg};

// neww, newu and newf, a step along the direction.
fn move_on(fit: &Fit, s: &mut [f64], step: f64)
    requires { HasRoom fit.now.sizes s.old }
    ensures { Makes fit.now.sizes (moved_store fit.now.sizes step) s.old s.new }
{
    let l = fit.places;
    add_scaled(s, l.neww, l.w, step, l.dxu, fit.sizes.p);
    add_scaled(s, l.newu, l.u, step, l.dxu + fit.sizes.p, fit.sizes.p);
    faces(s, l.newf, l.neww, l.newu, fit.sizes.p);
}

// newz: the design times the new weights, less the targets.
fn residuals(fit: &Fit, s: &mut [f64])
    requires room { HasRoom fit.now.sizes s.old }
    requires suits { Suits fit.now.sizes fit.now.matrix.now }
    ensures { let f = fit.now in Makes f.sizes (newz_store f.sizes f.terms f.matrix.now) s.old s.new }
{
    let l = fit.places;
    matvec(fit, s, l.neww, l.newz);
    sub(s, l.newz, l.newz, l.y, fit.sizes.k);
}

// phi at the new point.
fn newphi(fit: &Fit, s: &[f64], t: f64) -> f64
    requires { HasRoom fit.now.sizes s.now }
    ensures { let f = fit.now in result ≡ newphi_of f.sizes f.terms t (vars f.sizes s.now) }
{
    let l = fit.places;
    let zz = dot(s, l.newz, s, l.newz, fit.sizes.k);
    let sumu = sum(s, l.newu, fit.sizes.p);
    let logs = sumlogneg(s, l.newf, 2 * fit.sizes.p);
    phi(fit.terms.lambda, t, zz, sumu, logs)
}

// The new point becomes the current one: w, u and f.
fn take(fit: &Fit, s: &mut [f64])
    requires { HasRoom fit.now.sizes s.old }
    ensures { Makes fit.now.sizes taken_store s.old s.new }
{
    let l = fit.places;
    copy(s, l.w, l.neww, fit.sizes.p);
    copy(s, l.u, l.newu, fit.sizes.p);
    copy(s, l.f, l.newf, 2 * fit.sizes.p);
}

fn half_step(a: Scalars) -> Scalars
    ensures { result ≡ halved a }
{
    Scalars { s: 0.5 * a.s, ..a }
}

// A new point inside its bounds: it is taken where phi decreases enough, else the step is halved.
fn decide(fit: &Fit, s: &mut [f64], a: Scalars) -> Tried
    requires room { HasRoom fit.now.sizes s.old }
    requires suits { Suits fit.now.sizes fit.now.matrix.now }
    ensures { let f = fit.now in
        DidTry f.sizes (rest f.sizes s.old) (decide_by a
        (newphi_of f.sizes f.terms a.t (newz_store f.sizes f.terms f.matrix.now (vars f.sizes s.old)))
        (newz_store f.sizes f.terms f.matrix.now (vars f.sizes s.old))) result s.new }
{
    residuals(fit, s);
    let new = newphi(fit, s, a.t);
    if accepts(new, a.phi, a.s, a.gdx) {
        take(fit, s);
        return Tried::Accept(a);
    }
    Tried::Halve(half_step(a))
}

// One trial, with the step that the scalars have. A new point that is not inside its bounds is not weighed: the step is halved.
pub fn attempt(fit: &Fit, s: &mut [f64], a: Scalars) -> Tried
    requires room { HasRoom fit.now.sizes s.old }
    requires suits { Suits fit.now.sizes fit.now.matrix.now }
    ensures { let f = fit.now in DidTry f.sizes (rest f.sizes s.old)
        (tries f.sizes f.terms f.matrix.now (held a (vars f.sizes s.old))) result s.new }
{
    let l = fit.places;
    move_on(fit, s, a.s);
    let most = largest(s, l.newf, 2 * fit.sizes.p);
    if most < 0.0 {
        return decide(fit, s, a);
    }
    Tried::Halve(half_step(a))
}
