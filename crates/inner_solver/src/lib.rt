// The solver inside a fit: its first lines and one round, over the scratch. The Gram lies there too.
#![tactic(auto)]

ghost use Rattle.std.specs.Prelude.{◌≡◌, ◌+◌, ◌*◌, ◌≤◌, length};
ghost use Rattle.arrays.specs.Part.{part, put, tab};
ghost use Rattle.matrices.specs.Products.{rows_of};
ghost use Rattle.layout.specs.Slots.{HasRoom, vars, rest};
ghost use Rattle.inner_solver.specs.Inner.{low_solved, high_solved, low_times, high_times, solved_of, times_of, Reads, Solves, Times, DidBegin, DidTurn};

use arrays::sums::norm_2;
use arrays::vectors::{copy, sub};
use bg_solver::shared::{Seven, Turned, advance, answered, direct, error};
use layout::fit::Fit;
use matrices::products::rows;

// The solver's first lines, from the direction that the last round left: the residual, a copy of it, and the preconditioned one. Answers the norm of the
// right side.
pub fn begin(fit: &Fit, s: &mut [f64]) -> f64
    requires { HasRoom fit.now.sizes s.old }
    ensures { let f = fit.now in
        DidBegin f.sizes (rest f.sizes s.old) (vars f.sizes s.old) result s.new }
{
    let n = 2 * fit.sizes.p;
    let l = fit.places;
    times(fit, s, l.dxu, l.r);
    sub(s, l.r, l.grad, l.r, n);
    copy(s, l.rr, l.r, n);
    precondition(fit, s, l.r, l.zs);
    norm_2(s, l.grad, n)
}

// One round of the solver. `first` says that the directions begin anew; `bkden` is the bknum of the round before. Answers the error and the next bkden.
pub fn turn(fit: &Fit, s: &mut [f64], first: bool, bkden: f64, bnrm: f64, tol: f64) -> Turned
    requires { HasRoom fit.now.sizes s.old }
    ensures { let f = fit.now in DidTurn f.sizes (rest f.sizes s.old) first bkden bnrm tol
        (vars f.sizes s.old) result s.new }
{
    let n = 2 * fit.sizes.p;
    let l = fit.places;
    let w = Seven {
        x: l.dxu,
        r: l.r,
        rr: l.rr,
        z: l.zs,
        zz: l.zz,
        p: l.ps,
        pp: l.pp,
    };
    precondition(fit, s, l.rr, l.zz);
    let bknum = direct(s, n, w, first, bkden);
    times(fit, s, l.ps, l.zs);
    times(fit, s, l.pp, l.zz);
    advance(s, n, w, bknum);
    precondition(fit, s, l.r, l.zs);
    let err = error(s, l.r, n, bnrm);
    answered(err, bknum, tol)
}

// The Rust's solve_preconditioner, of the vector at b: its lower half, then its upper.
fn precondition(fit: &Fit, s: &mut [f64], b: usize, out: usize)
    requires { Solves s.old fit.now.sizes.p fit.now.places b out }
    ensures { let f = fit.now in let p = f.sizes.p in s.new ≡ put s.old out (solved_of p
        (part s.old f.places.d1 p) (part s.old f.places.d2 p)
        (part s.old f.places.prb p) (part s.old f.places.prs p)
        (part s.old b (2 * p))) }
{
    let p = fit.sizes.p;
    let l = fit.places;
    low_solved(s, p, l.d1, l.d2, l.prs, b, out);
    high_solved(s, p, l.d2, l.prb, l.prs, b, out);
}

fn low_solved(s: &mut [f64], p: usize, d1: usize, d2: usize, prs: usize, b: usize, out: usize)
    requires { Reads s.old p d1 d2 prs b out }
    ensures { s.new ≡ put s.old out (tab (low_solved p (part s.old d1 p) (part s.old d2 p)
        (part s.old prs p) (part s.old b (2 * p))) p) }
{
    for i in 0..p {
        s[out + i] = (s[d1 + i] * s[b + i] - s[d2 + i] * s[b + (i + p)]) / s[prs + i];
    }
}

fn high_solved(s: &mut [f64], p: usize, d2: usize, prb: usize, prs: usize, b: usize, out: usize)
    requires { Reads s.old p d2 prb prs b out }
    ensures { s.new ≡ put s.old (out + p) (tab (high_solved p (part s.old d2 p) (part s.old prb p)
        (part s.old prs p) (part s.old b (2 * p))) p) }
{
    let high = out + p;
    for i in 0..p {
        s[high + i] = (-s[d2 + i] * s[b + i] + s[prb + i] * s[b + (i + p)]) / s[prs + i];
    }
}

// The Rust's mat_vec_mul, of the vector at x. The Gram's product with the lower half stands in a slot of its own meanwhile.
fn times(fit: &Fit, s: &mut [f64], x: usize, out: usize)
    requires { Times s.old fit.now.sizes.p fit.now.places x out }
    ensures { let f = fit.now in let p = f.sizes.p in let gram = part s.old f.places.gram (p * p) in
        s.new ≡ put (put s.old f.places.atax (rows_of gram p p (part s.old x p)))
        out (times_of p gram (part s.old f.places.d1 p) (part s.old f.places.d2 p)
        (part s.old x (2 * p))) }
{
    let p = fit.sizes.p;
    let l = fit.places;
    rows(s, l.gram, p, p, x, l.atax);
    low_times(s, p, l.d1, l.d2, l.atax, x, out);
    high_times(s, p, l.d1, l.d2, l.atax, x, out);
}

fn low_times(s: &mut [f64], p: usize, d1: usize, d2: usize, atax: usize, x: usize, out: usize)
    requires { Reads s.old p d1 d2 atax x out }
    ensures { s.new ≡ put s.old out (tab (low_times p (part s.old atax p) (part s.old d1 p)
        (part s.old d2 p) (part s.old x (2 * p))) p) }
{
    for i in 0..p {
        s[out + i] = 2.0 * s[atax + i] + s[d1 + i] * s[x + i] + s[d2 + i] * s[x + (i + p)];
    }
}

fn high_times(s: &mut [f64], p: usize, d1: usize, d2: usize, atax: usize, x: usize, out: usize)
    requires { Reads s.old p d1 d2 atax x out }
    ensures { s.new ≡ put s.old (out + p) (tab (high_times p (part s.old d1 p) (part s.old d2 p)
        (part s.old x (2 * p))) p) }
{
    let high = out + p;
    for i in 0..p {
        s[high + i] = s[d2 + i] * s[x + i] + s[d1 + i] * s[x + (i + p)];
    }
}
