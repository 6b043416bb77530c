// The lone solver: a x = b, for a matrix in a slice of its own, from a start whose place the solution takes; behind the refusals of its input.
#![tactic(auto)]

ghost use Rattle.std.specs.Prelude.{◌≡◌, ◌*◌, ◌≤◌, length};
ghost use Rattle.lone_solver.specs.Solve.{Outcome.outcome, checked, valued, solve_of};

use arrays::scan::{finite, first_infinite};
use arrays::vectors::sweep;
use lone_rounds::run;
use numbers::bits::canonical;
use refusal::{Refusal, at};

// Solves a x = b in fewer than `limit` rounds, from the start in x, where it writes the solution; the scratch that it needs is +0 afterwards, and the error that
// the solver ended with is the answer. A call that is
// refused writes nothing. A NaN that is handed back has its one pattern. Total, for all input: it is `solve_of`.
#[tactic(auto, unfolding(crate::specs::Solve::solve_of))]
pub fn solve(
    n: usize,
    a: &[f64],
    b: &[f64],
    x: &mut [f64],
    tol: f64,
    limit: usize,
    s: &mut [f64],
) -> Result<f64, Refusal>
    ensures { outcome result x.new s.new ≡ solve_of n a.now b.now x.old tol limit s.old }
{
    check(n, a, b, x, tol, limit, s.len())?;
    let err = run(n, a, b, x, tol, limit, s);
    sweep(x, 0, n);
    Ok(canonical(err))
}

// The first refusal that holds: 1 to 5, then 8 and 10.
fn check(
    n: usize,
    a: &[f64],
    b: &[f64],
    x: &[f64],
    tol: f64,
    limit: usize,
    room: usize,
) -> Result<(), Refusal>
    ensures { result ≡ checked n a.now b.now x.now tol limit room }
{
    if n < 1 || n > 64 {
        return Err(Refusal::Size);
    }
    if a.len() != n * n || b.len() != n || x.len() != n {
        return Err(Refusal::Length);
    }
    if limit > 5000 || !finite(tol) {
        return Err(Refusal::Setting);
    }
    if room < 8 * n {
        return Err(Refusal::Scratch);
    }
    values(n, a, b, x, tol, limit)
}

// Refusal 5 over a, b and x, with its place counted through all three; then 8, for a tolerance that is not above 0, and 10, for a limit of 0.
fn values(n: usize, a: &[f64], b: &[f64], x: &[f64], tol: f64, limit: usize) -> Result<(), Refusal>
    requires a_len { length a.now ≡ n * n }
    requires b_len { length b.now ≡ n }
    requires n_bound { n ≤ 64 }
    ensures { result ≡ valued a.now b.now x.now tol limit }
{
    at(first_infinite(a), 0)?;
    at(first_infinite(b), n * n)?;
    at(first_infinite(x), n * n + n)?;
    if tol <= 0.0 {
        return Err(Refusal::Tolerance);
    }
    if limit == 0 {
        return Err(Refusal::NoRounds);
    }
    Ok(())
}
