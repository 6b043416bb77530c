// The lone solver's rounds: a x = b, for a matrix in a slice of its own, from a start whose place the solution takes. The scratch is eight vectors.
#![tactic(auto)]

ghost use Rattle.std.specs.Prelude.{◌≡◌, ◌*◌, length};
ghost use Rattle.arrays.specs.Part.{part, put};
ghost use Rattle.arrays.specs.Vectors.{Two};
ghost use Rattle.lone_rounds.specs.Lone.{diagonal_of, divided_of, over_of, Begun, LoneTurn, Loops};
ghost use Rattle.lone_rounds.specs.Loop.{solved, Runs, Ran, Looped};

use arrays::sums::norm_2;
use arrays::vectors::{copy, copy_from, fill, sub};
use bg_solver::shared::{Seven, Turned, advance, answered, direct, error, error_of};
use matrices::products::{columns_of, rows_of};

// Solves from the start in x, writes the solution there and answers the last error. The scratch is cleared before the rounds and again after them.
pub fn run(
    n: usize,
    a: &[f64],
    b: &[f64],
    x: &mut [f64],
    tol: f64,
    limit: usize,
    s: &mut [f64],
) -> f64
    requires { Runs n a.now b.now x.old limit s.old }
    ensures { Ran n (solved n a.now b.now x.old tol limit) s.old result x.new s.new }
{
    let all = 8 * n;
    fill(s, 0, all, 0.0);
    copy_from(s, 0, x, 0, n);
    let bnrm = begin(n, a, b, s);
    let err = rounds(n, a, bnrm, tol, limit, s);
    copy_from(x, 0, s, 0, n);
    fill(s, 0, all, 0.0);
    err
}

// The diagonal and the solver's first lines. Answers the norm of the right side.
fn begin(n: usize, a: &[f64], b: &[f64], s: &mut [f64]) -> f64
    requires loops { Loops n a.now s.old }
    requires b_len { length b.now ≡ n }
    ensures { Begun n a.now b.now s.old result s.new }
{
    let rr = 2 * n;
    diagonal(n, a, s);
    columns_of(a, n, n, s, 0, n);
    copy_from(s, rr, b, 0, n);
    sub(s, n, rr, n, n);
    copy(s, rr, n, n);
    divide(s, n, n, 3 * n);
    norm_2(b, 0, n)
}

// a's diagonal, into the eighth vector.
fn diagonal(n: usize, a: &[f64], s: &mut [f64])
    requires { Loops n a.now s.old }
    ensures { s.new ≡ put s.old (7 * n) (diagonal_of n a.now) }
{
    let out = 7 * n;
    for i in 0..n {
        s[out + i] = a[i * n + i];
    }
}

// solve_preconditioner: the vector at b over the diagonal, where that is not 0.
fn divide(s: &mut [f64], n: usize, b: usize, out: usize)
    requires { Two s.old out b (7 * n) n }
    ensures { s.new ≡ put s.old out (divided_of n (part s.old (7 * n) n) (part s.old b n)) }
{
    let d = 7 * n;
    for i in 0..n {
        s[out + i] = over(s[b + i], s[d + i]);
    }
}

fn over(b: f64, d: f64) -> f64
    ensures { result ≡ over_of b d }
{
    if d == 0.0 { b } else { b / d }
}

// One round. `first` says that the directions begin anew; `bkden` is the bknum of the round before.
fn turn(n: usize, a: &[f64], first: bool, bkden: f64, bnrm: f64, tol: f64, s: &mut [f64]) -> Turned
    requires { Loops n a.now s.old }
    ensures { LoneTurn n a.now first bkden bnrm tol s.old result s.new }
{
    let w = Seven {
        x: 0,
        r: n,
        rr: 2 * n,
        z: 3 * n,
        zz: 4 * n,
        p: 5 * n,
        pp: 6 * n,
    };
    divide(s, n, w.rr, w.zz);
    let bknum = direct(s, n, w, first, bkden);
    columns_of(a, n, n, s, w.p, w.z);
    rows_of(a, n, n, s, w.pp, w.zz);
    advance(s, n, w, bknum);
    divide(s, n, n, w.z);
    let err = error(s, n, n, bnrm);
    answered(err, bknum, tol)
}

// Rounds from 1 to below the limit, or until one stops. Answers the error of the last one, +0 where there was none.
fn rounds(n: usize, a: &[f64], bnrm: f64, tol: f64, limit: usize, s: &mut [f64]) -> f64
    requires { Loops n a.now s.old }
    ensures { Looped n a.now bnrm tol limit s.old result s.new }
{
    let mut err = 0.0;
    let mut bkden = 0.0;
    for iter in 1..limit {
        let t = turn(n, a, iter == 1, bkden, bnrm, tol, s);
        let Turned::More(e, d) = t else {
            return error_of(t);
        };
        err = e;
        bkden = d;
    }
    err
}
