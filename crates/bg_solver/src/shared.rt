// What a solver round does without a matrix, over seven vectors of n elements in one slice.
ghost use Rattle.std.specs.Prelude.{◌≡◌, ◌+◌, ◌≤◌, length};
ghost use Rattle.numbers.specs.Ops.{◌⊘◌};
ghost use Rattle.arrays.specs.Part.{part};
ghost use Rattle.arrays.specs.Sums.{product_of, norm_two_of};
ghost use Rattle.bg_solver.specs.Shared.{Seated, direct_mem, advance_mem, turn_by, error_in};

use arrays::sums::{norm_2, product};
use arrays::vectors::{add_scaled, copy, scale_add, sub_scaled};

// A round's answer: the error and bkden. It stops where the error is at most the tolerance; a NaN is not.
#[derive(Clone, Copy)]
pub enum Turned {
    Stop(f64, f64),
    More(f64, f64),
}

// Where each of the seven vectors begins.
#[derive(Clone, Copy)]
pub struct Seven {
    pub x: usize,
    pub r: usize,
    pub rr: usize,
    pub z: usize,
    pub zz: usize,
    pub p: usize,
    pub pp: usize,
}

// Writes the directions p and pp: z and zz in the first round, later both from the old pp. Answers bknum, which the next round is given as bkden.
pub fn direct(s: &mut [f64], n: usize, w: Seven, first: bool, bkden: f64) -> f64
    requires { Seated s.old n w }
    ensures { (s.new
        ≡ direct_mem first bkden n w s.old) × (result ≡ product_of n (part s.old w.z n) (part s.old w.rr n)) }
{
    let bknum = product(s, w.z, s, w.rr, n);
    if first {
        copy(s, w.p, w.z, n);
        copy(s, w.pp, w.zz, n);
        return bknum;
    }
    let bk = bknum / bkden;
    scale_add(s, w.p, bk, w.pp, w.z, n);
    scale_add(s, w.pp, bk, w.pp, w.zz, n);
    bknum
}

// Takes the step along p: renews x, r and rr. The divisor is not tested, as in the Rust, so a 0 makes infinities and NaNs.
pub fn advance(s: &mut [f64], n: usize, w: Seven, bknum: f64)
    requires { Seated s.old n w }
    ensures { s.new ≡ advance_mem bknum n w s.old }
{
    let ak = bknum / product(s, w.z, s, w.pp, n);
    add_scaled(s, w.x, w.x, ak, w.p, n);
    sub_scaled(s, w.r, w.r, ak, w.z, n);
    sub_scaled(s, w.rr, w.rr, ak, w.zz, n);
}

// The norm of the residual at r over that of the right side: a NaN where both are 0.
pub fn error(s: &[f64], r: usize, n: usize, bnrm: f64) -> f64
    requires { r + n ≤ length s.now }
    ensures { result ≡ norm_two_of n (part s.now r n) ⊘ bnrm }
{
    norm_2(s, r, n) / bnrm
}

// Stop where the error is at most the tolerance, so never for a NaN.
pub fn answered(err: f64, bkden: f64, tol: f64) -> Turned
    ensures { result ≡ turn_by tol err bkden }
{
    if err <= tol {
        return Turned::Stop(err, bkden);
    }
    Turned::More(err, bkden)
}

// The error, whichever answer it is.
pub fn error_of(t: Turned) -> f64
    ensures { result ≡ error_in t }
{
    match t {
        Turned::Stop(e, _) => e,
        Turned::More(e, _) => e,
    }
}
