// Pieces of a fit, each `count` times on lent scratch, for tools/speed. The answer is the place of the result in the scratch, or 0 where a size or a setting is
// wrong and nothing was done.
#![tactic(auto)]

ghost use Rattle.std.specs.Prelude.{◌≡◌, ◌≤◌, ◌+◌, ◌*◌, false, length};
ghost use Rattle.layout.specs.Need.{Small};
ghost use Rattle.layout.specs.Slots.{HasRoom, Suits, Panelled};

use arrays::vectors::copy_from;
use bg_solver::shared::Turned;
use c_values::{SETTINGS_WORDS, settings_from};
use checks::limits;
use design::statistics::{first_constant, statistics};
use design_products::{matvec, transposed};
use layout::fit::{Fit, Ranged};
use layout::{Sizes, need, place};
use settings::{Settings, Terms};

// A fit in 01's ranges whose panels, which no round of the solver reads, may have no words: a `Ranged` without `panel_rows` and `panel_columns`.
#[derive(Clone, Copy)]
struct Unpanelled<'b, 'a> {
    fit: &'b Fit<'a>,
    ghost small: { Small fit.now.sizes },
    ghost lent: { fit.now.sizes.n * fit.now.sizes.p ≤ length fit.now.matrix.now },
    ghost rows: { fit.now.sizes.n ≤ 4096 },
    ghost some_columns: { 1 ≤ fit.now.sizes.p },
    ghost all: { fit.now.sizes.k ≡ fit.now.sizes.n + fit.now.sizes.p },
    ghost stored: { fit.now.sizes.lazy ≡ false → fit.now.sizes.stored ≡ fit.now.sizes.k },
    ghost limit_bound: { fit.now.limit ≤ 1000 },
}

// The solver inside a fit: its first lines, and `count` rounds. `given` has d1, d2, prb, prs, dxu and grad, in the order of the scratch.
pub fn measure_round(
    gram: &[f64],
    given: &[f64],
    p: usize,
    tol: f64,
    count: usize,
    s: &mut [f64],
) -> usize {
    if p < 1 || p > 64 || gram.len() != p * p || given.len() != 8 * p {
        return 0;
    }
    // The solver reads neither matrix, panels nor terms: these are of a lazy fit of one row, without panels.
    let sizes = Sizes {
        n: 1,
        p,
        k: p + 1,
        lazy: true,
        stored: 0,
        pr: 0,
        pc: 0,
    };
    if s.len() < need(sizes) {
        return 0;
    }
    let fit = Fit {
        matrix: gram,
        sizes,
        places: place(sizes),
        terms: Terms {
            gamma: 0.0,
            padding: 0.0,
            lambda: 0.0,
        },
        normalise: true,
        tol,
        limit: 0,
    };
    copy_from(s, fit.places.gram, gram, 0, p * p);
    copy_from(s, fit.places.d1, given, 0, 8 * p);
    let unpanelled = Unpanelled { fit: &fit };
    rounds(unpanelled.fit, s, count);
    fit.places.dxu
}

fn rounds(fit: &Fit, s: &mut [f64], count: usize)
    requires { HasRoom fit.now.sizes s.old }
{
    let bnrm = inner_solver::begin(fit, s);
    let mut bkden = 0.0;
    for i in 0..count {
        let turned = inner_solver::turn(fit, s, i == 0, bkden, bnrm, fit.tol);
        let Turned::More(_, next) = turned else {
            return;
        };
        bkden = next;
    }
}

// What of a fit's work is repeated, and in brackets its number.
#[derive(Clone, Copy)]
enum Piece {
    // (0) statistics, reciprocals and the two vectors of `given`, of p and of n + p, in their slots
    Ready,
    // (1) the statistics again, with the scan for a constant column
    Statistics,
    // (2)
    StoredDesign,
    // (3)
    Gram,
    // (4) the design times the first vector
    Product,
    // (5, and any other) the transposed design times the second
    Transposed,
}

impl From<usize> for Piece {
    fn from(number: usize) -> Piece {
        match number {
            0 => Piece::Ready,
            1 => Piece::Statistics,
            2 => Piece::StoredDesign,
            3 => Piece::Gram,
            4 => Piece::Product,
            _ => Piece::Transposed,
        }
    }
}

// A piece of the work of a fit that normalises, whatever its settings say, and stores its design or not; `what` says which, and what `given` is. What is lent is
// checked as a start's is.
pub fn measure_piece(
    what: usize,
    m: &[f64],
    given: &[f64],
    n: usize,
    p: usize,
    settings: &[u64],
    count: usize,
    s: &mut [f64],
) -> usize {
    if settings.len() != SETTINGS_WORDS {
        return 0;
    }
    let st = Settings {
        normalise: true,
        ..settings_from(settings)
    };
    let Ok(()) = limits(n, p, m.len(), n, p, st, s.len()) else {
        return 0;
    };
    if given.len() != n + 2 * p {
        return 0;
    }
    let fit = Fit::new(m, n, p, st);
    let ranged = Ranged { fit };
    repeat(&ranged.fit, Piece::from(what), given, s, count)
}

fn repeat(fit: &Fit, piece: Piece, given: &[f64], s: &mut [f64], count: usize) -> usize
    requires room { HasRoom fit.now.sizes s.old }
    requires suits { Suits fit.now.sizes fit.now.matrix.now }
    requires some_columns { 1 ≤ fit.now.sizes.p }
    requires panelled { Panelled fit.now.sizes }
    requires vectors { length given.now ≡ fit.now.sizes.n + 2 * fit.now.sizes.p }
{
    let mut at = 0;
    for _ in 0..count {
        at = worked(fit, piece, given, s);
    }
    at
}

fn worked(fit: &Fit, piece: Piece, given: &[f64], s: &mut [f64]) -> usize
    requires room { HasRoom fit.now.sizes s.old }
    requires suits { Suits fit.now.sizes fit.now.matrix.now }
    requires some_columns { 1 ≤ fit.now.sizes.p }
    requires panelled { Panelled fit.now.sizes }
    requires vectors { length given.now ≡ fit.now.sizes.n + 2 * fit.now.sizes.p }
{
    let l = fit.places;
    match piece {
        Piece::Ready => {
            ready(fit, given, s);
            l.centre
        }
        Piece::Statistics => {
            if first_constant(fit.matrix, fit.sizes.n, fit.sizes.p).is_some() {
                return 0;
            }
            statistics(fit.matrix, fit.sizes, fit.normalise, s, l);
            l.centre
        }
        Piece::StoredDesign => stored(fit, s),
        Piece::Gram => gram(fit, s),
        Piece::Product => {
            matvec(fit, s, l.w, l.z);
            l.z
        }
        Piece::Transposed => {
            transposed(fit, s, l.nu, l.xnu);
            l.xnu
        }
    }
}

fn ready(fit: &Fit, given: &[f64], s: &mut [f64])
    requires room { HasRoom fit.now.sizes s.old }
    requires suits { Suits fit.now.sizes fit.now.matrix.now }
    requires vectors { length given.now ≡ fit.now.sizes.n + 2 * fit.now.sizes.p }
{
    let l = fit.places;
    statistics(fit.matrix, fit.sizes, fit.normalise, s, l);
    lazy_normalization::reciprocals(s, fit.sizes, l);
    copy_from(s, l.w, given, 0, fit.sizes.p);
    copy_from(s, l.nu, given, fit.sizes.p, fit.sizes.k);
}

// Not where nothing is stored.
fn stored(fit: &Fit, s: &mut [f64]) -> usize
    requires room { HasRoom fit.now.sizes s.old }
    requires suits { Suits fit.now.sizes fit.now.matrix.now }
{
    let l = fit.places;
    if fit.sizes.lazy {
        return 0;
    }
    design::eager::augment(fit.matrix, fit.sizes, fit.normalise, fit.terms, s, l);
    l.design
}

fn gram(fit: &Fit, s: &mut [f64]) -> usize
    requires room { HasRoom fit.now.sizes s.old }
    requires suits { Suits fit.now.sizes fit.now.matrix.now }
    requires some_columns { 1 ≤ fit.now.sizes.p }
    requires panelled { Panelled fit.now.sizes }
{
    let l = fit.places;
    if fit.sizes.lazy {
        lazy_gram::gram(fit.matrix, fit.sizes, fit.terms, s, l);
        return l.gram;
    }
    eager_gram::gram(fit.sizes, s, l);
    l.gram
}
