// The Gram of the design in panels of R rows by C columns, from the lent matrix. Each entry's sum runs over the rows in their order, whatever the panels.
#![tactic(auto)]

ghost use Rattle.std.specs.Prelude.{◌≡◌, ◌+◌, ◌-◌, ◌*◌, ◌≤◌, length};
ghost use Rattle.arrays.specs.Part.{put, tab};
ghost use Rattle.layout.specs.Slots.{Makes};
ghost use Rattle.gram_panels.specs.Panels.{mat, same, least, cell, low};
ghost use Rattle.lazy_gram.specs.Gram.{lazy_gram_store, Lent};
ghost use Rattle.lazy_gram.specs.Nest.{Like, entry, advanced, Pairs, tri, advanced_low, Lie, Column, Rows, Clear, nones};
ghost use Rattle.lazy_gram.specs.Nest.{raised_at, gram_at};

use arrays::vectors::{fill, sweep, times};
use gram_panels::{Band, Pair, block, fill_panel, mirror};
use layout::{Places, Sizes};
use settings::Terms;

// Where things lie in the scratch: the columns' centres and scales, the left and the right panel, whose rows have cc words, and the Gram.
#[derive(Clone, Copy)]
pub struct GramPlaces {
    pub ce: usize,
    pub sc: usize,
    pub le: usize,
    pub ri: usize,
    pub cc: usize,
    pub ga: usize,
}

// For the band's rows: adds the products of the nj columns from jb * cc, which the left panel holds, with each column before them.
fn pairs(m: &[f64], b: Band, s: &mut [f64], pl: GramPlaces, jb: usize, nj: usize)
    requires { Pairs m.now b.p b.row b.nr s.old pl jb nj }
    ensures { Like pl.ri (pl.ri + b.nr * pl.cc) s.new (advanced m.now b.p b.row b.nr s.old pl (jb * pl.cc)
        (same (jb * pl.cc)) nj) }
{
    let j = jb * pl.cc;
    let g = pl.ga + j * b.p;
    let pair = Pair {
        left: pl.le,
        right: pl.ri,
        cc: pl.cc,
        nr: b.nr,
    };
    for kb in 0..jb {
        let k = kb * pl.cc;
        fill_panel(m, b, k, pl.cc, s, pl.ce, pl.sc, pl.ri, pl.cc);
        block(s, g + k, b.p, nj, pl.cc, j - k, pair);
    }
}

// For the band's rows: adds the products of the columns from jb * cc, cc at most, with each column up to them.
fn column(m: &[f64], b: Band, s: &mut [f64], pl: GramPlaces, jb: usize)
    requires { Column m.now b.p b.row b.nr s.old pl jb }
    ensures { Like pl.le (pl.ri + b.nr * pl.cc) s.new (advanced m.now b.p b.row b.nr s.old pl (jb * pl.cc)
        (tri (jb * pl.cc)) (least (b.p - jb * pl.cc) pl.cc)) }
{
    let j = jb * pl.cc;
    let nj = pl.cc.min(b.p - j);
    fill_panel(m, b, j, nj, s, pl.ce, pl.sc, pl.le, pl.cc);
    pairs(m, b, s, pl, jb, nj);
    let own = Pair {
        left: pl.le,
        right: pl.le,
        cc: pl.cc,
        nr: b.nr,
    };
    block(s, pl.ga + j * b.p + j, b.p, nj, nj, 0, own);
}

// For the band's rows: adds the products of all pairs of columns.
fn row_block(m: &[f64], b: Band, s: &mut [f64], pl: GramPlaces)
    requires { Lie m.now b.p b.row b.nr s.old pl }
    ensures { Like pl.le (pl.ri + b.nr * pl.cc) s.new (advanced_low m.now b.p b.row b.nr s.old pl b.p) }
{
    for jb in 0..b.p.div_ceil(pl.cc) {
        column(m, b, s, pl, jb);
    }
}

// Adds the products of all n rows, in bands of rr.
fn rows(m: &[f64], n: usize, p: usize, rr: usize, s: &mut [f64], pl: GramPlaces)
    requires rows { Rows m.now n p rr s.old pl }
    requires clear { Clear s.old p pl.ga }
    ensures { Like pl.le (pl.ri + rr * pl.cc) s.new (mat s.old pl.ga p low
        (entry (cell m.now p s.old pl.ce pl.sc) n) p) }
{
    for row in (0..n).step_by(rr) {
        let nr = rr.min(n - row);
        row_block(m, Band { p, row, nr }, s, pl);
    }
}

// The lower triangle to +0.
fn clear_low(s: &mut [f64], ga: usize, p: usize)
    requires { ga + p * p ≤ length s.old }
    ensures { s.new ≡ mat s.old ga p low nones p }
{
    for j in 0..p {
        fill(s, ga + j * p, j + 1, 0.0);
    }
}

// Row j of the lower triangle times gg, its diagonal plus pp.
fn augment_row(s: &mut [f64], at: usize, j: usize, gg: f64, pp: f64)
    requires { at + (j + 1) ≤ length s.old }
    ensures { s.new ≡ put s.old at (tab (raised_at s.old at gg pp j) (j + 1)) }
{
    times(s, at, gg, at, j);
    s[at + j] = s[at + j] * gg + pp;
}

fn augment(s: &mut [f64], ga: usize, p: usize, gg: f64, pp: f64)
    requires { ga + p * p ≤ length s.old }
    ensures { s.new ≡ mat s.old ga p low (λ j. raised_at s.old (ga + j * p) gg pp j) p }
{
    for j in 0..p {
        augment_row(s, ga + j * p, j, gg, pp);
    }
}

// The whole Gram; the panels keep what was last in them.
fn fill_gram(
    m: &[f64],
    n: usize,
    p: usize,
    rr: usize,
    s: &mut [f64],
    pl: GramPlaces,
    gg: f64,
    pp: f64,
)
    requires { Rows m.now n p rr s.old pl }
    ensures { Like pl.le (pl.ri + rr * pl.cc) s.new (put s.old pl.ga
        (gram_at n p gg pp m.now s.old pl.ce pl.sc)) }
{
    clear_low(s, pl.ga, p);
    rows(m, n, p, rr, s, pl);
    augment(s, pl.ga, p, gg, pp);
    mirror(s, pl.ga, p);
    sweep(s, pl.ga, p * p);
}

// Writes the Gram of the design that is not stored: by panels that of the normalised matrix, then times gamma squared, with padding squared added to the
// diagonal. The panels are +0 afterwards.
pub fn gram(m: &[f64], sh: Sizes, t: Terms, s: &mut [f64], l: Places)
    requires { Lent sh l m.now s.old }
    ensures { Makes sh (lazy_gram_store sh t m.now) s.old s.new }
{
    let le = l.left;
    let gg = t.gamma * t.gamma;
    let pp = t.padding * t.padding;
    let pl = GramPlaces {
        ce: l.centre,
        sc: l.scale,
        le,
        ri: l.right,
        cc: sh.pc,
        ga: l.gram,
    };
    fill_gram(m, sh.n, sh.p, sh.pr, s, pl, gg, pp);
    fill(s, le, l.sums - le, 0.0);
}
