// Panels of the normalised matrix, the products of two panels added to a block of the Gram's sums, and its upper triangle from the lower. Each sum takes the rows
// in their order.
#![tactic(auto)]

ghost use Rattle.std.specs.Prelude.{◌≡◌, ◌+◌, ◌*◌, ◌≤◌, length};
ghost use Rattle.arrays.specs.Part.{put, tab};
ghost use Rattle.gram_panels.specs.Panels.{norm_at, FillRow, mat, same, panel_at, Fill, wid, sum_at, EntryRow, carry, Block};
ghost use Rattle.gram_panels.specs.Panels.{across, right_of, from_below, MirrorRow};

use arrays::vectors::add_scaled;
use several::add_four;

// A band of a matrix by rows of p elements: nr rows from `row`.
#[derive(Clone, Copy)]
pub struct Band {
    pub p: usize,
    pub row: usize,
    pub nr: usize,
}

// A left and a right panel of nr rows, a row to each cc words: where they begin.
#[derive(Clone, Copy)]
pub struct Pair {
    pub left: usize,
    pub right: usize,
    pub cc: usize,
    pub nr: usize,
}

// n elements of a row of m, normalised, into s.
fn fill_row(m: &[f64], at: usize, s: &mut [f64], ce: usize, sc: usize, to: usize, n: usize)
    requires { FillRow m.now at s.old ce sc to n }
    ensures { s.new ≡ put s.old to (tab (norm_at m.now at s.old ce sc) n) }
{
    for b in 0..n {
        s[to + b] = (m[at + b] - s[ce + b]) / s[sc + b];
    }
}

// Writes the panel of the band's nc columns from `col`, normalised, a row to each cc words.
pub fn fill_panel(
    m: &[f64],
    b: Band,
    col: usize,
    nc: usize,
    s: &mut [f64],
    ce: usize,
    sc: usize,
    to: usize,
    cc: usize,
)
    requires { Fill m.now b.p b.row b.nr col nc s.old ce sc to cc }
    ensures { s.new ≡ mat s.old to cc (same nc) (panel_at m.now b.p s.old ce sc b.row col) b.nr }
{
    for i in 0..b.nr {
        let at = (b.row + i) * b.p + col;
        fill_row(m, at, s, ce + col, sc + col, to + i * cc, nc);
    }
}

// The products of the pair's rows, added to the w sums of one entry row: by fours, so that a sum is read and written once for four products, and then the rows
// that are left. Their loop is one of its own, since then the compiler tests once for all fours, and not for each, whether sums and panels overlap.
fn entry_row(s: &mut [f64], at: usize, w: usize, pair: Pair)
    requires { EntryRow s.old at w pair.left pair.right pair.cc pair.nr }
    ensures { s.new ≡ put s.old at (tab (sum_at s.old at pair.left pair.right pair.cc pair.nr) w) }
{
    let fours = pair.nr / 4;
    for i in 0..fours {
        let q = 4 * i * pair.cc;
        add_four(s, at, pair.left + q, pair.cc, pair.right + q, pair.cc, w);
    }
    for i in 4 * fours..pair.nr {
        let q = i * pair.cc;
        let v = s[pair.left + q];
        add_scaled(s, at, at, v, pair.right + q, w);
    }
}

// Adds the products of the pair's rows to nj rows of the sums at g, each nk wide at most: row a ends at the diagonal, which is d + a columns further on.
pub fn block(s: &mut [f64], g: usize, p: usize, nj: usize, nk: usize, d: usize, pair: Pair)
    requires { Block s.old g p nj nk d pair.left pair.right pair.cc pair.nr }
    ensures { s.new ≡ mat s.old g p (wid nk d) (carry s.old g p pair.left pair.right pair.cc pair.nr) nj }
{
    for a in 0..nj {
        let w = nk.min(d + a + 1);
        let left = pair.left + a;
        entry_row(s, g + a * p, w, Pair { left, ..pair });
    }
}

// n elements of a column, which begins at `from`, into the row at `to`.
fn mirror_row(s: &mut [f64], to: usize, from: usize, p: usize, n: usize)
    requires { MirrorRow s.old to from p n }
    ensures { s.new ≡ put s.old to (tab (across s.old from p) n) }
{
    for b in 0..n {
        s[to + b] = s[from + b * p];
    }
}

// The upper triangle from the lower, entry by entry: for a matrix that is symmetric to the bit, of which the lower half was made.
pub fn mirror(s: &mut [f64], ga: usize, p: usize)
    requires { ga + p * p ≤ length s.old }
    ensures { s.new ≡ mat s.old (ga + 1) (p + 1) (right_of p) (from_below s.old ga p) p }
{
    for k in 0..p {
        let q = k * (p + 1);
        mirror_row(s, ga + 1 + q, ga + p + q, p, p - (k + 1));
    }
}
