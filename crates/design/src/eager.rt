// The stored design.
ghost use Rattle.std.specs.Prelude.{◌≡◌, ◌+◌, ◌*◌, ◌≤◌, length, true, false};
ghost use Rattle.arrays.specs.Part.{part, put, tab};
ghost use Rattle.matrices.specs.Grid.{grid};
ghost use Rattle.layout.specs.Slots.{Makes};
ghost use Rattle.design.specs.Statistics.{Given};
ghost use Rattle.design.specs.Eager.{design_store};
ghost use Rattle.design.specs.Rows.{row_of, diagonal_at, Row, Matrix};

use arrays::vectors::fill;
use layout::{Places, Sizes};
use settings::Terms;

// Writes the stored design: gamma times the matrix, normalised where that is asked, and p rows of padding below. Not for a lazy fit, whose slot is empty.
pub fn augment(m: &[f64], sh: Sizes, normalise: bool, t: Terms, s: &mut [f64], l: Places)
    requires given { Given sh l m.now s.old }
    requires stored_value { sh.stored ≡ sh.n + sh.p }
    ensures { Makes sh (design_store sh normalise t m.now) s.old s.new }
{
    let n = sh.n;
    let p = sh.p;
    rows(m, n, p, normalise, t.gamma, s, l.centre, l.scale, l.design);
    padding(s, l.design + n * p, p, t.padding);
}

fn rows(
    m: &[f64],
    n: usize,
    p: usize,
    normalise: bool,
    gamma: f64,
    s: &mut [f64],
    ce: usize,
    sc: usize,
    out: usize,
)
    requires { Matrix m.now n p s.old ce sc out }
    ensures { s.new
        ≡ put s.old out (grid (λ i. row_of normalise gamma m.now (i * p) (part s.old ce p)
        (part s.old sc p)) n p) }
{
    for i in 0..n {
        let at = i * p;
        row(m, at, normalise, gamma, s, ce, sc, out + at, p);
    }
}

// The row of m that begins at `at`, into `out`. The mode is tested here, once a row, and not for each entry.
fn row(
    m: &[f64],
    at: usize,
    normalise: bool,
    gamma: f64,
    s: &mut [f64],
    ce: usize,
    sc: usize,
    out: usize,
    p: usize,
)
    requires { Row m.now at p s.old ce sc out }
    ensures { s.new
        ≡ put s.old out (tab (row_of normalise gamma m.now at (part s.old ce p) (part s.old sc p)) p) }
{
    if normalise {
        normal_row(m, at, gamma, s, ce, sc, out, p);
    } else {
        raw_row(m, at, gamma, s, out, p);
    }
}

fn normal_row(
    m: &[f64],
    at: usize,
    gamma: f64,
    s: &mut [f64],
    ce: usize,
    sc: usize,
    out: usize,
    p: usize,
)
    requires { Row m.now at p s.old ce sc out }
    ensures { s.new
        ≡ put s.old out (tab (row_of true gamma m.now at (part s.old ce p) (part s.old sc p)) p) }
{
    for j in 0..p {
        s[out + j] = gamma * ((m[at + j] - s[ce + j]) / s[sc + j]);
    }
}

fn raw_row(m: &[f64], at: usize, gamma: f64, s: &mut [f64], out: usize, p: usize)
    requires p_in_bounds { at + p ≤ length m.now }
    requires p_in_bounds_2 { out + p ≤ length s.old }
    ensures { s.new ≡ put s.old out (tab (row_of false gamma m.now at s.old s.old) p) }
{
    for j in 0..p {
        s[out + j] = gamma * m[at + j];
    }
}

// p rows of +0 with x on the diagonal.
fn padding(s: &mut [f64], out: usize, p: usize, x: f64)
    requires { out + p * p ≤ length s.old }
    ensures { s.new ≡ put s.old out (grid (diagonal_at x) p p) }
{
    for r in 0..p {
        let at = out + r * p;
        fill(s, at, p, 0.0);
        s[at + r] = x;
    }
}
