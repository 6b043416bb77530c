// Products of a transposed matrix, by rows, with a vector: rows are added to all sums at once, so that memory is read in its order.
#![tactic(auto)]

ghost use Rattle.std.specs.Prelude.{◌≡◌, ◌*◌, ◌≤◌, length};
ghost use Rattle.arrays.specs.Part.{part, put};
ghost use Rattle.matrices.specs.Products.{columns_of, Together};

use arrays::vectors::{add_scaled, add_scaled_from, fill};
use several::{add_four, add_four_both};

// The transposed matrix at `mat` times the vector at v: rows are added to all sums at once, by fours, so that a sum is read and written once for the four, and
// then the rows that are left.
pub fn columns(s: &mut [f64], mat: usize, rows: usize, cols: usize, v: usize, out: usize)
    requires { Together s.old mat (rows * cols) v rows out cols }
    ensures { s.new ≡ put s.old out (columns_of (part s.old mat (rows * cols)) rows cols (part s.old v rows)) }
{
    fill(s, out, cols, 0.0);
    let fours = rows / 4;
    for i in 0..fours {
        add_four(s, out, v + 4 * i, 1, mat + 4 * i * cols, cols, cols);
    }
    for i in 4 * fours..rows {
        let x = s[v + i];
        add_scaled(s, out, out, x, mat + i * cols, cols);
    }
}

// The same and, into the first of t, the transposed matrix times the vector at w. It is a function of its own for speed: each row is read once for both products.
pub fn columns_both(
    s: &mut [f64],
    mat: usize,
    rows: usize,
    cols: usize,
    v: usize,
    out: usize,
    w: usize,
    t: &mut [f64],
)
    requires together { Together s.old mat (rows * cols) v rows out cols }
    requires together_2 { Together s.old mat (rows * cols) w rows out cols }
    requires cols_in_bounds { cols ≤ length t.old }
    ensures s_after { s.new ≡ put s.old out (columns_of (part s.old mat (rows * cols)) rows cols (part s.old v rows)) }
    ensures t_after { t.new ≡ put t.old 0 (columns_of (part s.old mat (rows * cols)) rows cols (part s.old w rows)) }
{
    fill(s, out, cols, 0.0);
    fill(t, 0, cols, 0.0);
    let fours = rows / 4;
    for i in 0..fours {
        add_four_both(
            s,
            out,
            v + 4 * i,
            t,
            w + 4 * i,
            mat + 4 * i * cols,
            cols,
            cols,
        );
    }
    for i in 4 * fours..rows {
        let at = mat + i * cols;
        let a = s[v + i];
        let b = s[w + i];
        add_scaled_from(t, 0, b, s, at, cols);
        add_scaled(s, out, out, a, at, cols);
    }
}
