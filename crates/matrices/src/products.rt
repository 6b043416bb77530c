// Products of a matrix, by rows, with a vector. Each entry's sum runs in its own order from +0, however the loops go through memory.
ghost use Rattle.std.specs.Prelude.{◌≡◌, ◌+◌, ◌*◌, ◌≤◌, ◌<◌, length};
ghost use Rattle.arrays.specs.Part.{part, put, tab};
ghost use Rattle.matrices.specs.Products.{rows_of, columns_of, column_product, Together, Beside};

use arrays::sums::product;
use several::{eight, put_eight};

// The matrix at `mat` times the vector at v: eight rows at a time, one from each run of e rows, then the remaining ones. So eight sums go side by side, of which
// none waits for another, and memory is read in eight streams.
pub fn rows(s: &mut [f64], mat: usize, rows: usize, cols: usize, v: usize, out: usize)
    requires { Together s.old mat (rows * cols) v cols out rows }
    ensures { s.new ≡ put s.old out (rows_of (part s.old mat (rows * cols)) rows cols (part s.old v cols)) }
{
    let e = rows / 8;
    for i in 0..e {
        let t = eight(s, mat + i * cols, e * cols, s, v, cols);
        put_eight(s, out + i, e, t);
    }
    for i in 8 * e..rows {
        s[out + i] = product(s, mat + i * cols, s, v, cols);
    }
}

// The same of a matrix in a slice of its own.
pub fn rows_of(m: &[f64], rows: usize, cols: usize, s: &mut [f64], v: usize, out: usize)
    requires { Beside m.now (rows * cols) s.old v cols out rows }
    ensures { s.new ≡ put s.old out (rows_of m.now rows cols (part s.old v cols)) }
{
    let e = rows / 8;
    for i in 0..e {
        let t = eight(m, i * cols, e * cols, s, v, cols);
        put_eight(s, out + i, e, t);
    }
    for i in 8 * e..rows {
        s[out + i] = product(m, i * cols, s, v, cols);
    }
}

// Column j of m times the vector at v.
pub fn column_product(m: &[f64], rows: usize, cols: usize, j: usize, s: &[f64], v: usize) -> f64
    requires cols_in_bounds { rows * cols ≤ length m.now }
    requires rows_in_bounds { v + rows ≤ length s.now }
    requires j_lt_cols { j < cols }
    ensures { result ≡ column_product m.now rows cols (part s.now v rows) j }
{
    let mut t = 0.0;
    for i in 0..rows {
        t += m[i * cols + j] * s[v + i];
    }
    t
}

// Columns j to j + 7 of m times the vector at v, side by side: no sum waits for another, and of each row eight neighbours are read.
fn eight_columns(m: &[f64], rows: usize, cols: usize, j: usize, s: &[f64], v: usize) -> [f64; 8]
    requires cols_in_bounds { rows * cols ≤ length m.now }
    requires rows_in_bounds { v + rows ≤ length s.now }
    requires j_bound { j + 8 ≤ cols }
    ensures { result ≡ tab (λ k. column_product m.now rows cols (part s.now v rows) (j + k)) 8 }
{
    let mut t = [0.0; 8];
    for i in 0..rows {
        let at = i * cols + j;
        let x = s[v + i];
        for k in 0..8 {
            t[k] += m[at + k] * x;
        }
    }
    t
}

// The transpose of a matrix in a slice of its own times the vector at v: eight columns at a time, then the remaining ones.
pub fn columns_of(m: &[f64], rows: usize, cols: usize, s: &mut [f64], v: usize, out: usize)
    requires { Beside m.now (rows * cols) s.old v rows out cols }
    ensures { s.new ≡ put s.old out (columns_of m.now rows cols (part s.old v rows)) }
{
    let e = cols / 8;
    for i in 0..e {
        let t = eight_columns(m, rows, cols, 8 * i, s, v);
        put_eight(s, out + 8 * i, 1, t);
    }
    for j in 8 * e..cols {
        s[out + j] = column_product(m, rows, cols, j, s, v);
    }
}
