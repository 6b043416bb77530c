// Column statistics of a lent matrix, walked once by its rows. Each column's sums run in row order from +0.
#![tactic(auto)]

ghost use Rattle.std.specs.Prelude.{◌≡◌, ◌+◌, ◌*◌, ◌≤◌, length, Float};
ghost use Rattle.numbers.specs.Ops.{◌⊖◌, ◌⊗◌, ◌⊘◌};
ghost use Rattle.numbers.specs.Root.{root_of};
ghost use Rattle.arrays.specs.Part.{part, put, tab};
ghost use Rattle.arrays.specs.Vectors.{map_of, zip_of, Two};
ghost use Rattle.column_moments.specs.Stats.{column_mean_of, deviation_of, Moments};
ghost use Rattle.column_moments.specs.Added.{rows_added, Adds};

use arrays::sums::float_of;
use arrays::vectors::{fill, map, zip};
use numbers::powers::{Exponent, power};
use numbers::square_root::root;

// The columns' means and deviations, in place of their sums and sums of squares.
pub fn moments(m: &[f64], rows: usize, cols: usize, s: &mut [f64], means: usize, deviations: usize)
    requires { Moments m.now rows cols s.old means deviations }
    ensures { s.new ≡ put (put s.old means (tab (column_mean_of m.now rows cols) cols)) deviations
        (tab (deviation_of m.now rows cols) cols) }
{
    fill(s, means, cols, 0.0);
    fill(s, deviations, cols, 0.0);
    let q = rows / 4;
    let n = 4 * q;
    add_fours(m, q, s, means, deviations, cols);
    add_rows(m, n * cols, rows - n, s, means, deviations, cols);
    let d = float_of(rows);
    finish_means(s, means, d, cols);
    finish_deviations(s, deviations, means, d, cols);
}

// The first 4 * q rows added to the sums, and their squares to the sums of squares.
fn add_fours(m: &[f64], q: usize, s: &mut [f64], sums: usize, squares: usize, cols: usize)
    requires { Adds m.now 0 (4 * q) cols s.old sums squares }
    ensures { s.new ≡ rows_added s.old sums squares m.now 0 cols (4 * q) }
{
    for i in 0..q {
        add_four(m, 4 * i * cols, s, sums, squares, cols);
    }
}

// The same of four rows from `at` on: both sums of a column are read and written once for the four.
#[tactic(auto, using(matrices::proofs::Lengths::row_room))]
fn add_four(m: &[f64], at: usize, s: &mut [f64], sums: usize, squares: usize, cols: usize)
    requires { Adds m.now at 4 cols s.old sums squares }
    ensures { s.new ≡ rows_added s.old sums squares m.now at cols 4 }
{
    for j in 0..cols {
        let mut t = s[sums + j];
        let mut u = s[squares + j];
        for k in 0..4 {
            let x = m[at + k * cols + j];
            t = t + x;
            u = u + x * x;
        }
        s[sums + j] = t;
        s[squares + j] = u;
    }
}

// The same of the rows that are left, one at a time.
#[tactic(auto, using(matrices::proofs::Lengths::row_room))]
fn add_rows(
    m: &[f64],
    at: usize,
    left: usize,
    s: &mut [f64],
    sums: usize,
    squares: usize,
    cols: usize,
)
    requires { Adds m.now at left cols s.old sums squares }
    ensures { s.new ≡ rows_added s.old sums squares m.now at cols left }
{
    for i in 0..left {
        add_row(m, at + i * cols, s, sums, squares, cols);
    }
}

// The same of one row.
fn add_row(m: &[f64], at: usize, s: &mut [f64], sums: usize, squares: usize, cols: usize)
    requires { Adds m.now at 1 cols s.old sums squares }
    ensures { s.new ≡ rows_added s.old sums squares m.now at cols 1 }
{
    for j in 0..cols {
        let x = m[at + j];
        let t = s[sums + j] + x;
        let u = s[squares + j] + x * x;
        s[sums + j] = t;
        s[squares + j] = u;
    }
}

fn finish_means(s: &mut [f64], out: usize, d: f64, cols: usize)
    requires { out + cols ≤ length s.old }
    ensures { s.new ≡ put s.old out (map_of (λ (v : Float). v ⊘ d) cols (part s.old out cols)) }
{
    map(s, out, out, cols, |v| v / d);
}

// The variance over raw sums, then its root: a NaN where the computed variance is negative.
fn finish_deviations(s: &mut [f64], out: usize, means: usize, d: f64, cols: usize)
    requires { Two s.old out out means cols }
    ensures { s.new ≡ put s.old out (zip_of (λ (v mu : Float). root_of (v ⊘ d ⊖ mu ⊗ mu)) cols (part s.old out cols)
        (part s.old means cols)) }
{
    zip(
        s,
        out,
        out,
        means,
        cols,
        |v, mu| root(v / d - power(mu, Exponent::Two)),
    );
}
