// The transposed design that is not stored, times two vectors: each of its entries is made once for both, where no reciprocal is missing.
#![tactic(auto)]

ghost use Rattle.std.specs.Prelude.{◌≡◌, ◌+◌, ◌-◌, ◌*◌, ◌/◌, ◌≤◌, length};
ghost use Rattle.arrays.specs.Part.{part, put, tab};
ghost use Rattle.arrays.specs.Sums.{◌!◌, products, plus0};
ghost use Rattle.arrays.specs.Vectors.{fill_of};
ghost use Rattle.lazy_normalization.specs.Lazy.{lazy_at, lazy_columns, Reads};
ghost use Rattle.lazy_columns.specs.ColumnSums.{lazy_added, FourAdd};
ghost use Rattle.lazy_columns_both.specs.Both.{added_from, TwoRead, RowRead};

use arrays::vectors::{add_scaled_from, copy_from, fill, times};
use layout::Places;
use lazy_columns::{all_there, augment, columns};
use lazy_normalization::normalise;
use settings::Terms;
use several::four_at;

// The transposed design times the vector at v, and times the one at w into the first of y. Where a reciprocal is missing it takes two passes, the second product
// first.
pub fn columns_both(
    m: &[f64],
    n: usize,
    p: usize,
    t: Terms,
    s: &mut [f64],
    l: Places,
    v: usize,
    out: usize,
    w: usize,
    y: &mut [f64],
)
    requires reads { Reads m.now n p s.old l v (n + p) out p }
    requires reads_2 { Reads m.now n p s.old l w (n + p) out p }
    requires p_in_bounds { p ≤ length y.old }
    ensures s_after { s.new ≡ put s.old out (lazy_columns n p t m.now (part s.old l.centre p)
        (part s.old l.scale p) (part s.old l.recip p) (part s.old v (n + p))) }
    ensures y_after { y.new ≡ put y.old 0 (lazy_columns n p t m.now (part s.old l.centre p)
        (part s.old l.scale p) (part s.old l.recip p) (part s.old w (n + p))) }
{
    if all_there(s, l.recip, p) {
        one_pass(m, n, p, t, s, l, v, out, w, y);
        return;
    }
    columns(m, n, p, t, s, l, w, out);
    copy_from(y, 0, s, out, p);
    columns(m, n, p, t, s, l, v, out);
}

// The same where no reciprocal is missing.
fn one_pass(
    m: &[f64],
    n: usize,
    p: usize,
    t: Terms,
    s: &mut [f64],
    l: Places,
    v: usize,
    out: usize,
    w: usize,
    y: &mut [f64],
)
    requires { TwoRead m.now n p s.old l v out w y.old }
    ensures s_after { s.new ≡ put s.old out (lazy_columns n p t m.now (part s.old l.centre p)
        (part s.old l.scale p) (part s.old l.recip p) (part s.old v (n + p))) }
    ensures y_after { y.new ≡ put y.old 0 (lazy_columns n p t m.now (part s.old l.centre p)
        (part s.old l.scale p) (part s.old l.recip p) (part s.old w (n + p))) }
{
    sums(m, n, p, s, l, v, out, w, y);
    augment(s, out, t, v + n, p);
    times(y, 0, t.gamma, 0, p);
    add_scaled_from(y, 0, t.padding, s, w + n, p);
}

// Both column sums of all rows, from +0.
fn sums(
    m: &[f64],
    n: usize,
    p: usize,
    s: &mut [f64],
    l: Places,
    v: usize,
    out: usize,
    w: usize,
    y: &mut [f64],
)
    requires { TwoRead m.now n p s.old l v out w y.old }
    ensures s_after { s.new ≡ put s.old out (lazy_added n p m.now (part s.old l.centre p)
        (part s.old l.scale p) (part s.old l.recip p) (part s.old v (n + p)) (fill_of plus0 p)) }
    ensures y_after { y.new ≡ put y.old 0 (lazy_added n p m.now (part s.old l.centre p)
        (part s.old l.scale p) (part s.old l.recip p) (part s.old w (n + p)) (fill_of plus0 p)) }
{
    fill(s, out, p, 0.0);
    fill(y, 0, p, 0.0);
    add_fours(m, n, p, s, l, v, out, w, y);
    add_rest(m, n, p, s, l, v, out, w, y);
}

// All rows that fours reach, added to both sums.
fn add_fours(
    m: &[f64],
    n: usize,
    p: usize,
    s: &mut [f64],
    l: Places,
    v: usize,
    out: usize,
    w: usize,
    y: &mut [f64],
)
    requires { TwoRead m.now n p s.old l v out w y.old }
    ensures s_after { s.new ≡ put s.old out (lazy_added (4 * (n / 4)) p m.now (part s.old l.centre p)
        (part s.old l.scale p) (part s.old l.recip p) (part s.old v (n + p)) (part s.old out p)) }
    ensures y_after { y.new ≡ put y.old 0 (lazy_added (4 * (n / 4)) p m.now (part s.old l.centre p)
        (part s.old l.scale p) (part s.old l.recip p) (part s.old w (n + p)) (part y.old 0 p)) }
{
    let q = n / 4;
    for i in 0..q {
        let x = four_at(s, v + 4 * i, 1);
        let z = four_at(s, w + 4 * i, 1);
        add_four(m, 4 * i, p, x, z, s, l, out, y);
    }
}

// The four rows from i on times the numbers of x, added to the p sums at `out`, and times those of z, added to the first of y.
fn add_four(
    m: &[f64],
    i: usize,
    p: usize,
    x: [f64; 4],
    z: [f64; 4],
    s: &mut [f64],
    l: Places,
    out: usize,
    y: &mut [f64],
)
    requires four_add { FourAdd m.now i p s.old l out }
    requires p_in_bounds { p ≤ length y.old }
    ensures s_after { s.new
        ≡ put s.old out (tab (λ j. products (part s.old out p ! j) (λ k. lazy_at p m.now (part s.old l.centre p)
        (part s.old l.scale p) (part s.old l.recip p) (i + k) j) (λ k. x ! k) 4) p) }
    ensures y_after { y.new
        ≡ put y.old 0 (tab (λ j. products (part y.old 0 p ! j) (λ k. lazy_at p m.now (part s.old l.centre p)
        (part s.old l.scale p) (part s.old l.recip p) (i + k) j) (λ k. z ! k) 4) p) }
{
    let ce = l.centre;
    let rc = l.recip;
    let at = i * p;
    for j in 0..p {
        let c = s[ce + j];
        let by = s[rc + j];
        let mut a = s[out + j];
        let mut b = y[j];
        for k in 0..4 {
            let e = (m[at + k * p + j] - c) * by;
            a += e * x[k];
            b += e * z[k];
        }
        s[out + j] = a;
        y[j] = b;
    }
}

// The rows that are left, added to both sums.
fn add_rest(
    m: &[f64],
    n: usize,
    p: usize,
    s: &mut [f64],
    l: Places,
    v: usize,
    out: usize,
    w: usize,
    y: &mut [f64],
)
    requires { TwoRead m.now n p s.old l v out w y.old }
    ensures s_after { s.new ≡ put s.old out (added_from m.now p s.old l s.old out v (4 * (n / 4)) (n - 4 * (n / 4))) }
    ensures y_after { y.new ≡ put y.old 0 (added_from m.now p s.old l y.old 0 w (4 * (n / 4)) (n - 4 * (n / 4))) }
{
    let from = 4 * (n / 4);
    for i in from..n {
        let x = s[v + i];
        let z = s[w + i];
        let e = entries(m, i, p, s, l);
        add_scaled_from(s, out, x, &e, 0, p);
        add_scaled_from(y, 0, z, &e, 0, p);
    }
}

// Row i of the design, and +0 behind it.
fn entries(m: &[f64], i: usize, p: usize, s: &[f64], l: Places) -> [f64; 64]
    requires { RowRead m.now i p s.now l }
    ensures { result ≡ put (fill_of plus0 64) 0 (tab (λ j. lazy_at p m.now (part s.now l.centre p) (part s.now l.scale p)
        (part s.now l.recip p) i j) p) }
{
    let ce = l.centre;
    let sc = l.scale;
    let rc = l.recip;
    let at = i * p;
    let mut r = [0.0; 64];
    for j in 0..p {
        r[j] = normalise(m[at + j], s[ce + j], s[sc + j], s[rc + j]);
    }
    r
}
