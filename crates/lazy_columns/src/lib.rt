// The transposed design that is not stored, of lazy_normalization.rs, times a vector: from the lent matrix, centres, scales and reciprocals.
#![tactic(auto)]

ghost use Rattle.std.specs.Prelude.{◌≡◌, ◌+◌, ◌*◌, ◌≤◌, length, Float};
ghost use Rattle.numbers.specs.Ops.{◌⊕◌, ◌⊗◌};
ghost use Rattle.arrays.specs.Part.{part, put, tab};
ghost use Rattle.arrays.specs.Vectors.{zip_of, Two};
ghost use Rattle.arrays.specs.Sums.{products, ◌!◌};
ghost use Rattle.lazy_normalization.specs.Lazy.{lazy_at, lazy_columns, Reads};
ghost use Rattle.lazy_columns.specs.ColumnSums.{all_there, RowAdds, FourAdd};

use arrays::vectors::fill;
use layout::Places;
use lazy_normalization::normalise;
use settings::Terms;
use several::four_at;

// The Rust's transpose_matvec: the transposed design times the vector at v. Rows are added to all sums at once, four at a time where no reciprocal is missing.
pub fn columns(
    m: &[f64],
    n: usize,
    p: usize,
    t: Terms,
    s: &mut [f64],
    l: Places,
    v: usize,
    out: usize,
)
    requires { Reads m.now n p s.old l v (n + p) out p }
    ensures { s.new ≡ put s.old out (lazy_columns n p t m.now (part s.old l.centre p)
        (part s.old l.scale p) (part s.old l.recip p) (part s.old v (n + p))) }
{
    let fours = if all_there(s, l.recip, p) { n / 4 } else { 0 };
    fill(s, out, p, 0.0);
    for i in 0..fours {
        let x = four_at(s, v + 4 * i, 1);
        add_four(m, 4 * i, p, x, s, l, out);
    }
    for i in 4 * fours..n {
        let x = s[v + i];
        add_row(m, i, p, x, s, l, out);
    }
    augment(s, out, t, v + n, p);
}

// Whether every reciprocal is there, so that nothing divides.
pub fn all_there(s: &[f64], rc: usize, p: usize) -> bool
    requires { rc + p ≤ length s.now }
    ensures { result ≡ all_there (part s.now rc p) p }
{
    let mut good = true;
    for j in 0..p {
        if s[rc + j] == 0.0 {
            good = false;
        }
    }
    good
}

// The four rows from i on times the numbers of x, added to the p sums at `out` in turn: each sum is read and written once for the four, and without a division
// the compiler works on two columns at a time.
fn add_four(m: &[f64], i: usize, p: usize, x: [f64; 4], s: &mut [f64], l: Places, out: usize)
    requires { FourAdd m.now i p s.old l out }
    ensures { s.new
        ≡ put s.old out (tab (λ j. products (part s.old out p ! j) (λ k. lazy_at p m.now (part s.old l.centre p)
        (part s.old l.scale p) (part s.old l.recip p) (i + k) j) (λ k. x ! k) 4) p) }
{
    let ce = l.centre;
    let rc = l.recip;
    let at = i * p;
    for j in 0..p {
        let c = s[ce + j];
        let by = s[rc + j];
        let mut t = s[out + j];
        for k in 0..4 {
            t += (m[at + k * p + j] - c) * by * x[k];
        }
        s[out + j] = t;
    }
}

// Row i times x, added to the p sums at `out`.
fn add_row(m: &[f64], i: usize, p: usize, x: f64, s: &mut [f64], l: Places, out: usize)
    requires { RowAdds m.now i (i * p) p s.old l out }
    ensures { s.new
        ≡ put s.old out (tab (λ j. part s.old out p ! j ⊕ lazy_at p m.now (part s.old l.centre p)
        (part s.old l.scale p) (part s.old l.recip p) i j ⊗ x) p) }
{
    let ce = l.centre;
    let sc = l.scale;
    let rc = l.recip;
    let at = i * p;
    for j in 0..p {
        s[out + j] += normalise(m[at + j], s[ce + j], s[sc + j], s[rc + j]) * x;
    }
}

// gamma times each sum, plus padding times the tail.
pub fn augment(s: &mut [f64], out: usize, t: Terms, tail: usize, p: usize)
    requires { Two s.old out out tail p }
    ensures { s.new
        ≡ put s.old out (zip_of (λ (v w : Float). t.gamma ⊗ v ⊕ t.padding ⊗ w) p (part s.old out p) (part s.old tail p)) }
{
    for j in 0..p {
        s[out + j] = t.gamma * s[out + j] + t.padding * s[tail + j];
    }
}
