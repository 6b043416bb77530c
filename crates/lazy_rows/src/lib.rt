// The design that is not stored, of lazy_normalization.rs, times a vector: from the lent matrix, centres, scales and reciprocals.
#![tactic(auto)]

ghost use Rattle.std.specs.Prelude.{◌≡◌, ◌+◌, ◌*◌};
ghost use Rattle.numbers.specs.Ops.{◌⊗◌};
ghost use Rattle.arrays.specs.Part.{part, put, tab};
ghost use Rattle.arrays.specs.Sums.{products, plus0, ◌!◌};
ghost use Rattle.lazy_normalization.specs.Lazy.{lazy_at, lazy_rows, Reads};
ghost use Rattle.lazy_rows.specs.RowSums.{RowReads, EightRead};

use layout::Places;
use lazy_normalization::normalise;
use settings::Terms;
use several::put_eight;

// The Rust's matvec: the design times the vector at v, eight rows at a time, one from each run of e rows, then the remaining ones. The last p elements are those of
// the padding.
pub fn rows(m: &[f64], n: usize, p: usize, t: Terms, s: &mut [f64], l: Places, v: usize, out: usize)
    requires { Reads m.now n p s.old l v p out (n + p) }
    ensures { s.new ≡ put s.old out (lazy_rows n p t m.now (part s.old l.centre p)
        (part s.old l.scale p) (part s.old l.recip p) (part s.old v p)) }
{
    let e = n / 8;
    for i in 0..e {
        let x = eight_sums(m, i, e, p, s, l, v);
        put_eight(s, out + i, e, scaled(x, t.gamma));
    }
    for i in 8 * e..n {
        let x = row_sum(m, i, p, s, l, v);
        s[out + i] = x * t.gamma;
    }
    arrays::vectors::times(s, out + n, t.padding, v, p);
}

// Each of the eight times gamma.
fn scaled(mut x: [f64; 8], gamma: f64) -> [f64; 8]
    ensures { result ≡ tab (λ k. x ! k ⊗ gamma) 8 }
{
    for y in x.iter_mut() {
        *y *= gamma;
    }
    x
}

// The rows i, i + e, .. i + 7 * e times the vector at v: eight streams through memory, and eight sums of which none waits for another. Whether a column has a
// reciprocal is asked once for the eight.
fn eight_sums(m: &[f64], i: usize, e: usize, p: usize, s: &[f64], l: Places, v: usize) -> [f64; 8]
    requires { EightRead m.now i e p s.now l v }
    ensures { result ≡ tab (λ k. products plus0 (λ j. lazy_at p m.now (part s.now l.centre p) (part s.now l.scale p)
        (part s.now l.recip p) (k * e + i) j) (λ j. part s.now v p ! j) p) 8 }
{
    let ce = l.centre;
    let sc = l.scale;
    let rc = l.recip;
    let at = i * p;
    let apart = e * p;
    let mut x = [0.0; 8];
    for j in 0..p {
        let c = s[ce + j];
        let d = s[sc + j];
        let by = s[rc + j];
        let w = s[v + j];
        if by == 0.0 {
            for k in 0..8 {
                x[k] += (m[at + k * apart + j] - c) / d * w;
            }
        } else {
            for k in 0..8 {
                x[k] += (m[at + k * apart + j] - c) * by * w;
            }
        }
    }
    x
}

// Row i times the vector at v, from +0 in column order.
fn row_sum(m: &[f64], i: usize, p: usize, s: &[f64], l: Places, v: usize) -> f64
    requires { RowReads m.now i (i * p) p s.now l v }
    ensures { result ≡ products plus0 (λ j. lazy_at p m.now (part s.now l.centre p) (part s.now l.scale p)
        (part s.now l.recip p) i j) (λ j. part s.now v p ! j) p }
{
    let ce = l.centre;
    let sc = l.scale;
    let rc = l.recip;
    let at = i * p;
    let mut x = 0.0;
    for j in 0..p {
        x += normalise(m[at + j], s[ce + j], s[sc + j], s[rc + j]) * s[v + j];
    }
    x
}
