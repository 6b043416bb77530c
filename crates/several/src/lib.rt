// Several sums or vectors at a time: sums side by side, of which none waits for another, and sums that are read and written once for several products. The order
// inside each sum is its own.
#![tactic(auto)]

ghost use Rattle.std.specs.Prelude.{◌≡◌, ◌+◌, ◌*◌, ◌≤◌, ◌<◌, length};
ghost use Rattle.arrays.specs.Part.{part, put, tab};
ghost use Rattle.arrays.specs.Sums.{◌!◌, product_of};
ghost use Rattle.several.specs.Several.{spread_of, added_of, Four};

use std::array;

// Eight sums of products side by side, so that none waits for another: sum k is of the n elements of x from a + k * apart. Each has its own order, from +0.
#[tactic(auto, using(crate::proofs::Several::few))]
pub fn eight(x: &[f64], a: usize, apart: usize, y: &[f64], b: usize, n: usize) -> [f64; 8]
    requires n_in_bounds { a + 7 * apart + n ≤ length x.now }
    requires n_in_bounds_2 { b + n ≤ length y.now }
    ensures { result ≡ tab (λ k. product_of n (part x.now (a + k * apart) n) (part y.now b n)) 8 }
{
    let mut t = [0.0; 8];
    for i in 0..n {
        let w = y[b + i];
        for k in 0..8 {
            t[k] = t[k] + x[a + k * apart + i] * w;
        }
    }
    t
}

// Eight numbers, `apart` from each other.
#[tactic(auto, using(crate::proofs::Several::few))]
pub fn put_eight(s: &mut [f64], out: usize, apart: usize, t: [f64; 8])
    requires { out + 7 * apart < length s.old }
    ensures { s.new ≡ spread_of s.old out apart (λ k. t ! k) 8 }
{
    for (k, v) in t.iter().enumerate() {
        s[out + k * apart] = *v;
    }
}

// Four elements that lie `apart` from each other.
pub fn four_at(s: &[f64], a: usize, apart: usize) -> [f64; 4]
    requires { a + 3 * apart < length s.now }
    ensures { result ≡ tab (λ k. s.now ! (a + k * apart)) 4 }
{
    array::from_fn(|k| s[a + k * apart])
}

// The products of four numbers with the elements of four vectors, added to n sums in turn: each sum is read and written once for the four.
#[tactic(auto, using(crate::proofs::Several::few))]
fn add_products(s: &mut [f64], out: usize, x: [f64; 4], r: usize, apart: usize, n: usize)
    requires { Four s.old out r apart n }
    ensures { s.new ≡ put s.old out (tab (added_of s.old out s.old (λ k. x ! k) r apart 4) n) }
{
    for j in 0..n {
        let mut t = s[out + j];
        for k in 0..4 {
            t = t + x[k] * s[r + k * apart + j];
        }
        s[out + j] = t;
    }
}

// The n sums at `out` plus four numbers, which lie `by` from each other from l on, times four vectors, which lie `apart` from each other from r on.
pub fn add_four(s: &mut [f64], out: usize, l: usize, by: usize, r: usize, apart: usize, n: usize)
    requires by_in_bounds { l + 3 * by < length s.old }
    requires four { Four s.old out r apart n }
    ensures { s.new ≡ put s.old out (tab (added_of s.old out s.old (λ k. s.old ! (l + k * by)) r apart 4) n) }
{
    let x = four_at(s, l, by);
    add_products(s, out, x, r, apart, n);
}

// The same with four other numbers for the first n of t besides: each element of the vectors is read once for both.
#[tactic(auto, using(crate::proofs::Several::few))]
fn add_products_both(
    s: &mut [f64],
    out: usize,
    x: [f64; 4],
    t: &mut [f64],
    z: [f64; 4],
    r: usize,
    apart: usize,
    n: usize,
)
    requires four { Four s.old out r apart n }
    requires n_in_bounds { n ≤ length t.old }
    ensures s_after { s.new ≡ put s.old out (tab (added_of s.old out s.old (λ k. x ! k) r apart 4) n) }
    ensures t_after { t.new ≡ put t.old 0 (tab (added_of t.old 0 s.old (λ k. z ! k) r apart 4) n) }
{
    for j in 0..n {
        let mut p = s[out + j];
        let mut q = t[j];
        for k in 0..4 {
            let w = s[r + k * apart + j];
            p = p + x[k] * w;
            q = q + z[k] * w;
        }
        s[out + j] = p;
        t[j] = q;
    }
}

// The n sums at `out` plus the four numbers from l times four vectors, and the first n of t plus the four from w times the same vectors.
pub fn add_four_both(
    s: &mut [f64],
    out: usize,
    l: usize,
    t: &mut [f64],
    w: usize,
    r: usize,
    apart: usize,
    n: usize,
)
    requires l_in_bounds { l + 3 < length s.old }
    requires w_in_bounds { w + 3 < length s.old }
    requires four { Four s.old out r apart n }
    requires n_in_bounds { n ≤ length t.old }
    ensures s_after { s.new ≡ put s.old out (tab (added_of s.old out s.old (λ k. s.old ! (l + k)) r apart 4) n) }
    ensures t_after { t.new ≡ put t.old 0 (tab (added_of t.old 0 s.old (λ k. s.old ! (w + k)) r apart 4) n) }
{
    let x = four_at(s, l, 1);
    let z = four_at(s, w, 1);
    add_products_both(s, out, x, t, z, r, apart, n);
}
