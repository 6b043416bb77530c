// Sums of the n elements from `a` of a slice, in index order, each from the start that its line of the Rust has.
ghost use Rattle.std.specs.Prelude.{◌≡◌, ◌+◌, ◌≤◌, ◌<◌, ◌^◌, length};
ghost use Rattle.arrays.specs.Part.{part};
ghost use Rattle.arrays.specs.Sums.{sum_of, dot_of, product_of, norm1_of, norm2_of, norm_inf_of, mean_of, products, whole, ◌!◌};

use numbers::bits::magnitude;
use numbers::order::maximum;
use numbers::powers::{Exponent, power};

// From -0, which is the sum of no elements.
pub fn sum(x: &[f64], a: usize, n: usize) -> f64
    requires { a + n ≤ length x.now }
    ensures { result ≡ sum_of n (part x.now a n) }
{
    x[a..a + n].iter().fold(-0.0, |t, v| t + *v)
}

// The sum of the products of two parts.
fn sum_of_products(start: f64, x: &[f64], a: usize, y: &[f64], b: usize, n: usize) -> f64
    requires n_in_bounds { a + n ≤ length x.now }
    requires n_in_bounds_2 { b + n ≤ length y.now }
    ensures { result ≡ products start (λ i. part x.now a n ! i) (λ i. part y.now b n ! i) n }
{
    x[a..a + n]
        .iter()
        .zip(&y[b..b + n])
        .fold(start, |t, (v, w)| t + *v * *w)
}

// From -0, which is the answer where n is 0.
pub fn dot(x: &[f64], a: usize, y: &[f64], b: usize, n: usize) -> f64
    requires n_in_bounds { a + n ≤ length x.now }
    requires n_in_bounds_2 { b + n ≤ length y.now }
    ensures { result ≡ dot_of n (part x.now a n) (part y.now b n) }
{
    sum_of_products(-0.0, x, a, y, b, n)
}

// Three dots: of a with itself, of b with itself, and of b with c.
#[derive(Clone, Copy)]
pub struct Dots {
    pub aa: f64,
    pub bb: f64,
    pub bc: f64,
}

// Side by side, so that none waits for another; each as `dot` has it.
pub fn three_dots(x: &[f64], a: usize, b: usize, c: usize, n: usize) -> Dots
    requires n_in_bounds { a + n ≤ length x.now }
    requires n_in_bounds_2 { b + n ≤ length x.now }
    requires n_in_bounds_3 { c + n ≤ length x.now }
    ensures aa_value { result.aa ≡ dot_of n (part x.now a n) (part x.now a n) }
    ensures bb_value { result.bb ≡ dot_of n (part x.now b n) (part x.now b n) }
    ensures bc_value { result.bc ≡ dot_of n (part x.now b n) (part x.now c n) }
{
    let mut aa = -0.0;
    let mut bb = -0.0;
    let mut bc = -0.0;
    for i in 0..n {
        let u = x[a + i];
        let v = x[b + i];
        aa = aa + u * u;
        bb = bb + v * v;
        bc = bc + v * x[c + i];
    }
    Dots { aa, bb, bc }
}

// As `dot`, but from +0: some lines of the Rust begin with the one and some with the other.
#[tactic(auto, unfolding(crate::specs::Sums::product_of))]
pub fn product(x: &[f64], a: usize, y: &[f64], b: usize, n: usize) -> f64
    requires n_in_bounds { a + n ≤ length x.now }
    requires n_in_bounds_2 { b + n ≤ length y.now }
    ensures { result ≡ product_of n (part x.now a n) (part y.now b n) }
{
    sum_of_products(0.0, x, a, y, b, n)
}

// The sum of the magnitudes, from +0.
pub fn norm_1(x: &[f64], a: usize, n: usize) -> f64
    requires { a + n ≤ length x.now }
    ensures { result ≡ norm1_of n (part x.now a n) }
{
    x[a..a + n].iter().fold(0.0, |t, v| t + magnitude(*v))
}

// The root of the sum of squares, for the Rust's norm2 and its norm(2), whose definitions agree.
#[tactic(auto, unfolding(crate::specs::Sums::product_of, crate::specs::Sums::norm2_of))]
pub fn norm_2(x: &[f64], a: usize, n: usize) -> f64
    requires { a + n ≤ length x.now }
    ensures { result ≡ norm2_of n (part x.now a n) }
{
    power(product(x, a, x, a, n), Exponent::Half)
}

// The largest magnitude. A NaN is passed over; where there is no number it is -infinity.
pub fn norm_inf(x: &[f64], a: usize, n: usize) -> f64
    requires { a + n ≤ length x.now }
    ensures { result ≡ norm_inf_of n (part x.now a n) }
{
    x[a..a + n]
        .iter()
        .fold(-1.0 / 0.0, |t, v| maximum(t, magnitude(*v)))
}

// n as f64, exactly: it goes by way of u32, whose values an f64 has all.
pub fn float_of(n: usize) -> f64
    requires { n < 2 ^ 32 }
    ensures { result ≡ whole n }
{
    n as u32 as f64
}

// The sum from -0 over n: a NaN where n is 0.
#[tactic(auto, unfolding(crate::specs::Sums::mean_of))]
pub fn mean(x: &[f64], a: usize, n: usize) -> f64
    requires n_in_bounds { a + n ≤ length x.now }
    requires n_bound { n < 2 ^ 32 }
    ensures { result ≡ mean_of n (part x.now a n) }
{
    sum(x, a, n) / float_of(n)
}
