// Vectors of n elements in one slice, made element by element from others of it. An output is one of its inputs or has no element in common with it.
ghost use Rattle.std.specs.Prelude.{◌≡◌, ◌+◌, ◌≤◌, length, Float};
ghost use Rattle.numbers.specs.Ops.{◌⊕◌, ◌⊖◌, ◌⊗◌};
ghost use Rattle.arrays.specs.Part.{part, put};
ghost use Rattle.arrays.specs.Vectors.{map_of, zip_of, fill_of, One, Two, Gives, GivesOfTwo};

use numbers::bits::canonical;

pub fn fill(s: &mut [f64], out: usize, n: usize, x: f64)
    requires { out + n ≤ length s.old }
    ensures { s.new ≡ put s.old out (fill_of x n) }
{
    s[out..out + n].fill(x);
}

// n elements of another slice.
pub fn copy_from(s: &mut [f64], out: usize, t: &[f64], a: usize, n: usize)
    requires n_in_bounds { out + n ≤ length s.old }
    requires n_in_bounds_2 { a + n ≤ length t.now }
    ensures { s.new ≡ put s.old out (part t.now a n) }
{
    // The library's copies call memmove, which the archives for C would need from outside.
    for (i, v) in t[a..a + n].iter().enumerate() {
        s[out + i] = *v;
    }
}

pub fn copy(s: &mut [f64], out: usize, a: usize, n: usize)
    requires { One s.old out a n }
    ensures { s.new ≡ put s.old out (part s.old a n) }
{
    map(s, out, a, n, |v| v);
}

// One vector made of one: each element of it is what f returns at that of a.
pub fn map<F: Fn(f64) -> f64>(s: &mut [f64], out: usize, a: usize, n: usize, f: F)
    requires places { One s.old out a n }
    requires callable { F.IsAlwaysCallable f }
    ensures { (h : Float → Float) → Gives (F.post f) h → s.new ≡ put s.old out (map_of h n (part s.old a n)) }
{
    for i in 0..n {
        s[out + i] = f(s[a + i]);
    }
}

// One vector made of two: each element of it is what f returns at those of a and b.
pub fn zip<F: Fn(f64, f64) -> f64>(s: &mut [f64], out: usize, a: usize, b: usize, n: usize, f: F)
    requires places { Two s.old out a b n }
    requires callable { F.IsAlwaysCallable f }
    ensures { (h : Float → Float → Float) → GivesOfTwo (F.post f) h → s.new ≡ put s.old out (zip_of h n (part s.old a n) (part s.old b n)) }
{
    for i in 0..n {
        s[out + i] = f(s[a + i], s[b + i]);
    }
}

// x times a.
pub fn times(s: &mut [f64], out: usize, x: f64, a: usize, n: usize)
    requires { One s.old out a n }
    ensures { s.new ≡ put s.old out (map_of (λ (v : Float). x ⊗ v) n (part s.old a n)) }
{
    map(s, out, a, n, |v| x * v);
}

// a minus x.
pub fn sub_scalar(s: &mut [f64], out: usize, a: usize, x: f64, n: usize)
    requires { One s.old out a n }
    ensures { s.new ≡ put s.old out (map_of (λ (v : Float). v ⊖ x) n (part s.old a n)) }
{
    map(s, out, a, n, |v| v - x);
}

// a minus b.
pub fn sub(s: &mut [f64], out: usize, a: usize, b: usize, n: usize)
    requires { Two s.old out a b n }
    ensures { s.new ≡ put s.old out (zip_of (λ (v w : Float). v ⊖ w) n (part s.old a n) (part s.old b n)) }
{
    zip(s, out, a, b, n, |v, w| v - w);
}

// a plus x times b.
pub fn add_scaled(s: &mut [f64], out: usize, a: usize, x: f64, b: usize, n: usize)
    requires { Two s.old out a b n }
    ensures { s.new ≡ put s.old out (zip_of (λ (v w : Float). v ⊕ x ⊗ w) n (part s.old a n) (part s.old b n)) }
{
    zip(s, out, a, b, n, |v, w| v + x * w);
}

// The n elements at `out` plus x times n of another slice.
pub fn add_scaled_from(s: &mut [f64], out: usize, x: f64, t: &[f64], a: usize, n: usize)
    requires n_in_bounds { out + n ≤ length s.old }
    requires n_in_bounds_2 { a + n ≤ length t.now }
    ensures { s.new ≡ put s.old out (zip_of (λ (v w : Float). v ⊕ x ⊗ w) n (part s.old out n) (part t.now a n)) }
{
    for (i, w) in t[a..a + n].iter().enumerate() {
        s[out + i] = s[out + i] + x * *w;
    }
}

// x times a, plus b.
pub fn scale_add(s: &mut [f64], out: usize, x: f64, a: usize, b: usize, n: usize)
    requires { Two s.old out a b n }
    ensures { s.new ≡ put s.old out (zip_of (λ (v w : Float). x ⊗ v ⊕ w) n (part s.old a n) (part s.old b n)) }
{
    zip(s, out, a, b, n, |v, w| x * v + w);
}

// a minus x times b.
pub fn sub_scaled(s: &mut [f64], out: usize, a: usize, x: f64, b: usize, n: usize)
    requires { Two s.old out a b n }
    ensures { s.new ≡ put s.old out (zip_of (λ (v w : Float). v ⊖ x ⊗ w) n (part s.old a n) (part s.old b n)) }
{
    zip(s, out, a, b, n, |v, w| v - x * w);
}

// The NaN sweep: each NaN of the n elements from `a` gets its one pattern. In the logic, which has one NaN, nothing changes.
pub fn sweep(s: &mut [f64], a: usize, n: usize)
    requires { a + n ≤ length s.old }
    ensures { s.new ≡ s.old }
{
    for v in &mut s[a..a + n] {
        *v = canonical(*v);
    }
}
