// The Newton terms of a round: loops over p elements, each one vector of others with the same index.
#![tactic(auto)]

ghost use Rattle.std.specs.Prelude.{◌≡◌, ◌<◌, ◌^◌, Float};
ghost use Rattle.std.specs.Float.Ieee.{neg};
ghost use Rattle.arrays.specs.Part.{part, put};
ghost use Rattle.arrays.specs.Vectors.{map_of, zip_of, One, Two};
ghost use Rattle.newton.specs.Newton.{start_t, next_t, over_sum, over_difference, sum_of_squares, difference_of_squares, g1_of, g2_at, prb_at, prs_of, tolerance, zip3_of, Three, GivesOfThree};

use arrays::sums::float_of;
use arrays::vectors::{map, zip};
use numbers::order::{maximum, minimum};

// The barrier's first weight: 1 / lambda, but at least 1 and at most 2 p / 0.001.
#[tactic(auto, unfolding(crate::specs::Newton::start_t))]
pub fn first_t(p: usize, lambda: f64) -> f64
    requires { p < 2 ^ 32 }
    ensures { result ≡ start_t p lambda }
{
    minimum(maximum(1.0, 1.0 / lambda), 2.0 * float_of(p) / 0.001)
}

// Where the last step was at least a half, t by the gap: never below what it was, and at most twice that. Else, and where the step is a NaN, as it was.
#[tactic(auto, unfolding(crate::specs::Newton::next_t))]
pub fn next_t(p: usize, s: f64, gap: f64, t: f64) -> f64
    requires { p < 2 ^ 32 }
    ensures { result ≡ next_t p s gap t }
{
    if s >= 0.5 {
        return maximum(t, minimum(2.0 * float_of(p) * 2.0 / gap, 2.0 * t));
    }
    t
}

// One vector made of three: each element of it is what f returns at those of a, b and c.
fn zip3<F: Fn(f64, f64, f64) -> f64>(
    s: &mut [f64],
    out: usize,
    a: usize,
    b: usize,
    c: usize,
    n: usize,
    f: F,
)
    requires places { Three s.old out a b c n }
    requires callable { F.IsAlwaysCallable f }
    ensures { (h : Float → Float → Float → Float) → GivesOfThree (F.post f) h
        → s.new ≡ put s.old out (zip3_of h n (part s.old a n) (part s.old b n) (part s.old c n)) }
{
    for i in 0..n {
        s[out + i] = f(s[a + i], s[b + i], s[c + i]);
    }
}

// 1 / (u + w)
pub fn over_sum(s: &mut [f64], out: usize, u: usize, w: usize, p: usize)
    requires { Two s.old out u w p }
    ensures { s.new ≡ put s.old out (zip_of over_sum p (part s.old u p) (part s.old w p)) }
{
    zip(s, out, u, w, p, |a, b| 1.0 / (a + b));
}

// 1 / (u - w)
pub fn over_difference(s: &mut [f64], out: usize, u: usize, w: usize, p: usize)
    requires { Two s.old out u w p }
    ensures { s.new ≡ put s.old out (zip_of over_difference p (part s.old u p) (part s.old w p)) }
{
    zip(s, out, u, w, p, |a, b| 1.0 / (a - b));
}

// (a² + b²) / t
pub fn sum_of_squares(s: &mut [f64], out: usize, a: usize, b: usize, t: f64, p: usize)
    requires { Two s.old out a b p }
    ensures { s.new ≡ put s.old out (zip_of (sum_of_squares t) p (part s.old a p) (part s.old b p)) }
{
    zip(s, out, a, b, p, |x, y| (x * x + y * y) / t);
}

// (a² - b²) / t
pub fn difference_of_squares(s: &mut [f64], out: usize, a: usize, b: usize, t: f64, p: usize)
    requires { Two s.old out a b p }
    ensures { s.new ≡ put s.old out (zip_of (difference_of_squares t) p (part s.old a p) (part s.old b p)) }
{
    zip(s, out, a, b, p, |x, y| (x * x - y * y) / t);
}

// g1, in the place of gradphi.
pub fn g1(s: &mut [f64], gradphi: usize, q1: usize, q2: usize, t: f64, p: usize)
    requires { Three s.old gradphi gradphi q1 q2 p }
    ensures { s.new
        ≡ put s.old gradphi (g1_of p t (part s.old gradphi p) (part s.old q1 p) (part s.old q2 p)) }
{
    zip3(
        s,
        gradphi,
        gradphi,
        q1,
        q2,
        p,
        |v, a, b| 2.0 * v - (a - b) / t,
    );
}

pub fn negated(s: &mut [f64], out: usize, a: usize, p: usize)
    requires { One s.old out a p }
    ensures { s.new ≡ put s.old out (map_of neg p (part s.old a p)) }
{
    map(s, out, a, p, |v| -v);
}

// -g2
pub fn negated_g2(s: &mut [f64], out: usize, q1: usize, q2: usize, lambda: f64, t: f64, p: usize)
    requires { Two s.old out q1 q2 p }
    ensures { s.new
        ≡ put s.old out (zip_of (λ (a b : Float). neg (g2_at lambda t a b)) p (part s.old q1 p) (part s.old q2 p)) }
{
    zip(s, out, q1, q2, p, |a, b| -(lambda - (a + b) / t));
}

// 2 + d1
pub fn prb(s: &mut [f64], out: usize, d1: usize, p: usize)
    requires { One s.old out d1 p }
    ensures { s.new ≡ put s.old out (map_of prb_at p (part s.old d1 p)) }
{
    map(s, out, d1, p, |v| 2.0 + v);
}

// prb * d1 - d2²
pub fn prs(s: &mut [f64], out: usize, prb: usize, d1: usize, d2: usize, p: usize)
    requires { Three s.old out prb d1 d2 p }
    ensures { s.new
        ≡ put s.old out (prs_of p (part s.old prb p) (part s.old d1 p) (part s.old d2 p)) }
{
    zip3(s, out, prb, d1, d2, p, |v, a, b| v * a - b * b);
}

// The solver's tolerance, from the gap and the gradient's norm, 0.1 at most. `later` takes a tenth: a round was made and no solve has missed its tolerance.
#[tactic(auto, unfolding(crate::specs::Newton::tolerance))]
pub fn solver_tolerance(later: bool, gap: f64, normg: f64) -> f64
    ensures { result ≡ tolerance later gap normg }
{
    let pcgtol = minimum(0.1, 0.001 * gap / minimum(1.0, normg));
    if later {
        return pcgtol * 0.1;
    }
    pcgtol
}
