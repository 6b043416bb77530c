// The line search's loops.
#![tactic(auto)]

ghost use Rattle.std.specs.Prelude.{◌≡◌, ◌+◌, ◌≤◌, length};
ghost use Rattle.arrays.specs.Part.{part, put};
ghost use Rattle.line_search.specs.Search.{faces_of, largest_of, sumlogneg_of, phi_of, decreases, Faces};

use logarithm::ln;
use numbers::order::maximum;

// f: the pair w - u and -w - u for each weight w and its bound u. Both are below 0 just where the weight is inside its bound.
pub fn faces(s: &mut [f64], out: usize, w: usize, u: usize, p: usize)
    requires { Faces s.old out w u p }
    ensures { s.new ≡ put s.old out (faces_of p (part s.old w p) (part s.old u p)) }
{
    for i in 0..p {
        let x = s[w + i];
        let y = s[u + i];
        let at = out + 2 * i;
        s[at] = x - y;
        s[at + 1] = -x - y;
    }
}

// The largest of n elements. A NaN is passed over; where there is no number it is -infinity.
pub fn largest(s: &[f64], a: usize, n: usize) -> f64
    requires { a + n ≤ length s.now }
    ensures { result ≡ largest_of n (part s.now a n) }
{
    s[a..a + n].iter().fold(-1.0 / 0.0, |t, v| maximum(*v, t))
}

// The sum of ln(-f), in index order from +0: a NaN where an element is above 0.
pub fn sumlogneg(s: &[f64], a: usize, n: usize) -> f64
    requires { a + n ≤ length s.now }
    ensures { result ≡ sumlogneg_of n (part s.now a n) }
{
    s[a..a + n].iter().fold(0.0, |t, v| t + ln(-*v))
}

// The objective of the search, from its three sums.
#[tactic(auto, unfolding(crate::specs::Search::phi_of))]
pub fn phi(lambda: f64, t: f64, zz: f64, sumu: f64, logs: f64) -> f64
    ensures { result ≡ phi_of lambda t zz sumu logs }
{
    zz + lambda * sumu - logs / t
}

// Whether phi decreases enough for the step s; a NaN does not.
#[tactic(auto, unfolding(crate::specs::Search::decreases))]
pub fn accepts(newphi: f64, phi: f64, s: f64, gdx: f64) -> bool
    ensures { result ≡ decreases newphi phi s gdx }
{
    newphi - phi <= 0.01 * s * gdx
}
