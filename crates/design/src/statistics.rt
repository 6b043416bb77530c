// The statistics of the columns, the test for a constant one, and the centred targets.
ghost use Rattle.std.specs.Prelude.{◌≡◌, ◌*◌, ◌≤◌, length};
ghost use Rattle.layout.specs.Slots.{Makes};
ghost use Rattle.design.specs.Statistics.{constant_of, statistics_store, targets_store, Given, Targets};

use arrays::sums::mean;
use arrays::vectors::{copy_from, fill, sub_scalar};
use column_moments::moments;
use layout::{Places, Sizes};
use numbers::bits::magnitude;

// The lowest constant column, that is, one whose deviation is below epsilon; a NaN is not. It writes nothing that is lent, so that refusal 6 is found before
// the first word is written.
pub fn first_constant(m: &[f64], n: usize, p: usize) -> Option<usize>
    requires p_in_bounds { n * p ≤ length m.now }
    requires n_bound { n ≤ 4096 }
    requires p_bound { p ≤ 64 }
    ensures { result ≡ constant_of m.now n p }
{
    let mut t = [0.0; 128];
    moments(m, n, p, &mut t, 0, 64);
    for j in 0..p {
        if magnitude(t[64 + j] - 0.0) < 2.220446049250313e-16 {
            return Some(j);
        }
    }
    None
}

// The columns' means and deviations, into their slots; where the fit does not normalise 0 and 1, with which normalising changes nothing.
pub fn statistics(m: &[f64], sh: Sizes, normalise: bool, s: &mut [f64], l: Places)
    requires { Given sh l m.now s.old }
    ensures { Makes sh (statistics_store sh normalise m.now) s.old s.new }
{
    if normalise {
        moments(m, sh.n, sh.p, s, l.centre, l.scale);
    } else {
        fill(s, l.centre, sh.p, 0.0);
        fill(s, l.scale, sh.p, 1.0);
    }
}

// The targets with p zeros, less the mean over all of them.
pub fn targets(y: &[f64], sh: Sizes, s: &mut [f64], l: Places)
    requires { Targets sh l y.now s.old }
    ensures { Makes sh (targets_store sh y.now) s.old s.new }
{
    let out = l.y;
    let n = sh.n;
    let k = sh.k;
    copy_from(s, out, y, 0, n);
    fill(s, out + n, sh.p, 0.0);
    let mu = mean(s, out, k);
    sub_scalar(s, out, out, mu, k);
}
