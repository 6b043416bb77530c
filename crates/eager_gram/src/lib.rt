// The Gram of the stored design.
#![tactic(auto)]

ghost use Rattle.std.specs.Prelude.{◌≡◌};
ghost use Rattle.layout.specs.Slots.{Room, Makes};
ghost use Rattle.gram_panels.specs.Panels.{mat, low, carry};
ghost use Rattle.design.specs.Eager.{gram_store};
ghost use Rattle.eager_gram.specs.Added.{Added};

use arrays::vectors::{add_scaled, fill};
use gram_panels::mirror;
use layout::{Places, Sizes};
use several::add_four;

// The Gram of the stored design. It is symmetric to the bit, so that its lower half is summed and the other is the mirror.
pub fn gram(sh: Sizes, s: &mut [f64], l: Places)
    requires { Room sh l s.old }
    ensures { Makes sh (gram_store sh) s.old s.new }
{
    let g = l.gram;
    let p = sh.p;
    fill(s, g, p * p, 0.0);
    sums(s, g, p, l.design, sh.stored);
    mirror(s, g, p);
}

// The products of n rows from `at`, added to the lower triangle at g: by fours, and then the rows that are left. Each four are added to all entries before the
// next, so that memory is read in its order.
fn sums(s: &mut [f64], g: usize, p: usize, at: usize, n: usize)
    requires { Added s.old g p at n }
    ensures { s.new ≡ mat s.old g p low (carry s.old g p at at p n) p }
{
    let fours = n / 4;
    for i in 0..fours {
        four_rows(s, g, p, at + 4 * i * p);
    }
    for i in 4 * fours..n {
        one_row(s, g, p, at + i * p);
    }
}

// The same of four rows. Each sum is read and written once for four products.
fn four_rows(s: &mut [f64], g: usize, p: usize, at: usize)
    requires { Added s.old g p at 4 }
    ensures { s.new ≡ mat s.old g p low (carry s.old g p at at p 4) p }
{
    for r in 0..p {
        add_four(s, g + r * p, at + r, p, at, p, r + 1);
    }
}

// The same of one row.
fn one_row(s: &mut [f64], g: usize, p: usize, at: usize)
    requires { Added s.old g p at 1 }
    ensures { s.new ≡ mat s.old g p low (carry s.old g p at at p 1) p }
{
    for r in 0..p {
        let x = s[at + r];
        let out = g + r * p;
        add_scaled(s, out, out, x, at, r + 1);
    }
}
