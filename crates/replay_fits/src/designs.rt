// Designs: what a start leaves of statistics, targets and Gram, and the products with the design and its transpose; a lazy one with panels of
// 1 by 1, 7 by 3 and 256 by 32. The words are rows, columns, the settings, the answers (means, deviations, gamma, padding, lambda, centred targets,
// Gram, both products) and the vectors of the products; the numbers matrix and targets.
ghost use Rattle.std.specs.Prelude.{◌≡◌, ◌*◌, ◌≤◌, length, IfSome};

use c_values::settings_from;
use checks::limits;
use design_products::{matvec, transposed};
use elastic_net::start;
use layout::fit::{Fit, Ranged};
use numbers::bits::bits_of;
use settings::{Settings, terms_of};
use stored::Damaged;
use stored::bits::{all, load, same};
use stored::memory::Marks;
use stored::tally::Compared;

const NONE: Compared = Compared([false; 4]);

// Which of the numbers are those stored: statistics and terms; targets; Gram, with the panels +0 afterwards; both products, with nothing written behind the
// needed words.
pub fn verdict(w: &[u64], x: &[f64], y: &[f64]) -> Result<Compared, Damaged> {
    if w.len() < 13 {
        return Err(Damaged(0));
    }
    let one = tried(w, x, y, 1, 1);
    if w[9] == 0 {
        return Ok(one);
    }
    let odd = tried(w, x, y, 7, 3);
    let large = tried(w, x, y, 256, 32);
    Ok(one.and(odd).and(large))
}

// A design, and where its Gram stands in the scratch.
#[derive(Clone, Copy)]
struct Design<'a> {
    w: &'a [u64],
    x: &'a [f64],
    y: &'a [f64],
    st: Settings,
    n: usize,
    p: usize,
    gram: usize,
    ghost w_len: { 13 ≤ length w.now },
    ghost n_bound: { n ≤ 4096 },
    ghost p_bound: { p ≤ 64 },
    ghost gram_bound: { gram ≤ 50000 },
}

// On a marked scratch that is eight words longer than it need be. The places in it are those of docs/LAYOUT.md.
fn tried(w: &[u64], x: &[f64], y: &[f64], rows: usize, cols: usize) -> Compared
    requires in_bounds { 13 ≤ length w.now }
    requires rows_bound { rows ≤ 256 }
    requires cols_bound { cols ≤ 32 }
{
    let st = Settings {
        panel_rows: rows,
        panel_cols: cols,
        ..settings_from(&w[2..10])
    };
    let n = w[0] as usize;
    let p = w[1] as usize;
    if n > 4096 || p > 64 {
        return NONE;
    }
    let (panels, stored) = if st.lazy {
        (2 * area(rows, cols) + area(cols, cols), 0)
    } else {
        (0, area(n + p, p))
    };
    let gram = 40 * p + panels;
    let end = gram + area(p, p) + 4 * (n + p) + stored;
    if end > 32760 {
        return NONE;
    }
    let mut s = [7.5; 32768];
    let design = Design {
        w,
        x,
        y,
        st,
        n,
        p,
        gram,
    };
    design.tried(&mut s[..end + 8])
}

// A bound without a product, for what a caller adds up.
fn area(n: usize, p: usize) -> usize
    requires n_bound { n ≤ 4160 }
    requires p_bound { p ≤ 64 }
    ensures { result ≤ 64 * n }
{
    n * p
}

impl Design<'_> {
    fn tried(self, s: &mut [f64]) -> Compared {
        Marks::default().fill(s);
        if start(self.n, self.p, self.x, self.y, self.st, s).is_err() {
            return NONE;
        }
        self.vectors(s);
        if !self.multiplied(s) {
            return NONE;
        }
        self.compared(s)
    }

    // The vectors of the products, in the places of the weights and of nu.
    fn vectors(self, s: &mut [f64]) {
        let p = self.p;
        let k = self.n + p;
        let g = area(p, p);
        let v = 13 + 3 * p + 2 * k + g;
        put(s, 0, self.w, v, p);
        put(s, self.gram + g + 2 * k, self.w, v + p, k);
    }

    // The design times the vector in the place of the weights to that of z, and its transpose times the one in nu's place to that of xnu.
    fn multiplied(self, s: &mut [f64]) -> bool {
        let Design { x, n, p, st, .. } = self;
        let Ok(()) = limits(n, p, x.len(), n, p, st, s.len()) else {
            return false;
        };
        let fit = Fit::new(x, n, p, st);
        let ranged = Ranged { fit };
        let l = ranged.fit.places;
        matvec(&ranged.fit, s, l.w, l.z);
        transposed(&ranged.fit, s, l.nu, l.xnu);
        true
    }

    fn compared(self, s: &[f64]) -> Compared {
        let Design { w, p, gram, .. } = self;
        let k = self.n + p;
        let g = area(p, p);
        let y = gram + g;
        let b = 13 + 2 * p;
        let panels = s.get(40 * p..gram);
        Compared([
            holds(s, 32 * p, w, 10, 2 * p) && self.terms(b - 3),
            holds(s, y, w, b, k),
            holds(s, gram, w, b + k, g) && panels.is_some_and(|panels| all(panels, 0)),
            holds(s, y + k, w, b + k + g, k) && holds(s, 30 * p, w, b + 2 * k + g, p) && behind(s),
        ])
    }

    fn terms(self, at: usize) -> bool {
        let t = terms_of(self.st, self.n);
        let bits = [bits_of(t.gamma), bits_of(t.padding), bits_of(t.lambda)];
        part(self.w, at, 3).is_some_and(|terms| bits.as_slice() == terms)
    }
}

// The last eight words are as they were.
fn behind(s: &[f64]) -> bool {
    if s.len() < 8 {
        return false;
    }
    let at = s.len() - 8;
    Marks::default().behind(at).kept(&s[at..])
}

// n numbers of s from a are the words from b; not so where there are not as many.
fn holds(s: &[f64], a: usize, w: &[u64], b: usize, n: usize) -> bool {
    match (part(s, a, n), part(w, b, n)) {
        (Some(s), Some(w)) => same(s, w),
        _ => false,
    }
}

// n of s from a, where there are as many.
fn part<T>(s: &[T], a: usize, n: usize) -> Option<&[T]>
    ensures { IfSome result (λ r. length r.now ≡ n) }
{
    s.get(a..)?.get(..n)
}

fn put(s: &mut [f64], a: usize, w: &[u64], b: usize, n: usize) {
    if s.len() < a || s.len() - a < n {
        return;
    }
    if let Some(w) = part(w, b, n) {
        load(w, &mut s[a..a + n]);
    }
}
