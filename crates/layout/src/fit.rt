// What every part of a fit reads and none changes.

ghost use Rattle.std.specs.Prelude.{◌≡◌, ◌+◌, ◌*◌, ◌≤◌, T, true, false, length};
ghost use Rattle.layout.specs.Slots.{Laid, Suits, Panelled};
ghost use Rattle.layout.specs.Need.{Small, sizes_of};
ghost use Rattle.settings.specs.Settings.{allowed_of, terms_of};

use super::{Places, Sizes, place, sizes_of};
use settings::{Settings, Terms, terms_of};

// The lent matrix, the sizes, the places in the scratch, and what a fit takes from its settings.
#[derive(Clone, Copy)]
pub struct Fit<'a> {
    pub matrix: &'a [f64],
    pub sizes: Sizes,
    pub places: Places,
    pub terms: Terms,
    pub normalise: bool,
    pub tol: f64,
    pub limit: u64,
    pub ghost laid: { Laid sizes places },
}

impl<'a> Fit<'a> {
    // A fit of n rows and p columns, by settings that are in their ranges.
    pub fn new(matrix: &'a [f64], n: usize, p: usize, st: Settings) -> Fit<'a>
        requires n_bound { n ≤ 4096 }
        requires some_columns { 1 ≤ p }
        requires p_bound { p ≤ 64 }
        requires lent { n * p ≤ length matrix.now }
        requires allowed { T (allowed_of st) }
        ensures matrix_is { result.matrix.now ≡ matrix.now }
        ensures sizes_are { result.sizes ≡ sizes_of n p st }
        ensures terms_are { result.terms ≡ terms_of st n }
        ensures normalise_is { result.normalise ≡ st.normalise }
        ensures tol_is { result.tol ≡ st.tol }
        ensures limit_is { result.limit ≡ st.max_iter }
        ensures suits { Suits result.sizes result.matrix.now }
        ensures some_columns { 1 ≤ result.sizes.p }
        ensures panelled { Panelled result.sizes }
        ensures small { Small result.sizes }
        ensures limit_bound { result.limit ≤ 1000 }
    {
        let sizes = sizes_of(n, p, st);
        Fit {
            matrix,
            sizes,
            places: place(sizes),
            terms: terms_of(st, n),
            normalise: st.normalise,
            tol: st.tol,
            limit: st.max_iter,
        }
    }
}

// A fit in 01's ranges, as `Fit::new` makes it. Each part of a fit may be called with its `fit`: all that any of them asks of the fit alone is said here.
#[derive(Clone, Copy)]
pub struct Ranged<'a> {
    pub fit: Fit<'a>,
    pub ghost small: { Small fit.sizes },
    pub ghost lent: { fit.sizes.n * fit.sizes.p ≤ length fit.matrix.now },
    pub ghost rows: { fit.sizes.n ≤ 4096 },
    pub ghost some_columns: { 1 ≤ fit.sizes.p },
    pub ghost all: { fit.sizes.k ≡ fit.sizes.n + fit.sizes.p },
    pub ghost stored: { fit.sizes.lazy ≡ false → fit.sizes.stored ≡ fit.sizes.k },
    pub ghost panel_rows: { fit.sizes.lazy ≡ true → 1 ≤ fit.sizes.pr },
    pub ghost panel_columns: { fit.sizes.lazy ≡ true → 1 ≤ fit.sizes.pc },
    pub ghost limit_bound: { fit.limit ≤ 1000 },
}
