// The settings of a fit as one record, their check, and what follows from them.
#![tactic(auto)]

ghost use Rattle.std.specs.Prelude.{◌≡◌, ◌<◌, ◌^◌};
ghost use Rattle.settings.specs.Settings.{allowed_of, panels_of, range_of, gamma_of, terms_of};

use arrays::sums::float_of;
use numbers::order::maximum;
use numbers::square_root::root;

#[derive(Clone, Copy)]
pub struct Settings {
    pub alpha: f64,
    pub l1_ratio: f64,
    pub tol: f64,
    // M, the most rounds that are opened
    pub max_iter: u64,
    // R and C, looked at only where `lazy`
    pub panel_rows: usize,
    pub panel_cols: usize,
    pub normalise: bool,
    pub lazy: bool,
}

// What a fit takes from its settings and its number of rows.
#[derive(Clone, Copy)]
pub struct Terms {
    pub gamma: f64,
    pub padding: f64,
    pub lambda: f64,
}

// Whether each setting is in its range; a NaN never is. Refusal 3 where not.
#[tactic(auto, unfolding(crate::specs::Settings::allowed_of))]
pub fn allowed(st: Settings) -> bool
    ensures { result ≡ allowed_of st }
{
    within(st.alpha, 1000000.0)
        && within(st.l1_ratio, 1.0)
        && within(st.tol, 1.7976931348623157e308)
        && st.max_iter <= 1000
        && panels(st)
}

// From 0 to `most`; a NaN is not.
#[tactic(auto, unfolding(crate::specs::Settings::range_of))]
fn within(x: f64, most: f64) -> bool
    ensures { result ≡ range_of x most }
{
    x >= 0.0 && x <= most
}

// R and C have ranges only where the fit is lazy.
#[tactic(auto, unfolding(crate::specs::Settings::panels_of))]
fn panels(st: Settings) -> bool
    ensures { result ≡ panels_of st }
{
    if st.lazy {
        1 <= st.panel_rows && st.panel_rows <= 256 && 1 <= st.panel_cols && st.panel_cols <= 32
    } else {
        true
    }
}

// What scales the design and then the weights.
pub fn gamma(l2: f64) -> f64
    ensures { result ≡ gamma_of l2 }
{
    1.0 / root(1.0 + l2)
}

// What a fit of n rows takes from its settings. lambda is never below epsilon, as in the Rust.
pub fn terms_of(st: Settings, n: usize) -> Terms
    requires { n < 2 ^ 32 }
    ensures { result ≡ terms_of st n }
{
    let rows = float_of(n);
    let l1 = st.alpha * st.l1_ratio * rows;
    let l2 = st.alpha * (1.0 - st.l1_ratio) * rows;
    let gamma = gamma(l2);
    Terms {
        gamma,
        padding: gamma * root(l2),
        lambda: maximum(l1 * gamma, 2.220446049250313e-16),
    }
}
