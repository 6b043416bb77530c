// The refusals that starting, resuming and predicting share: 1 to 4, and 5 and 6 of a start.
#![tactic(auto)]

ghost use Rattle.std.specs.Prelude.{◌≡◌};
ghost use Rattle.checks.specs.Checks.{limits_of, scratch_words, start_values, Measured};

use arrays::scan::first_infinite;
use design::statistics::first_constant;
use layout::{need, sizes_of};
use refusal::{Refusal, at, in_size};
use settings::{Settings, allowed};

// The first of the refusals 1 to 4 that holds. It takes lengths and not slices, so that a start, which has no weights yet, can pass p for theirs.
#[tactic(auto, unfolding(crate::specs::Checks::limits_of))]
pub fn limits(
    n: usize,
    p: usize,
    xl: usize,
    yl: usize,
    wl: usize,
    st: Settings,
    room: usize,
) -> Result<(), Refusal>
    ensures { result ≡ limits_of n p xl yl wl st room }
{
    if !in_size(n, p) {
        return Err(Refusal::Size);
    }
    if xl != n * p || yl != n || wl != p {
        return Err(Refusal::Length);
    }
    if !allowed(st) {
        return Err(Refusal::Setting);
    }
    if room < need(sizes_of(n, p, st)) {
        return Err(Refusal::Scratch);
    }
    Ok(())
}

// The words of scratch that a fit needs, 0 where n, p or a setting is out of range: total, so that a caller may ask before it knows that they are allowed.
#[tactic(auto, unfolding(crate::specs::Checks::scratch_words))]
pub fn scratch_words(n: usize, p: usize, st: Settings) -> usize
    ensures { result ≡ scratch_words n p st }
{
    if in_size(n, p) && allowed(st) {
        need(sizes_of(n, p, st))
    } else {
        0
    }
}

// Refusal 5 over matrix and targets, with its place counted through both; then 6, where the fit normalises. Nothing is written.
pub fn start_values(
    x: &[f64],
    y: &[f64],
    n: usize,
    p: usize,
    normalise: bool,
) -> Result<(), Refusal>
    requires { Measured x.now y.now n p }
    ensures { result ≡ start_values x.now y.now n p normalise }
{
    at(first_infinite(x), 0)?;
    at(first_infinite(y), n * p)?;
    if !normalise {
        return Ok(());
    }
    match first_constant(x, n, p) {
        Some(j) => Err(Refusal::Constant(j)),
        None => Ok(()),
    }
}
