// For C: the pieces of crate measure, under the same names, for tools/speed.
#![tactic(auto)]

// The solver inside a fit: its first lines, and `count` rounds. `given` has d1, d2, prb, prs, dxu and grad, in the order of the scratch.
#[unsafe(no_mangle)]
pub extern "C" fn measure_round(
    gram: &[f64],
    given: &[f64],
    p: usize,
    tol: f64,
    count: usize,
    s: &mut [f64],
) -> usize {
    measure::measure_round(gram, given, p, tol, count, s)
}

// A piece of the work of a fit that normalises, whatever its settings say, and stores its design or not; `piece` says which, and what `given` is. What is lent is
// checked as a start's is.
#[unsafe(no_mangle)]
pub extern "C" fn measure_piece(
    what: usize,
    m: &[f64],
    given: &[f64],
    n: usize,
    p: usize,
    settings: &[u64],
    count: usize,
    s: &mut [f64],
) -> usize {
    measure::measure_piece(what, m, given, n, p, settings, count, s)
}
