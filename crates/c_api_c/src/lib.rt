// For C and Rust: the calls of crate c_api, under the same names, with the same clauses. In C a slice is a pointer and a length.
#![tactic(auto)]

ghost use Rattle.c_api.specs.Calls.{ScratchCall, StartCall, ResumeCall, PredictCall, SolveCall};

// The words of scratch that a fit needs: no refusal but 0, also where the settings have not their words.
#[unsafe(no_mangle)]
pub extern "C" fn xangoravit_scratch_words(n: usize, p: usize, settings: &[u64]) -> usize
    ensures { ScratchCall n p settings.now result }
{
    c_api::xangoravit_scratch_words(n, p, settings)
}

#[unsafe(no_mangle)]
pub extern "C" fn xangoravit_start(
    n: usize,
    p: usize,
    x: &[f64],
    y: &[f64],
    settings: &[u64],
    s: &mut [f64],
    rec: &mut [u64],
    answer: &mut [u64],
) -> u64
    ensures { StartCall n p x.now y.now settings.now rec.old s.old
        answer.old result rec.new answer.new s.new }
{
    c_api::xangoravit_start(n, p, x, y, settings, s, rec, answer)
}

#[unsafe(no_mangle)]
pub extern "C" fn xangoravit_resume(
    n: usize,
    p: usize,
    x: &[f64],
    y: &[f64],
    settings: &[u64],
    rec: &mut [u64],
    s: &mut [f64],
    w: &mut [f64],
    budget: u64,
    answer: &mut [u64],
) -> u64
    ensures { ResumeCall n p x.now y.now settings.now rec.old s.old
        w.old budget answer.old result rec.new answer.new w.new s.new }
{
    c_api::xangoravit_resume(n, p, x, y, settings, rec, s, w, budget, answer)
}

#[unsafe(no_mangle)]
pub extern "C" fn xangoravit_predict(
    n: usize,
    p: usize,
    x: &[f64],
    w: &[f64],
    b: f64,
    out: &mut [f64],
    answer: &mut [u64],
) -> u64
    ensures { PredictCall n p x.now w.now b out.old answer.old result answer.new out.new }
{
    c_api::xangoravit_predict(n, p, x, w, b, out, answer)
}

#[unsafe(no_mangle)]
pub extern "C" fn xangoravit_solve(
    n: usize,
    a: &[f64],
    b: &[f64],
    x: &mut [f64],
    tol: f64,
    limit: usize,
    s: &mut [f64],
    answer: &mut [u64],
) -> u64
    ensures { SolveCall n a.now b.now x.old tol limit s.old
        answer.old result answer.new x.new s.new }
{
    c_api::xangoravit_solve(n, a, b, x, tol, limit, s, answer)
}
