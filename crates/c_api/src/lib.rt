// The calls for C and Rust: plain numbers and slices (in C a pointer and a length), with settings, record and answer as words
// (crates c_values and c_words say which).
// Each but the first returns the number of the refusal, 0 where there is none. A wrong number of words is refused with 2, as any slice's length is: after 1.
// An answer that has its 7 words is written with every refusal.
#![tactic(auto)]

ghost use Rattle.c_api.specs.Calls.{ScratchCall, StartCall, ResumeCall, PredictCall, SolveCall};

use c_answers::{
    counts_in, due, predicted, refuse, resumed, solved, started, words_refused, write_resumed,
    write_started,
};
use c_values::{SETTINGS_WORDS, settings_from};
use c_words::{paused_from, write_answer};
use checks::scratch_words;
use elastic_net::{resume, start};
use lone_solver::solve;
use prediction::predict;
use records::no_counts;
use refusal::number;

// The words of scratch that a fit needs: no refusal but 0, also where the settings have not their words.
pub fn xangoravit_scratch_words(n: usize, p: usize, settings: &[u64]) -> usize
    ensures { ScratchCall n p settings.now result }
{
    if settings.len() != SETTINGS_WORDS {
        return 0;
    }
    scratch_words(n, p, settings_from(settings))
}

pub fn xangoravit_start(
    n: usize,
    p: usize,
    x: &[f64],
    y: &[f64],
    settings: &[u64],
    s: &mut [f64],
    rec: &mut [u64],
    answer: &mut [u64],
) -> u64
    ensures { StartCall n p x.now y.now settings.now rec.old s.old
        answer.old result rec.new answer.new s.new }
{
    if !due(settings.len(), rec.len(), answer.len()) {
        return refuse(n, p, no_counts(), answer);
    }
    let o = start(n, p, x, y, settings_from(settings), s);
    write_started(o, rec);
    let t = started(o);
    write_answer(t, no_counts(), answer);
    t.number
}

pub fn xangoravit_resume(
    n: usize,
    p: usize,
    x: &[f64],
    y: &[f64],
    settings: &[u64],
    rec: &mut [u64],
    s: &mut [f64],
    w: &mut [f64],
    budget: u64,
    answer: &mut [u64],
) -> u64
    ensures { ResumeCall n p x.now y.now settings.now rec.old s.old
        w.old budget answer.old result rec.new answer.new w.new s.new }
{
    if !due(settings.len(), rec.len(), answer.len()) {
        return refuse(n, p, counts_in(rec), answer);
    }
    let o = resume(
        n,
        p,
        x,
        y,
        settings_from(settings),
        paused_from(rec),
        s,
        w,
        budget,
    );
    write_resumed(o.answer, o.paused, budget, rec);
    let t = resumed(o.answer);
    write_answer(t, o.paused.counts, answer);
    t.number
}

pub fn xangoravit_predict(
    n: usize,
    p: usize,
    x: &[f64],
    w: &[f64],
    b: f64,
    out: &mut [f64],
    answer: &mut [u64],
) -> u64
    ensures { PredictCall n p x.now w.now b out.old answer.old result answer.new out.new }
{
    if answer.len() != 7 {
        return number(words_refused(n, p));
    }
    let t = predicted(predict(n, p, x, w, b, out));
    write_answer(t, no_counts(), answer);
    t.number
}

pub fn xangoravit_solve(
    n: usize,
    a: &[f64],
    b: &[f64],
    x: &mut [f64],
    tol: f64,
    limit: usize,
    s: &mut [f64],
    answer: &mut [u64],
) -> u64
    ensures { SolveCall n a.now b.now x.old tol limit s.old
        answer.old result answer.new x.new s.new }
{
    // An order has the range of p.
    if answer.len() != 7 {
        return number(words_refused(1, n));
    }
    let t = solved(solve(n, a, b, x, tol, limit, s));
    write_answer(t, no_counts(), answer);
    t.number
}
