// Record and answer as the words of the calls for C and Rust (specs/Words.antt says which), and back.
#![tactic(auto)]

ghost use Rattle.std.specs.Prelude.{◌≡◌, length};
ghost use Rattle.std.proofs.lemmas.List.Edits.{sets};
ghost use Rattle.c_words.specs.Words.{stage_from, scalars_from, paused_from, stage_word, index_word, scalars_words, paused_words, told_words};

use c_values::{Floats, floats_at, truth_word, write_floats};
use lasso_optimizer::Scalars;
use records::{Counts, Paused, Rounds, SolverRounds, Stage, Trials};

// The stage of a word and an index. An unknown word is a fit that has ended, so that the record is refused with 9.
fn stage_from(k: u64, i: u64) -> Stage
    ensures { result ≡ stage_from k i }
{
    if k == 0 {
        return Stage::Opening;
    }
    if k == 1 {
        return Stage::Solving(i);
    }
    if k == 2 {
        return Stage::Searching(i);
    }
    Stage::Ended
}

fn scalars_from(w: &[u64]) -> Scalars
    requires { length w.now ≡ 16 }
    ensures { result ≡ scalars_from w.now }
{
    let missed = w[15] != 0;
    let a = floats_at(w, 6);
    let b = floats_at(w, 9);
    let c = floats_at(w, 12);
    Scalars {
        t: a.0,
        s: a.1,
        dual: a.2,
        pcgtol: b.0,
        bnrm: b.1,
        bkden: b.2,
        error: c.0,
        phi: c.1,
        gdx: c.2,
        missed,
    }
}

// A record as its 16 words say it. Nothing is tested here: `records::possible` does that.
pub fn paused_from(w: &[u64]) -> Paused
    requires { length w.now ≡ 16 }
    ensures { result ≡ paused_from w.now }
{
    let stage = stage_from(w[0], w[1]);
    let scalars = scalars_from(w);
    let counts = Counts {
        rounds: Rounds(w[3]),
        solver: SolverRounds(w[4]),
        trials: Trials(w[5]),
    };
    Paused {
        stage,
        round: w[2],
        counts,
        scalars,
    }
}

fn stage_word(g: Stage) -> u64
    ensures { result ≡ stage_word g }
{
    match g {
        Stage::Opening => 0,
        Stage::Solving(_) => 1,
        Stage::Searching(_) => 2,
        Stage::Ended => 3,
    }
}

// The index of a stage that has one, else 0.
fn index_word(g: Stage) -> u64
    ensures { result ≡ index_word g }
{
    match g {
        Stage::Opening => 0,
        Stage::Solving(k) => k,
        Stage::Searching(j) => j,
        Stage::Ended => 0,
    }
}

fn write_scalars(a: Scalars, out: &mut [u64])
    requires { length out.old ≡ 16 }
    ensures { out.new ≡ sets out.old 6 (scalars_words a) }
{
    write_floats(Floats(a.t, a.s, a.dual), out, 6);
    write_floats(Floats(a.pcgtol, a.bnrm, a.bkden), out, 9);
    write_floats(Floats(a.error, a.phi, a.gdx), out, 12);
    out[15] = truth_word(a.missed);
}

// The 16 words that `paused_from` reads back.
pub fn write_paused(a: Paused, out: &mut [u64])
    requires { length out.old ≡ 16 }
    ensures { out.new ≡ paused_words a }
{
    let stage = a.stage;
    let c = a.counts;
    let v = a.scalars;
    let n = c.rounds;
    let b = c.solver;
    let t = c.trials;
    out[0] = stage_word(stage);
    out[1] = index_word(stage);
    out[2] = a.round;
    out[3] = n.0;
    out[4] = b.0;
    out[5] = t.0;
    write_scalars(v, out);
}

// The words of an answer, but for its counts.
#[derive(Clone, Copy)]
pub struct Told {
    pub kind: u64,
    pub number: u64,
    pub place: u64,
    pub last: u64,
}

pub fn write_answer(t: Told, c: Counts, out: &mut [u64])
    requires { length out.old ≡ 7 }
    ensures { out.new ≡ told_words t c }
{
    let n = c.rounds;
    let b = c.solver;
    let k = c.trials;
    out[0] = t.kind;
    out[1] = t.number;
    out[2] = t.place;
    out[3] = n.0;
    out[4] = b.0;
    out[5] = k.0;
    out[6] = t.last;
}
