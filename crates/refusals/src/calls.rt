// One call over words on marked memory: what it answers, and what became of memory, record and weights.
ghost use Rattle.std.specs.Prelude.{◌≤◌};

use super::table::Outcome;
use c_api::{xangoravit_predict, xangoravit_resume, xangoravit_solve, xangoravit_start};
use numbers::bits::of_bits;
use stored::memory::{MARK, Marks, Spoilt};
use stored::{Damaged, length_in};

// The buffers' lengths: matrix, targets and weights each; scratch.
const LENT: usize = 4300;

const SCRATCH: usize = 20600;

// The place of the scratch's first mark. Those of matrix, targets and weights follow each other from 0 on.
const SCRATCH_AT: usize = 20000;

#[derive(Clone, Copy, PartialEq, Eq)]
pub enum Call {
    Start,
    Resume,
    Predict,
    Solve,
}

// The solver's number is any other.
impl From<u64> for Call {
    fn from(word: u64) -> Call {
        match word {
            0 => Call::Start,
            1 => Call::Resume,
            2 => Call::Predict,
            _ => Call::Solve,
        }
    }
}

// The marks of the call's values.
fn marks(w: &[u64; 36]) -> Marks {
    Marks {
        first: 0,
        spoilt: Spoilt {
            value: w[15],
            from: w[16] as usize,
            times: w[17] as usize,
            apart: w[18] as usize,
        },
    }
}

// How much of the buffers is lent.
#[derive(Clone, Copy)]
pub struct Lengths {
    matrix: usize,
    targets: usize,
    weights: usize,
    scratch: usize,
    ghost matrix_bound: { matrix ≤ 4300 },
    ghost targets_bound: { targets ≤ 4300 },
    ghost weights_bound: { weights ≤ 4300 },
    ghost scratch_bound: { scratch ≤ 20600 },
}

impl Lengths {
    pub fn read(w: &[u64; 36]) -> Result<Lengths, Damaged> {
        Ok(Lengths {
            matrix: length_in(w[11], LENT, 12)?,
            targets: length_in(w[12], LENT, 13)?,
            weights: length_in(w[13], LENT, 14)?,
            scratch: length_in(w[14], SCRATCH, 15)?,
        })
    }
}

pub fn called(w: &[u64; 36], lengths: Lengths) -> Outcome {
    // What a call reads besides the matrix, and what it writes besides the scratch: targets or right side, and weights or the solver's start; a prediction
    // its weights, and the predictions, with a place between them that the intercept has.
    let call = Call::from(w[0]);
    let (reads, writes, between) = if call == Call::Predict {
        (lengths.weights, lengths.targets, 1)
    } else {
        (lengths.targets, lengths.weights, 0)
    };
    let ahead = lengths.matrix + reads;
    let marks = marks(w);
    let mut inputs = [0.0; 8600];
    marks.fill(&mut inputs);
    let mut outputs = [0.0; LENT];
    marks.behind(ahead + between).fill(&mut outputs);
    let mut scratch = [0.0; SCRATCH];
    marks.behind(SCRATCH_AT).fill(&mut scratch);
    let (x, y) = inputs[..ahead].split_at(lengths.matrix);
    let v = &mut outputs[..writes];
    let s = &mut scratch[..lengths.scratch];
    match call {
        Call::Start => started(w, x, y, s),
        Call::Resume => resumed(w, x, y, v, s),
        Call::Predict => predicted(w, x, y, v),
        Call::Solve => ended(w, x, y, v, s),
    }
}

fn started(w: &[u64; 36], x: &[f64], y: &[f64], s: &mut [f64]) -> Outcome {
    let mut rec = [MARK; 16];
    let mut answer = [MARK; 7];
    let r = xangoravit_start(
        w[1] as usize,
        w[2] as usize,
        x,
        y,
        &w[3..11],
        s,
        &mut rec,
        &mut answer,
    );
    let n = marks(w).behind(SCRATCH_AT).written(s);
    if r == 0 && answer[0] == 0 {
        return Outcome::Ready(n);
    }
    refused(r, &answer, n == 0 && rec == [MARK; 16])
}

fn resumed(w: &[u64; 36], x: &[f64], y: &[f64], weights: &mut [f64], s: &mut [f64]) -> Outcome {
    let mut rec = [0; 16];
    rec.copy_from_slice(&w[19..35]);
    let mut answer = [MARK; 7];
    let r = xangoravit_resume(
        w[1] as usize,
        w[2] as usize,
        x,
        y,
        &w[3..11],
        &mut rec,
        s,
        weights,
        w[35],
        &mut answer,
    );
    let marks = marks(w);
    let n = marks.behind(SCRATCH_AT).written(s);
    let nothing = n == 0
        && marks.behind(behind(x, y)).kept(weights)
        && rec.as_slice() == &w[19..35];
    told(r, &answer, n, nothing)
}

fn told(r: u64, answer: &[u64; 7], n: usize, nothing: bool) -> Outcome {
    if r != 0 {
        return refused(r, answer, nothing);
    }
    match answer[0] {
        0 => Outcome::Pending { nothing },
        1 => Outcome::Converged(n),
        2 => Outcome::Limit(n),
        _ => refused(r, answer, nothing),
    }
}

// The call returned the number that its answer has.
fn refused(returned: u64, answer: &[u64; 7], nothing: bool) -> Outcome {
    let [kind, number, place, ..] = *answer;
    if kind != 3 || number != returned {
        return Outcome::NoKind;
    }
    Outcome::Refused {
        number,
        place,
        nothing,
    }
}

// The values are matrix, weights and intercept.
fn predicted(w: &[u64; 36], x: &[f64], weights: &[f64], out: &mut [f64]) -> Outcome {
    let marks = marks(w).behind(behind(x, weights));
    let b = marks.number_at(0);
    let mut answer = [MARK; 7];
    let r = xangoravit_predict(
        w[1] as usize,
        w[2] as usize,
        x,
        weights,
        b,
        out,
        &mut answer,
    );
    let n = marks.behind(1).written(out);
    if r == 0 && answer[0] == 1 {
        return Outcome::Predicted(n);
    }
    refused(r, &answer, n == 0)
}

// How many values two slices have.
fn behind(x: &[f64], y: &[f64]) -> usize {
    x.len().wrapping_add(y.len())
}

// The values are matrix, right side and start.
fn ended(w: &[u64; 36], m: &[f64], right: &[f64], x: &mut [f64], s: &mut [f64]) -> Outcome {
    let mut answer = [MARK; 7];
    let r = xangoravit_solve(
        w[1] as usize,
        m,
        right,
        x,
        of_bits(w[5]),
        w[6] as usize,
        s,
        &mut answer,
    );
    let marks = marks(w);
    let scratch = marks.behind(SCRATCH_AT);
    if r == 0 && answer[0] == 1 {
        let cleared = scratch.cleared(s, 8 * x.len());
        return Outcome::Solved { cleared };
    }
    let nothing = marks.behind(behind(m, right)).kept(x) && scratch.kept(s);
    refused(r, &answer, nothing)
}
