// Fits through the calls over words, each in one call, in budgets of 1 and in random budgets, on marked memory. The words are rows, columns, the
// settings, the scratch that is needed, the answer as a call gives it (kind, refusal, place, the three counts, the intercept's bits) and the weights;
// the numbers matrix and targets.
ghost use Rattle.std.specs.Prelude.{◌≡◌, ◌≤◌, length};

use c_api::{xangoravit_resume, xangoravit_start};
use numbers::bits::bits_of;
use stored::Damaged;
use stored::bits::{all, same};
use stored::memory::{MARK, Marks};
use stored::room::number_room;
use stored::tally::Compared;

// What the weights are lent with.
const UNWRITTEN: f64 = 7.5;

#[derive(Clone, Copy)]
struct Fit<'a> {
    rows: usize,
    columns: usize,
    settings: &'a [u64],
    x: &'a [f64],
    y: &'a [f64],
    // how much scratch is needed
    needed: usize,
    answer: &'a [u64],
    weights: &'a [u64],
    ghost settings_len: { length settings.now ≡ 8 },
    ghost answer_len: { length answer.now ≡ 7 },
    ghost weights_bound: { length weights.now ≤ 64 },
}

// The steps are dealt out in three ways: all in one call; a step to a call; budgets from 0 to 16, drawn at random.
pub fn verdict(w: &[u64], x: &[f64], y: &[f64]) -> Result<Compared, Damaged> {
    if w.len() < 18 || w.len() > 82 {
        return Err(Damaged(0));
    }
    let fit = Fit {
        rows: w[0] as usize,
        columns: w[1] as usize,
        settings: &w[2..10],
        x,
        y,
        needed: w[10] as usize,
        answer: &w[11..18],
        weights: &w[18..],
    };
    let whole = 5100 * (w[5] % 1001);
    Ok(Compared([
        fit.tried(1, |_| whole),
        fit.tried(1000000, |_| 1),
        fit.tried(1000000, |seed| seed % 17),
        true,
    ]))
}

impl Fit<'_> {
    // In so many calls at most, each with a budget that is worked out of a number that is drawn for it.
    fn tried<F: Fn(u64) -> u64>(self, calls: u64, budget: F) -> bool
        requires { F.IsAlwaysCallable budget }
    {
        if self.needed > 20000 {
            return false;
        }
        let mut space = number_room();
        let mut weights = [UNWRITTEN; 64];
        let s = &mut space[..self.needed + 8];
        let weights = &mut weights[..self.weights.len()];
        self.started(calls, budget, s, weights)
    }

    // A start that is refused leaves scratch and record as they were.
    fn started<F: Fn(u64) -> u64>(
        self,
        calls: u64,
        budget: F,
        s: &mut [f64],
        weights: &mut [f64],
    ) -> bool
        requires callable { F.IsAlwaysCallable budget }
        requires weights_len { length weights.old ≡ length self.weights.now }
    {
        let marks = Marks::default();
        marks.fill(s);
        let mut rec = [MARK; 16];
        let mut answer = [MARK; 7];
        if self.start(s, &mut rec, &mut answer) != 0 {
            return answer.as_slice() == self.answer && rec == [MARK; 16] && marks.kept(s);
        }
        let mut seed = self.answer[5];
        for _ in 0..calls {
            let r = self.resume(&mut rec, s, weights, budget(seed), &mut answer);
            if answer[0] != 0 {
                return answer.as_slice() == self.answer && self.ended(r, s, weights, &rec);
            }
            if !all(weights, bits_of(UNWRITTEN)) {
                return false;
            }
            seed = next_seed(seed);
        }
        false
    }

    fn start(self, s: &mut [f64], rec: &mut [u64], answer: &mut [u64]) -> u64 {
        let Fit {
            rows,
            columns,
            settings,
            x,
            y,
            ..
        } = self;
        xangoravit_start(rows, columns, x, y, settings, s, rec, answer)
    }

    fn resume(
        self,
        rec: &mut [u64],
        s: &mut [f64],
        weights: &mut [f64],
        budget: u64,
        answer: &mut [u64],
    ) -> u64 {
        let Fit {
            rows,
            columns,
            settings,
            x,
            y,
            ..
        } = self;
        xangoravit_resume(
            rows, columns, x, y, settings, rec, s, weights, budget, answer,
        )
    }

    // The call returned the refusal's number, or 0. The record has ended, with the answer's counts and fixed values; the needed words of the scratch are +0,
    // and those behind them as they were.
    fn ended(self, r: u64, s: &[f64], weights: &[f64], rec: &[u64; 16]) -> bool
        requires { length weights.now ≡ length self.weights.now }
    {
        let mut ended = [0; 16];
        ended[0] = 3;
        ended[3..6].copy_from_slice(&self.answer[3..6]);
        r == self.answer[1]
            && *rec == ended
            && same(weights, self.weights)
            && Marks::default().cleared(s, self.needed)
    }
}

// Park and Miller's generator, kept from 0.
fn next_seed(seed: u64) -> u64 {
    seed % 2147483647 * 48271 % 2147483647 + 1
}
