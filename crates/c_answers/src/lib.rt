// What the calls for C and Rust say in words: what is told of each answer, the record's words, which stay or are written anew, and the answer to a
// wrong number of words.
#![tactic(auto)]

ghost use Rattle.std.specs.Prelude.{◌≡◌, ◌&&◌, cond, [], eqb, length};
ghost use Rattle.refusal.specs.declared.Refusal.TheVariants.{Size, Length};
ghost use Rattle.refusal.specs.Sizes.{in_size};
ghost use Rattle.refusal.specs.Refusal.{number_of, place_of};
ghost use Rattle.elastic_net.specs.ElasticNet.{Said.refused as refused_said, said, said_s};
ghost use Rattle.c_values.specs.Settings.{settings-words};
ghost use Rattle.c_words.specs.Words.{paused_words};
ghost use Rattle.c_answers.specs.Answers.{keeps, told_of, started_said, started_record, told_predicted, told_solved, way_of};
ghost use Rattle.c_answers.specs.Called.{Called.called, unread, counts_in};

use c_values::SETTINGS_WORDS;
use c_words::{Told, paused_from, write_answer, write_paused};
use elastic_net::Answer;
use numbers::bits::bits_of;
use records::{Counts, Paused, no_counts};
use refusal::{Refusal, Way, ends_fit, in_size, number, place};

// Whether the record's words stay as they were: a refusal that ends no fit, or no step.
fn stays(a: Answer, budget: u64) -> bool
    ensures { result ≡ keeps (said a) budget }
{
    match a {
        Answer::Pending => budget == 0,
        Answer::Done(_, _, _) => false,
        Answer::Refused(r) => !ends_fit(r),
    }
}

// The words of the record that a resuming call hands back, unless they stay.
pub fn write_resumed(a: Answer, next: Paused, budget: u64, out: &mut [u64])
    requires { length out.old ≡ 16 }
    ensures { out.new ≡ cond (keeps (said a) budget) out.old (paused_words next) }
{
    if stays(a, budget) {
        return;
    }
    write_paused(next, out);
}

// The words of a fresh record; a start that is refused leaves them.
pub fn write_started(o: Result<Paused, Refusal>, out: &mut [u64])
    requires { length out.old ≡ 16 }
    ensures { out.new ≡ started_record (said_s o) out.old }
{
    if let Ok(a) = o {
        write_paused(a, out);
    }
}

// Every call says a refusal in the same words.
pub fn refused(r: Refusal) -> Told
    ensures { result ≡ told_of (refused_said (number_of r) (place_of r)) }
{
    Told {
        kind: 3,
        number: number(r),
        place: place(r) as u64,
        last: 0,
    }
}

fn way_word(w: Way) -> u64
    ensures { result ≡ way_of w }
{
    match w {
        Way::Converged => 1,
        Way::Limit => 2,
    }
}

// Pending, converged and limit are the kinds 0, 1 and 2; the last word is the intercept's bits.
pub fn resumed(a: Answer) -> Told
    ensures { result ≡ told_of (said a) }
{
    match a {
        Answer::Pending => Told {
            kind: 0,
            number: 0,
            place: 0,
            last: 0,
        },
        Answer::Done(b, w, _) => Told {
            kind: way_word(w),
            number: 0,
            place: 0,
            last: bits_of(b),
        },
        Answer::Refused(r) => refused(r),
    }
}

// A fit that has started says what a pending one does.
pub fn started(o: Result<Paused, Refusal>) -> Told
    ensures { result ≡ told_of (started_said (said_s o)) }
{
    match o {
        Ok(_) => Told {
            kind: 0,
            number: 0,
            place: 0,
            last: 0,
        },
        Err(r) => refused(r),
    }
}

// Predictions that are done are of kind 1; they stand in the slice that was lent.
pub fn predicted(o: Result<(), Refusal>) -> Told
    ensures { result ≡ told_predicted o }
{
    match o {
        Ok(()) => Told {
            kind: 1,
            number: 0,
            place: 0,
            last: 0,
        },
        Err(r) => refused(r),
    }
}

// A solve that is done is of kind 1, and its last word the error's bits.
pub fn solved(o: Result<f64, Refusal>) -> Told
    ensures { result ≡ told_solved o }
{
    match o {
        Ok(e) => Told {
            kind: 1,
            number: 0,
            place: 0,
            last: bits_of(e),
        },
        Err(r) => refused(r),
    }
}

// ---- a wrong number of words

// Settings, record and answer have the words that are due.
pub fn due(settings: usize, rec: usize, answer: usize) -> bool
    ensures { result ≡ (eqb settings settings-words && eqb rec 16 && eqb answer 7) }
{
    settings == SETTINGS_WORDS && rec == 16 && answer == 7
}

// The counts that an answer shows with a wrong number of words: the record's, or 0 where it has not its 16.
#[tactic(auto, unfolding(crate::specs::Called::counts_in))]
pub fn counts_in(rec: &[u64]) -> Counts
    ensures { result ≡ counts_in rec.now }
{
    if rec.len() != 16 {
        return no_counts();
    }
    paused_from(rec).counts
}

// 1 where n or p is out of range, else 2.
pub fn words_refused(n: usize, p: usize) -> Refusal
    ensures { result ≡ cond (in_size n p) Length Size }
{
    if in_size(n, p) {
        return Refusal::Length;
    }
    Refusal::Size
}

// The answer is written where it has its words.
pub fn refuse(n: usize, p: usize, c: Counts, answer: &mut [u64]) -> u64
    ensures { called result [] answer.new [] [] ≡ unread (in_size n p) c [] answer.old [] [] }
{
    let t = refused(words_refused(n, p));
    if answer.len() == 7 {
        write_answer(t, c, answer);
    }
    t.number
}
