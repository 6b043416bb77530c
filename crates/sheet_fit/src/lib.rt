// A training sheet's bytes to the text of its fit, or of its refusal.
#![tactic(auto)]

ghost use Rattle.std.specs.Prelude.{◌≡◌, ◌≤◌, length};
ghost use Rattle.answer_text.specs.Text.{Written.written, laid};
ghost use Rattle.whole_fit.specs.Fit.{said_final, whole_of};
ghost use Rattle.sheet_front.specs.Front.{body_of};
ghost use Rattle.sheet_header.specs.Header.{n_of, p_of};
ghost use Rattle.sheet.specs.Sheet.{sheet_of};
ghost use Rattle.sheet_fit.specs.SheetFit.{refusal_text, bits_of, ended_text, answer_text, whole_text, fit_text, read_text, lent_text, sized_text, sheet_text};

use answer_text::{write_done, write_refused};
use numbers::bits::bits_of;
use refusal::{Refusal, number, place};
use settings::Settings;
use sheet::{count_rows, read_sheet};
use sheet_header::read_header;
use whole_fit::{Fitted, fit};

fn refused(out: &mut [u8], r: Refusal) -> usize
    ensures { written result out.new ≡ laid (refusal_text r) out.old }
{
    write_refused(out, number(r), place(r) as u64)
}

// The bits of p weights.
fn bits_from(w: &[f64], p: usize, out: &mut [u64])
    requires w_len { length w.now ≡ p }
    requires out_len { length out.old ≡ p }
    ensures { out.new ≡ bits_of p w.now }
{
    for j in 0..p {
        out[j] = bits_of(w[j]);
    }
}

fn ended(out: &mut [u8], f: Fitted, w: &[u64]) -> usize
    requires { length w.now ≤ 16 }
    ensures { written result out.new ≡ laid (ended_text f.way f.intercept f.counts w.now) out.old }
{
    write_done(
        out,
        f.way,
        f.counts.rounds.0,
        f.counts.solver.0,
        f.counts.trials.0,
        bits_of(f.intercept),
        w,
    )
}

fn answered(out: &mut [u8], a: Result<Fitted, Refusal>, w: &[u64]) -> usize
    requires { length w.now ≤ 16 }
    ensures { written result out.new ≡ laid (answer_text (said_final a) w.now) out.old }
{
    match a {
        Ok(f) => ended(out, f, w),
        Err(r) => refused(out, r),
    }
}

// The fit of an accepted sheet, in lent memory.
fn fitted_in(
    n: usize,
    p: usize,
    st: Settings,
    x: &[f64],
    y: &[f64],
    s: &mut [f64],
    w: &mut [f64],
    bits: &mut [u64],
    out: &mut [u8],
) -> usize
    requires p_bound { p ≤ 16 }
    requires w_len { length w.old ≡ p }
    requires bits_len { length bits.old ≡ p }
    ensures { written result out.new
        ≡ laid (whole_text p (whole_of n p x.now y.now st s.old w.old)) out.old }
{
    let r = fit(n, p, x, y, st, s, w);
    bits_from(w, p, bits);
    answered(out, r.answer, bits)
}

// The same in memory of its own: 6,336 words are what 256 rows of 16 features need.
fn fitted(n: usize, p: usize, st: Settings, x: &[f64], y: &[f64], out: &mut [u8]) -> usize
    requires { p ≤ 16 }
    ensures { written result out.new ≡ laid (fit_text n p st x.now y.now) out.old }
{
    let mut s = [0.0; 6336];
    let mut space = [0.0; 16];
    let mut words = [0u64; 16];
    fitted_in(
        n,
        p,
        st,
        x,
        y,
        &mut s,
        &mut space[0..p],
        &mut words[0..p],
        out,
    )
}

// A sheet of at most 16 features, read into x and y.
fn read_in(b: &[u8], x: &mut [f64], y: &mut [f64], out: &mut [u8]) -> usize
    requires { p_of (body_of b.now) ≤ 16 }
    ensures { written result out.new ≡ laid (read_text (sheet_of b.now 32 8 x.old y.old)) out.old }
{
    match read_sheet(b, 32, 8, x, y) {
        Err(r) => refused(out, r),
        Ok(h) => fitted(h.n, h.p, h.settings, x, y, out),
    }
}

// A sheet whose rows are counted: n of p features remain, and matrix and targets are lent for these.
fn counted(b: &[u8], n: usize, p: usize, out: &mut [u8]) -> usize
    requires n_bound { n ≤ 256 }
    requires p_bound { p ≤ 16 }
    requires p_value { p ≡ p_of (body_of b.now) }
    ensures { written result out.new ≡ laid (lent_text b.now n p) out.old }
{
    let mut matrix = [0.0; 4096];
    let mut scores = [0.0; 256];
    read_in(b, &mut matrix[0..n * p], &mut scores[0..n], out)
}

// A sheet whose header is read: n rows of p features, cancelled ones too, refused with 16 where there are more than 256 or 16.
#[tactic(auto, unfolding(crate::specs::SheetFit::sized_text))]
fn headed(b: &[u8], n: usize, p: usize, out: &mut [u8]) -> usize
    requires n_value { n ≡ n_of (body_of b.now) }
    requires p_value { p ≡ p_of (body_of b.now) }
    ensures { written result out.new ≡ laid (sized_text b.now n p) out.old }
{
    if n > 256 || p > 16 {
        return refused(out, Refusal::TooLarge);
    }
    match count_rows(b, 32, 8) {
        Err(r) => refused(out, r),
        Ok(h) => counted(b, h.n, h.p, out),
    }
}

// Writes the text of a sheet's fit, or of its refusal, at the front of `out` and answers its length. It needs 2,048 bytes: with fewer it writes nothing and
// answers 0. Total, for all bytes.
#[tactic(auto, unfolding(crate::specs::SheetFit::sheet_text))]
pub fn fit_sheet(b: &[u8], out: &mut [u8]) -> usize
    ensures { written result out.new ≡ laid (sheet_text b.now) out.old }
{
    if b.len() > 35882 {
        return refused(out, Refusal::TooLarge);
    }
    match read_header(b, 32, 8) {
        Err(r) => refused(out, r),
        Ok(h) => headed(b, h.n, h.p, out),
    }
}
