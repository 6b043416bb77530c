// The training sheet's writer, for both versions, from rows in slices. Every row is written, cancelled ones too.
#![tactic(auto)]

ghost use Rattle.std.specs.Prelude.{◌≡◌, ◌&&◌, ◌+◌, ◌*◌, ◌≤◌, ◌<◌, leb, eqb, length, get_or};
ghost use Rattle.std.specs.Float.{binary64};
ghost use Rattle.std.specs.Float.Ieee.{to_bits};
ghost use Rattle.arrays.specs.Part.{put};
ghost use Rattle.arrays.specs.Sums.{◌!◌};
ghost use Rattle.big_endian.specs.Bytes.{float_bytes};
ghost use Rattle.refusal.proofs.Sizes.{InSize};
ghost use Rattle.sheet_header.specs.Header.{row-bytes, row_at};
ghost use Rattle.sheet.specs.Rows.{rises, pairs_from};
ghost use Rattle.sheet_write.specs.Write.{given, joined, head_bytes, row_bytes, rows_bytes, given_check, Outcome.outcome, written_of};

use big_endian::{write_float, write_number};
use numbers::bits::bits_of;
use refusal::{Refusal, in_size};
use settings::{Settings, allowed};
use sheet::{claims_fine, pair_above};
use sheet_front::{Version, front_bytes, write_front};
use sheet_header::{
    ALPHA_AT, FLAGS_AT, L1_RATIO_AT, MAX_ITER_AT, P_AT, ROWS_AT, TOL_AT, flags_for, row_at,
};

// The rows of a sheet, as they are given.
#[derive(Clone, Copy)]
struct Rows<'a> {
    sources: &'a [u16],
    targets: &'a [u16],
    x: &'a [f64],
    y: &'a [f64],
}

// Writes a sheet of n rows of p features at the front of `out`, which may be longer, and answers how many bytes it has. Nothing is written before every
// refusal is tested. Total, for all input: the answer and what `out` then holds are `written_of`.
#[tactic(auto, unfolding(crate::specs::Write::written_of, crate::specs::Write::write_check))]
pub fn write_sheet(
    version: Version,
    n: usize,
    p: usize,
    st: Settings,
    sources: &[u16],
    targets: &[u16],
    x: &[f64],
    y: &[f64],
    out: &mut [u8],
) -> Result<usize, Refusal>
    ensures { outcome result out.new
        ≡ written_of version (given n p st sources.now targets.now x.now y.now) out.old }
{
    let at = front_bytes(version);
    if !has_room(at, n, p, out.len()) {
        return Err(Refusal::Length);
    }
    let rows = Rows {
        sources,
        targets,
        x,
        y,
    };
    rows.check(n, p, st)?;
    let k = row_at(p, n);
    write_front(version, k, out);
    write_head(n, p, st, out, at);
    rows.write(n, p, out, at + ROWS_AT);
    Ok(at + k)
}

// ---- the refusals

// Whether `room` bytes are enough for `at` in front and a body of n rows of p features. The product may be beyond 64 bits, so it is not made.
pub fn has_room(at: usize, n: usize, p: usize, room: usize) -> bool
    requires { at ≤ 9 }
    ensures { result ≡ leb (at + row_at p n) room }
{
    if room < at + 33 {
        return false;
    }
    if n == 0 {
        return true;
    }
    let each = (room - (at + 33)) / n;
    12 <= each && p <= (each - 12) / 8
}

impl Rows<'_> {
    // The refusals 1, 2, 3, 14 and 15 of what is given.
    #[tactic(auto, unfolding(crate::specs::Write::given_check))]
    fn check(&self, n: usize, p: usize, st: Settings) -> Result<(), Refusal>
        ensures { result
            ≡ given_check (given n p st self.now.sources.now self.now.targets.now self.now.x.now self.now.y.now) }
    {
        if !in_size(n, p) {
            return Err(Refusal::Size);
        }
        if !self.lengths_fine(n, p) {
            return Err(Refusal::Length);
        }
        if !allowed(st) {
            return Err(Refusal::Setting);
        }
        self.pairs_check(n)
    }

    fn lengths_fine(&self, n: usize, p: usize) -> bool
        requires { InSize n p }
        ensures { result
            ≡ (eqb (length self.now.sources.now) n && eqb (length self.now.targets.now) n && eqb (length self.now.y.now) n && eqb (length self.now.x.now) (n * p)) }
    {
        self.sources.len() == n
            && self.targets.len() == n
            && self.y.len() == n
            && self.x.len() == n * p
    }

    fn pairs_check(&self, n: usize) -> Result<(), Refusal>
        requires sources_len { length self.now.sources.now ≡ n }
        requires targets_len { length self.now.targets.now ≡ n }
        requires y_len { length self.now.y.now ≡ n }
        ensures { result ≡ pairs_from (λ i. get_or self.now.sources.now i 0) (λ i. get_or self.now.targets.now i 0) (λ i. to_bits binary64 (self.now.y.now ! i)) n 0 }
    {
        for i in 0..n {
            self.pair_check(i)?;
        }
        Ok(())
    }

    // Those of row i alone.
    #[tactic(auto, unfolding(sheet::specs::Rows::pairs_from))]
    fn pair_check(&self, i: usize) -> Result<(), Refusal>
        requires i_in_bounds { i < length self.now.sources.now }
        requires i_in_bounds_2 { i < length self.now.targets.now }
        requires i_in_bounds_3 { i < length self.now.y.now }
        ensures { result ≡ pairs_from (λ i. get_or self.now.sources.now i 0) (λ i. get_or self.now.targets.now i 0) (λ i. to_bits binary64 (self.now.y.now ! i)) 1 i }
    {
        if !claims_fine(
            usize::from(self.sources[i]),
            usize::from(self.targets[i]),
            bits_of(self.y[i]),
        ) {
            return Err(Refusal::Claim(i));
        }
        if !self.pair_rises(i) {
            return Err(Refusal::Pair(i));
        }
        Ok(())
    }

    fn pair_rises(&self, i: usize) -> bool
        requires i_in_bounds { i < length self.now.sources.now }
        requires i_in_bounds_2 { i < length self.now.targets.now }
        ensures { result ≡ rises (λ i. get_or self.now.sources.now i 0) (λ i. get_or self.now.targets.now i 0) i }
    {
        if i == 0 {
            return true;
        }
        pair_above(
            usize::from(self.sources[i - 1]),
            usize::from(self.targets[i - 1]),
            usize::from(self.sources[i]),
            usize::from(self.targets[i]),
        )
    }

    // One row behind another, from `at` on.
    fn write(&self, n: usize, p: usize, out: &mut [u8], at: usize)
        requires sources_len { length self.now.sources.now ≡ n }
        requires targets_len { length self.now.targets.now ≡ n }
        requires y_len { length self.now.y.now ≡ n }
        requires x_len { length self.now.x.now ≡ n * p }
        requires p_in_bounds { at + n * row-bytes p ≤ length out.old }
        ensures { out.new
            ≡ put out.old at (rows_bytes p self.now.sources.now self.now.targets.now self.now.x.now self.now.y.now n) }
    {
        for i in 0..n {
            write_row(
                p,
                u64::from(self.sources[i]),
                u64::from(self.targets[i]),
                self.x,
                i * p,
                self.y[i],
                out,
                at + i * (12 + 8 * p),
            );
        }
    }
}

// ---- the bytes, from `at` on

fn write_head(n: usize, p: usize, st: Settings, out: &mut [u8], at: usize)
    requires { at + 33 ≤ length out.old }
    ensures { out.new ≡ put out.old at (head_bytes n p st) }
{
    write_number(n as u64, 2, out, at);
    write_number(p as u64, 2, out, at + P_AT);
    write_float(st.alpha, out, at + ALPHA_AT);
    write_float(st.l1_ratio, out, at + L1_RATIO_AT);
    write_float(st.tol, out, at + TOL_AT);
    write_number(st.max_iter, 4, out, at + MAX_ITER_AT);
    out[at + FLAGS_AT] = flags_for(st);
}

fn write_row(
    p: usize,
    source: u64,
    target: u64,
    x: &[f64],
    from: usize,
    score: f64,
    out: &mut [u8],
    at: usize,
)
    requires p_in_bounds { from + p ≤ length x.now }
    requires p_in_bounds_2 { at + row-bytes p ≤ length out.old }
    ensures { out.new ≡ put out.old at (row_bytes p source target x.now from score) }
{
    write_number(source, 2, out, at);
    write_number(target, 2, out, at + 2);
    write_features(x, from, p, out, at + 4);
    write_float(score, out, at + 4 + 8 * p);
}

fn write_features(x: &[f64], from: usize, p: usize, out: &mut [u8], at: usize)
    requires p_in_bounds { from + p ≤ length x.now }
    requires p_in_bounds_2 { at + 8 * p ≤ length out.old }
    ensures { out.new ≡ put out.old at (joined (λ j. float_bytes (x.now ! (from + j))) p) }
{
    for j in 0..p {
        write_float(x[from + j], out, at + 8 * j);
    }
}
