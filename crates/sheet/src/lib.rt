// The training sheet's reader, over a slice of bytes. A row's place in the matrix comes from its order among the rows that remain, alone.
#![tactic(auto)]

ghost use Rattle.std.specs.Prelude.{◌≡◌, false, cond, ◌+◌, ◌*◌, ◌≤◌, ◌<◌, length, set};
ghost use Rattle.arrays.specs.Part.{put, tab};
ghost use Rattle.big_endian.specs.Bytes.{float_at};
ghost use Rattle.sheet_header.specs.Header.{n_of, p_of, row_at, row-bytes};
ghost use Rattle.sheet.specs.Rows.{source_of, target_of, is_claim, claims_fine, above, rises, rows_from, cancelled, remaining, room_check, feature_of, score_of, matrix_of, targets_of};
ghost use Rattle.sheet.specs.Sheet.{remains, body_rows, rows_read, Outcome.outcome, body_read, sheet_of};

use big_endian::{big_endian, float_at, two_bytes};
use refusal::{Refusal, in_size};
use sheet_front::body_at;
use sheet_header::{FIRST, Header, LAST, N_AT, P_AT, header_check, header_of, row_at};

// Tells how many rows remain, so that a caller can lend for them: the header with that n. The refusals 11 to 15. Total, for all input.
#[tactic(auto, unfolding(crate::specs::Sheet::rows_read))]
pub fn count_rows(b: &[u8], rows: usize, cols: usize) -> Result<Header, Refusal>
    ensures { result ≡ rows_read b.now rows cols }
{
    header_check(b, FIRST, LAST)?;
    count_body(&b[body_at(b)..], rows, cols)
}

// Reads a sheet into x and y, which must have n * p and n elements for the n rows that remain. Nothing is written before every refusal is tested. Total, for
// all input: the answer and what matrix and targets then hold are `sheet_of`.
#[tactic(auto, unfolding(crate::specs::Sheet::sheet_of))]
pub fn read_sheet(
    b: &[u8],
    rows: usize,
    cols: usize,
    x: &mut [f64],
    y: &mut [f64],
) -> Result<Header, Refusal>
    ensures { outcome result x.new y.new ≡ sheet_of b.now rows cols x.old y.old }
{
    let h = count_rows(b, rows, cols)?;
    read_body(&b[body_at(b)..], h, x, y)
}

// ---- from here on every b is a body

// The refusals 14 and 15 over the rows, then how many remain.
#[tactic(auto, unfolding(crate::specs::Sheet::body_rows))]
fn count_body(b: &[u8], rows: usize, cols: usize) -> Result<Header, Refusal>
    requires { length b.now ≡ row_at (p_of b.now) (n_of b.now) }
    ensures { result ≡ body_rows b.now rows cols }
{
    let n = two_bytes(b, N_AT);
    let p = two_bytes(b, P_AT);
    rows_check(b, n, p)?;
    Ok(header_of(b, count_remaining(b, n, p), rows, cols))
}

// Reads the rows of a body with this header: first the refusals 1 and 2, then what it decodes to.
#[tactic(auto, unfolding(crate::specs::Sheet::body_read))]
fn read_body(b: &[u8], h: Header, x: &mut [f64], y: &mut [f64]) -> Result<Header, Refusal>
    requires b_len { length b.now ≡ row_at (p_of b.now) (n_of b.now) }
    requires n_value { h.n ≡ remains b.now }
    requires p_value { h.p ≡ p_of b.now }
    ensures { outcome result x.new y.new ≡ body_read b.now h x.old y.old }
{
    let n = two_bytes(b, N_AT);
    room_check(h.n, h.p, x.len(), y.len())?;
    fill_matrix(b, n, h.p, x);
    fill_targets(b, n, h.p, y);
    Ok(h)
}

// ---- the refusals of the rows

// The refusals 14 and 15 of all n rows.
pub fn rows_check(b: &[u8], n: usize, p: usize) -> Result<(), Refusal>
    requires { row_at p n ≤ length b.now }
    ensures { result ≡ rows_from b.now p n 0 }
{
    for i in 0..n {
        row_check(b, p, i)?;
    }
    Ok(())
}

// Those of row i alone.
#[tactic(auto, unfolding(crate::specs::Rows::pairs_from))]
fn row_check(b: &[u8], p: usize, i: usize) -> Result<(), Refusal>
    requires { row_at p i + row-bytes p ≤ length b.now }
    ensures { result ≡ rows_from b.now p 1 i }
{
    let at = row_at(p, i);
    let source = two_bytes(b, at);
    let target = two_bytes(b, at + 2);
    let score = big_endian(b, at + 4 + 8 * p, 8);
    if !claims_fine(source, target, score) {
        return Err(Refusal::Claim(i));
    }
    if !pair_rises(b, p, i) {
        return Err(Refusal::Pair(i));
    }
    Ok(())
}

// Whether two claim numbers and the bits of a score may stand in a row: a cancelled claim has target 0 and no score.
#[tactic(auto, unfolding(crate::specs::Rows::claims_fine))]
pub fn claims_fine(source: usize, target: usize, score: u64) -> bool
    ensures { result ≡ claims_fine source target score }
{
    is_claim(source) && (is_claim(target) || (target == 0 && score == 0))
}

fn is_claim(c: usize) -> bool
    ensures { result ≡ is_claim c }
{
    1 <= c && c <= 999
}

// Whether row i's pair is above that of the row before it. The first row has none before it.
fn pair_rises(b: &[u8], p: usize, i: usize) -> bool
    requires { row_at p i + row-bytes p ≤ length b.now }
    ensures { result ≡ rises (source_of b.now p) (target_of b.now p) i }
{
    if i == 0 {
        return true;
    }
    let (s, t) = pair(b, p, i - 1);
    let (u, v) = pair(b, p, i);
    pair_above(s, t, u, v)
}

// Source and target of row i.
fn pair(b: &[u8], p: usize, i: usize) -> (usize, usize)
    requires { row_at p i + row-bytes p ≤ length b.now }
    ensures { result ≡ (source_of b.now p i, target_of b.now p i) }
{
    let at = row_at(p, i);
    (two_bytes(b, at), two_bytes(b, at + 2))
}

// Whether the pair (u, v) is above (s, t): by the source first.
pub fn pair_above(s: usize, t: usize, u: usize, v: usize) -> bool
    ensures { result ≡ above s t u v }
{
    if s == u { t < v } else { s < u }
}

// ---- what remains

fn is_cancelled(b: &[u8], p: usize, i: usize) -> bool
    requires { row_at p i + row-bytes p ≤ length b.now }
    ensures { result ≡ cancelled b.now p i }
{
    two_bytes(b, row_at(p, i) + 2) == 0
}

pub fn count_remaining(b: &[u8], n: usize, p: usize) -> usize
    requires { row_at p n ≤ length b.now }
    ensures { result ≡ length (remaining b.now p n) }
{
    let mut left = 0;
    for i in 0..n {
        left += usize::from(!is_cancelled(b, p, i));
    }
    left
}

// ---- the lent slices

#[tactic(auto, unfolding(crate::specs::Rows::room_check))]
fn room_check(n: usize, p: usize, xl: usize, yl: usize) -> Result<(), Refusal>
    ensures { result ≡ room_check n p xl yl }
{
    if !in_size(n, p) {
        return Err(Refusal::Size);
    }
    if xl != n * p || yl != n {
        return Err(Refusal::Length);
    }
    Ok(())
}

// i is the sheet's row, k the matrix's.
fn fill_matrix(b: &[u8], n: usize, p: usize, x: &mut [f64])
    requires n_in_bounds { row_at p n ≤ length b.now }
    requires x_len { length x.old ≡ length (remaining b.now p n) * p }
    ensures { x.new ≡ matrix_of b.now n p }
{
    let mut k = 0;
    for i in 0..n {
        k = fill_row(b, p, i, x, k);
    }
}

// Row i into row k, unless it is cancelled; answers the matrix's next row.
fn fill_row(b: &[u8], p: usize, i: usize, x: &mut [f64], k: usize) -> usize
    requires p_in_bounds { row_at p i + row-bytes p ≤ length b.now }
    requires k_le_i { k ≤ i }
    requires p_in_bounds_2 { cancelled b.now p i ≡ false → k * p + p ≤ length x.old }
    ensures value { result ≡ cond (cancelled b.now p i) k (k + 1) }
    ensures x_after { x.new
        ≡ cond (cancelled b.now p i) x.old (put x.old (k * p) (tab (feature_of b.now p i) p)) }
{
    if is_cancelled(b, p, i) {
        return k;
    }
    fill_features(b, row_at(p, i) + 4, p, x, k * p);
    k + 1
}

fn fill_features(b: &[u8], at: usize, p: usize, x: &mut [f64], out: usize)
    requires p_in_bounds { at + 8 * p ≤ length b.now }
    requires p_in_bounds_2 { out + p ≤ length x.old }
    ensures { x.new ≡ put x.old out (tab (λ j. float_at b.now (at + 8 * j)) p) }
{
    for j in 0..p {
        x[out + j] = float_at(b, at + 8 * j);
    }
}

fn fill_targets(b: &[u8], n: usize, p: usize, y: &mut [f64])
    requires n_in_bounds { row_at p n ≤ length b.now }
    requires y_len { length y.old ≡ length (remaining b.now p n) }
    ensures { y.new ≡ targets_of b.now n p }
{
    let mut k = 0;
    for i in 0..n {
        k = fill_score(b, p, i, y, k);
    }
}

// As `fill_row`, for the score.
fn fill_score(b: &[u8], p: usize, i: usize, y: &mut [f64], k: usize) -> usize
    requires p_in_bounds { row_at p i + row-bytes p ≤ length b.now }
    requires k_in_bounds { cancelled b.now p i ≡ false → k < length y.old }
    ensures value { result ≡ cond (cancelled b.now p i) k (k + 1) }
    ensures y_after { y.new ≡ cond (cancelled b.now p i) y.old (set y.old k (score_of b.now p i)) }
{
    if is_cancelled(b, p, i) {
        return k;
    }
    y[k] = float_at(b, row_at(p, i) + 4 + 8 * p);
    k + 1
}
