// The training sheet up to its rows: the checks of its front and of the header in front of its body, and what the header says.
#![tactic(auto)]

ghost use Rattle.std.specs.Prelude.{◌≡◌, ◌+◌, ◌^◌, ◌≤◌, ◌<◌, length};
ghost use Rattle.sheet_header.specs.Flags.{flags_fine, flags_for};
ghost use Rattle.sheet_header.specs.Header.{row_at, row-bytes, body_check, accept_check, header_of, header_read};

use big_endian::{big_endian, float_at, two_bytes};
use refusal::Refusal;
use settings::Settings;
use sheet_front::body_at;

// The versions that a reader takes are from the one to the other.
pub const FIRST: u8 = 1;

pub const LAST: u8 = 2;

// Where the fields stand in a body.
pub const N_AT: usize = 0;

pub const P_AT: usize = 2;

pub const ALPHA_AT: usize = 4;

pub const L1_RATIO_AT: usize = 12;

pub const TOL_AT: usize = 20;

pub const MAX_ITER_AT: usize = 28;

pub const FLAGS_AT: usize = 32;

// Where its rows begin.
pub const ROWS_AT: usize = 33;

#[derive(Clone, Copy)]
pub struct Header {
    pub n: usize,
    pub p: usize,
    pub settings: Settings,
}

// Reads the header alone, with the refusals 11 to 13; its n counts all rows, cancelled ones too. R and C are not in a sheet, so the caller gives them.
#[tactic(auto, unfolding(crate::specs::Header::header_read))]
pub fn read_header(b: &[u8], rows: usize, cols: usize) -> Result<Header, Refusal>
    ensures { result ≡ header_read b.now rows cols }
{
    header_check(b, FIRST, LAST)?;
    let body = &b[body_at(b)..];
    Ok(header_of(body, two_bytes(body, N_AT), rows, cols))
}

// ---- the refusals; in `body_check` and `header_of` b is a body

// Refusals 11 to 13, where the versions from `first` to `last` are accepted. Fewer than five bytes are refused for their length, before the version is read.
#[tactic(auto, unfolding(crate::specs::Header::accept_check, crate::specs::Header::body_check))]
pub fn header_check(b: &[u8], first: u8, last: u8) -> Result<(), Refusal>
    ensures { result ≡ accept_check first last b.now }
{
    if b.len() < 5 {
        return Err(Refusal::SheetLength);
    }
    if b[0] < first || last < b[0] {
        return Err(Refusal::Version);
    }
    let at = body_at(b);
    if big_endian(b, 1, 4) + 5 != b.len() as u64 || b.len() < at {
        return Err(Refusal::SheetLength);
    }
    body_check(&b[at..])
}

// The body's length against its n and p, then its flags.
#[tactic(auto, unfolding(crate::specs::Header::body_check))]
fn body_check(b: &[u8]) -> Result<(), Refusal>
    ensures { result ≡ body_check b.now }
{
    if b.len() < ROWS_AT || b.len() != row_at(two_bytes(b, P_AT), two_bytes(b, N_AT)) {
        return Err(Refusal::SheetLength);
    }
    if !flags_fine(b[FLAGS_AT]) {
        return Err(Refusal::Flags);
    }
    Ok(())
}

// Where row i begins.
pub fn row_at(p: usize, i: usize) -> usize
    requires { row_at p i + row-bytes p < 2 ^ 64 }
    ensures { result ≡ row_at p i }
{
    ROWS_AT + i * (12 + 8 * p)
}

// ---- the flags, both ways: 1 says normalise, 2 lazy

fn flags_fine(flags: u8) -> bool
    ensures { result ≡ flags_fine flags }
{
    flags <= 3
}

pub fn flags_for(st: Settings) -> u8
    ensures { result ≡ flags_for st }
{
    u8::from(st.normalise) + 2 * u8::from(st.lazy)
}

// ---- the header

// The caller says which rows n counts.
#[tactic(auto, unfolding(crate::specs::Header::header_of))]
pub fn header_of(b: &[u8], n: usize, rows: usize, cols: usize) -> Header
    requires { 33 ≤ length b.now }
    ensures { result ≡ header_of b.now n rows cols }
{
    let flags = b[FLAGS_AT];
    let settings = Settings {
        alpha: float_at(b, ALPHA_AT),
        l1_ratio: float_at(b, L1_RATIO_AT),
        tol: float_at(b, TOL_AT),
        max_iter: big_endian(b, MAX_ITER_AT, 4),
        panel_rows: rows,
        panel_cols: cols,
        normalise: flags % 2 == 1,
        lazy: flags >= 2,
    };
    Header {
        n,
        p: two_bytes(b, P_AT),
        settings,
    }
}
