// A training sheet moved from version 1 up to version 2, and down: another front, and the body's bytes as they stand.
#![tactic(auto)]

ghost use Rattle.std.specs.Prelude.{◌≡◌, ◌+◌, ◌≤◌, length};
ghost use Rattle.arrays.specs.Part.{put};
ghost use Rattle.sheet_front.specs.Front.{front_bytes, sheet_with};
ghost use Rattle.sheet_header.specs.Header.{n_of, p_of, row_at};
ghost use Rattle.sheet_move.specs.Move.{body_moves, move_check, up_check, down_check, Outcome.outcome, up_move, down_move};

use big_endian::{big_endian, two_bytes, write_bytes};
use refusal::{Refusal, in_size};
use sheet::{count_remaining, rows_check};
use sheet_front::{Version, body_at, front_bytes, write_front};
use sheet_header::{N_AT, P_AT, header_check};

// How many bytes a moved sheet has, and its family: the one given, or the one taken out.
#[derive(Clone, Copy, PartialEq, Eq, Debug)]
pub struct Moved {
    pub bytes: usize,
    pub family: u32,
}

// Moves a sheet of version 1 up, with a family, to the front of `out`, which may be longer. Nothing is written before every refusal is tested. Total, for all
// input: the answer and what `out` then holds are `up_move`.
#[tactic(auto, unfolding(crate::specs::Move::up_move))]
pub fn move_up(b: &[u8], family: u32, out: &mut [u8]) -> Result<Moved, Refusal>
    ensures { outcome result out.new ≡ up_move b.now family out.old }
{
    up_check(b, out.len())?;
    write_version(Version::Two(family), &b[5..], out);
    Ok(Moved {
        bytes: b.len() + 4,
        family,
    })
}

// Moves a sheet of version 2 down to the front of `out`, without its family, which the answer has. Total, for all input: answer and output are `down_move`.
#[tactic(auto, unfolding(crate::specs::Move::down_move))]
pub fn move_down(b: &[u8], out: &mut [u8]) -> Result<Moved, Refusal>
    ensures { outcome result out.new ≡ down_move b.now out.old }
{
    down_check(b, out.len())?;
    let family = big_endian(b, 5, 4) as u32;
    write_version(Version::One, &b[9..], out);
    Ok(Moved {
        bytes: b.len() - 4,
        family,
    })
}

// ---- the refusals

// Those of `move_up` into `room` bytes.
#[tactic(auto, unfolding(crate::specs::Move::up_check))]
pub fn up_check(b: &[u8], room: usize) -> Result<(), Refusal>
    ensures { result ≡ up_check b.now room }
{
    if room < 4 || room - 4 < b.len() {
        return Err(Refusal::Length);
    }
    move_check(b, 1)
}

// Those of `move_down`.
#[tactic(auto, unfolding(crate::specs::Move::down_check))]
pub fn down_check(b: &[u8], room: usize) -> Result<(), Refusal>
    ensures { result ≡ down_check b.now room }
{
    if room < b.len().saturating_sub(4) {
        return Err(Refusal::Length);
    }
    move_check(b, 2)
}

#[tactic(auto, unfolding(crate::specs::Move::move_check))]
fn move_check(b: &[u8], version: u8) -> Result<(), Refusal>
    ensures { result ≡ move_check version b.now }
{
    header_check(b, version, version)?;
    body_moves(&b[body_at(b)..])
}

// b is a body.
#[tactic(auto, unfolding(crate::specs::Move::body_moves))]
fn body_moves(b: &[u8]) -> Result<(), Refusal>
    requires { length b.now ≡ row_at (p_of b.now) (n_of b.now) }
    ensures { result ≡ body_moves b.now }
{
    let n = two_bytes(b, N_AT);
    let p = two_bytes(b, P_AT);
    rows_check(b, n, p)?;
    if !in_size(count_remaining(b, n, p), p) {
        return Err(Refusal::Size);
    }
    Ok(())
}

// ---- the bytes

// A body behind its front.
fn write_version(v: Version, body: &[u8], out: &mut [u8])
    requires { front_bytes v + length body.now ≤ length out.old }
    ensures { out.new ≡ put out.old 0 (sheet_with v body.now) }
{
    write_front(v, body.len(), out);
    write_bytes(body, out, front_bytes(v));
}
