// Moves to the other version, into a marked output. The words are the direction (1 up, 2 down), the family that is given, the output's length; the answer
// (refusal, place, bytes, family); the sheet's bytes, and those that are due, none where it is refused, each with their number in front.
ghost use Rattle.std.specs.Prelude.{◌≤◌};

use super::outputs::{ROOM, kept, room};
use refusal::{Refusal, number, place};
use sheet_move::{Moved, move_down, move_up};
use stored::bytes::{Packed, words_for};
use stored::tally::Compared;
use stored::{Damaged, length_in};

#[derive(Clone, Copy)]
enum Direction {
    Up,
    Down,
}

#[derive(Clone, Copy)]
struct Move<'a> {
    direction: Direction,
    family: u32,
    // the output's length
    size: usize,
    answer: &'a [u64],
    sheet: Packed<'a>,
    due: Packed<'a>,
    ghost size_bound: { size ≤ 82000 },
    ghost sheet_bound: { sheet.len ≤ 65536 },
}

pub fn verdict(w: &[u64]) -> Result<Compared, Damaged> {
    let call = Move::read(w)?;
    Ok(call.tried())
}

impl<'a> Move<'a> {
    fn read(w: &'a [u64]) -> Result<Move<'a>, Damaged> {
        if w.len() < 9 {
            return Err(Damaged(0));
        }
        let direction = match w[0] {
            1 => Direction::Up,
            2 => Direction::Down,
            _ => return Err(Damaged(4)),
        };
        let Ok(family) = u32::try_from(w[1]) else {
            return Err(Damaged(5));
        };
        let size = length_in(w[2], ROOM, 6)?;
        let answer = &w[3..7];
        let (sheet, w) = Packed::split(&w[7..], 65536, 11)?;
        let (due, w) = Packed::split(w, 65536, words_for(sheet.len) as u64 + 12)?;
        if !w.is_empty() {
            return Err(Damaged(0));
        }
        Ok(Move {
            direction,
            family,
            size,
            answer,
            sheet,
            due,
        })
    }

    // The answer; the bytes in front; those behind them.
    fn tried(self) -> Compared {
        let mut large = [0; 65536];
        let mut space = room();
        let sheet = &mut large[..self.sheet.len];
        let out = &mut space[..self.size];
        self.sheet.unpack(sheet);
        let r = match self.direction {
            Direction::Up => move_up(sheet, self.family, out),
            Direction::Down => move_down(sheet, out),
        };
        Compared([
            said(r).as_slice() == self.answer,
            self.due.begins(out),
            kept(out, self.due.len),
            true,
        ])
    }
}

// An answer in words, as it is stored.
fn said(r: Result<Moved, Refusal>) -> [u64; 4] {
    match r {
        Ok(m) => [0, 0, m.bytes as u64, u64::from(m.family)],
        Err(q) => [number(q), place(q) as u64, 0, 0],
    }
}
