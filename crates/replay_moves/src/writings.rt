// Sheets written, into a marked output. The words are version, family, the output's length; the answer (refusal, place, bytes); rows, features, the settings;
// sources and targets, each with their number in front; and the bytes that are due, none where it is refused, with theirs. The numbers are features and scores.
ghost use Rattle.std.specs.Prelude.{◌≡◌, ◌≤◌, length};

use super::outputs::{ROOM, kept, room};
use c_values::settings_from;
use refusal::{Refusal, number, place};
use settings::Settings;
use sheet_front::Version;
use sheet_write::write_sheet;
use stored::bytes::Packed;
use stored::tally::Compared;
use stored::{Damaged, counted, length_in};

#[derive(Clone, Copy)]
struct Writing<'a> {
    version: Version,
    // the output's length
    size: usize,
    answer: &'a [u64],
    rows: usize,
    features: usize,
    settings: Settings,
    sources: &'a [u64],
    targets: &'a [u64],
    due: Packed<'a>,
    ghost size_bound: { size ≤ 82000 },
    ghost sources_bound: { length sources.now ≤ 4096 },
    ghost targets_bound: { length targets.now ≤ 4096 },
}

pub fn verdict(w: &[u64], x: &[f64], y: &[f64]) -> Result<Compared, Damaged> {
    let call = Writing::read(w)?;
    call.tried(x, y)
}

impl<'a> Writing<'a> {
    fn read(w: &'a [u64]) -> Result<Writing<'a>, Damaged> {
        if w.len() < 19 {
            return Err(Damaged(0));
        }
        let Ok(family) = u32::try_from(w[1]) else {
            return Err(Damaged(5));
        };
        let size = length_in(w[2], ROOM, 6)?;
        let version = match w[0] {
            1 => Version::One,
            2 => Version::Two(family),
            _ => return Err(Damaged(4)),
        };
        let (sources, rest) = counted(&w[16..], 4096, 20)?;
        if rest.len() < 2 {
            return Err(Damaged(0));
        }
        let (targets, rest) = counted(rest, 4096, sources.len() as u64 + 21)?;
        let at = (sources.len() + targets.len()) as u64 + 22;
        let (due, rest) = Packed::split(rest, 65536, at)?;
        if !rest.is_empty() {
            return Err(Damaged(0));
        }
        Ok(Writing {
            version,
            size,
            answer: &w[3..6],
            rows: w[6] as usize,
            features: w[7] as usize,
            settings: settings_from(&w[8..16]),
            sources,
            targets,
            due,
        })
    }

    // The answer; the bytes in front; those behind them.
    fn tried(self, x: &[f64], y: &[f64]) -> Result<Compared, Damaged> {
        let mut one = [0; 4096];
        let mut two = [0; 4096];
        let sources = claims(self.sources, &mut one, 20)?;
        let targets = claims(self.targets, &mut two, self.sources.len() as u64 + 21)?;
        let mut space = room();
        let out = &mut space[..self.size];
        let r = write_sheet(
            self.version,
            self.rows,
            self.features,
            self.settings,
            sources,
            targets,
            x,
            y,
            out,
        );
        Ok(Compared([
            said(r).as_slice() == self.answer,
            self.due.begins(out),
            kept(out, self.due.len),
            true,
        ]))
    }
}

// The words as claims; they are bad, and said to be so at the place `at`, where one is none of a claim's.
fn claims<'a>(w: &[u64], out: &'a mut [u16], at: u64) -> Result<&'a [u16], Damaged>
    requires { length w.now ≤ length out.old }
{
    for (i, word) in w.iter().enumerate() {
        let Ok(claim) = u16::try_from(*word) else {
            return Err(Damaged(at));
        };
        out[i] = claim;
    }
    Ok(&out[..w.len()])
}

// An answer in words, as it is stored.
fn said(r: Result<usize, Refusal>) -> [u64; 3] {
    match r {
        Ok(n) => [0, 0, n as u64],
        Err(q) => [number(q), place(q) as u64, 0],
    }
}
