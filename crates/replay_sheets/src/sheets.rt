// Sheets and the texts that they must give. Bytes stand 8 to a word, with zeros behind the last, and in front of them their number, where it is not fixed.
ghost use Rattle.std.specs.Prelude.{◌≤◌};

use sheet_fit::fit_sheet;
use stored::Damaged;
use stored::bytes::{Packed, words_for};
use stored::tally::Compared;

// A sheet that stands alone: its bytes, and those of its text.
pub fn alone(w: &[u64]) -> Result<Compared, Damaged> {
    if w.len() < 2 {
        return Err(Damaged(0));
    }
    let (sheet, rest) = Packed::split(w, 35883, 4)?;
    let (text, rest) = Packed::split(rest, 2048, words_for(sheet.len) as u64 + 5)?;
    if !rest.is_empty() {
        return Err(Damaged(0));
    }
    Ok(Compared::one(fitted(Packed::new(&[], 0), sheet, text)))
}

// A sheet in both versions: the 5 bytes of its front in version 1, the 9 in version 2, its body, and the text that both give.
pub fn both(w: &[u64]) -> Result<Compared, Damaged> {
    if w.len() < 5 {
        return Err(Damaged(0));
    }
    let one = Packed::new(&w[..1], 5);
    let two = Packed::new(&w[1..3], 9);
    let (body, rest) = Packed::split(&w[3..], 35874, 7)?;
    let (text, rest) = Packed::split(rest, 2048, words_for(body.len) as u64 + 8)?;
    if !rest.is_empty() {
        return Err(Damaged(0));
    }
    Ok(Compared([fitted(one, body, text), fitted(two, body, text), true, true]))
}

// Does the sheet of a front and the rest of it give this text?
fn fitted(front: Packed, rest: Packed, wanted: Packed) -> bool
    requires front_bound { front.len ≤ 9 }
    requires rest_bound { rest.len ≤ 35883 }
{
    let mut bytes = [0; 65536];
    let sheet = &mut bytes[..front.len + rest.len];
    front.unpack(&mut sheet[..front.len]);
    rest.unpack(&mut sheet[front.len..]);
    let mut text = [0; 2048];
    let n = fit_sheet(sheet, &mut text);
    wanted.is(&text[..n])
}
