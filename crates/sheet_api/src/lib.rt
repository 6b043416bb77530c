// The training sheet's reader, writers and moves for C and Rust, over bytes, with header, settings, move and place as words (specs/ says which).
// Each call returns the number of the refusal, 0 where there is none. A wrong number of words is refused with 2: in the reader after what is wrong with the bytes
// and after 1, in a writer with the other lengths, in a move last. The place's word is written with every answer.
#![tactic(auto)]

ghost use Rattle.std.specs.Prelude.{◌≡◌, [], length};
ghost use Rattle.sheet_front.specs.declared.Version.TheVariants.{One, Two};
ghost use Rattle.sheet.specs.Sheet.{sheet_of};
ghost use Rattle.sheet_words.specs.Words.{number_by, number_in, place_word, place_words};
ghost use Rattle.sheet_api.specs.Calls.{answer_in, HeaderCall, CountCall, SheetCall};
ghost use Rattle.sheet_api.specs.Writing.{check_written, unwritten, WriteCall, check_moved, moved_words, unmoved, UpCall, DownCall};

use c_values::{SETTINGS_WORDS, settings_from};
use refusal::{Refusal, in_size};
use sheet::{count_rows, read_sheet};
use sheet_front::{Version, front_bytes};
use sheet_header::read_header;
use sheet_move::{Moved, down_check, move_down, move_up, up_check};
use sheet_words::{HEADER_WORDS, answer, answer_read, due, number_in, tell, unheld, write_header};
use sheet_write::{has_room, write_sheet};

// Reads the sheet into empty slices: it is refused with 2 at the latest, since past 1 it has a row.
fn refuse(bytes: &[u8], rows: usize, cols: usize, place: &mut [u64]) -> u64
    ensures value { result ≡ number_in (answer_in (sheet_of bytes.now rows cols [] [])) }
    ensures place_after { place.new ≡ place_words (answer_in (sheet_of bytes.now rows cols [] [])) place.old }
{
    answer_read(read_sheet(bytes, rows, cols, &mut [], &mut []), place)
}

// The header of a sheet, as ten words; its n counts all rows, cancelled ones too. A refusal leaves them as they were.
#[tactic(auto, unfolding(crate::specs::Calls::read_header_words, crate::specs::Calls::read_as))]
pub fn xangoravit_read_header(bytes: &[u8], rows: usize, cols: usize, header: &mut [u64]) -> u64
    ensures { HeaderCall bytes.now rows cols header.old result header.new }
{
    let o = read_header(bytes, rows, cols);
    if header.len() != HEADER_WORDS {
        return number_in(unheld(o));
    }
    write_header(o, header);
    number_in(o)
}

// The header again, whose n is how many rows remain: x and y are lent for these. The place of a refusal is one word, and a refusal leaves the header's.
#[tactic(auto, unfolding(crate::specs::Calls::count_rows_words, crate::specs::Calls::read_as))]
pub fn xangoravit_count_rows(
    bytes: &[u8],
    rows: usize,
    cols: usize,
    header: &mut [u64],
    place: &mut [u64],
) -> u64
    ensures { CountCall bytes.now rows cols header.old place.old result header.new place.new }
{
    let o = count_rows(bytes, rows, cols);
    if !due(header.len(), HEADER_WORDS, place.len()) {
        return answer_read(unheld(o), place);
    }
    tell(o, header, place)
}

// A sheet into x and y, its header as ten words, and the place of a refusal as one. A refusal leaves all but the place as it was.
#[tactic(auto, unfolding(crate::specs::Calls::read_sheet_words, crate::specs::Calls::read_as))]
pub fn xangoravit_read_sheet(
    bytes: &[u8],
    rows: usize,
    cols: usize,
    x: &mut [f64],
    y: &mut [f64],
    header: &mut [u64],
    place: &mut [u64],
) -> u64
    ensures { SheetCall bytes.now rows cols x.old y.old header.old place.old
        result header.new place.new x.new y.new }
{
    if !due(header.len(), HEADER_WORDS, place.len()) {
        return refuse(bytes, rows, cols, place);
    }
    let o = read_sheet(bytes, rows, cols, x, y);
    tell(o, header, place)
}

// ---- a sheet written

// What is answered where words of the settings or of the place are missing, or too many.
#[tactic(auto, unfolding(crate::specs::Writing::unwritten))]
fn words_missing(v: Version, n: usize, p: usize, room: usize) -> Result<(), Refusal>
    ensures { result ≡ unwritten v n p room }
{
    if !has_room(front_bytes(v), n, p, room) {
        return Err(Refusal::Length);
    }
    if !in_size(n, p) {
        return Err(Refusal::Size);
    }
    Err(Refusal::Length)
}

#[tactic(auto, unfolding(crate::specs::Writing::write_words))]
fn write_in(
    v: Version,
    n: usize,
    p: usize,
    settings: &[u64],
    sources: &[u16],
    targets: &[u16],
    x: &[f64],
    y: &[f64],
    out: &mut [u8],
    place: &mut [u64],
) -> u64
    ensures { WriteCall v n p settings.now sources.now targets.now x.now y.now out.old
        place.old result place.new out.new }
{
    if !due(settings.len(), SETTINGS_WORDS, place.len()) {
        return answer(words_missing(v, n, p, out.len()), place);
    }
    let o = write_sheet(
        v,
        n,
        p,
        settings_from(settings),
        sources,
        targets,
        x,
        y,
        out,
    );
    answer(o.map(|_| ()), place)
}

// A sheet of version 1 from n rows of p features, at the front of `out`: 38 + n(12 + 8p) bytes. The place of a refusal is one word; a refusal leaves `out`.
pub fn xangoravit_write_sheet_1(
    n: usize,
    p: usize,
    settings: &[u64],
    sources: &[u16],
    targets: &[u16],
    x: &[f64],
    y: &[f64],
    out: &mut [u8],
    place: &mut [u64],
) -> u64
    ensures { WriteCall One n p settings.now sources.now targets.now x.now y.now out.old
        place.old result place.new out.new }
{
    write_in(
        Version::One,
        n,
        p,
        settings,
        sources,
        targets,
        x,
        y,
        out,
        place,
    )
}

// The same of version 2, with a family: 42 + n(12 + 8p) bytes.
pub fn xangoravit_write_sheet_2(
    family: u32,
    n: usize,
    p: usize,
    settings: &[u64],
    sources: &[u16],
    targets: &[u16],
    x: &[f64],
    y: &[f64],
    out: &mut [u8],
    place: &mut [u64],
) -> u64
    ensures { WriteCall (Two family) n p settings.now sources.now targets.now x.now y.now
        out.old place.old result place.new out.new }
{
    write_in(
        Version::Two(family),
        n,
        p,
        settings,
        sources,
        targets,
        x,
        y,
        out,
        place,
    )
}

// ---- a sheet moved; where words of the move or of the place are missing, or too many, it is 2 where nothing refuses the move

// Writes how many bytes there are, the family, and the place, and answers the number. A refusal leaves the first two.
fn tell_move(o: Result<Moved, Refusal>, moved: &mut [u64], place: &mut [u64]) -> u64
    requires { length moved.old ≡ 2 }
    ensures value { result ≡ number_by (check_moved o) }
    ensures moved_after { moved.new ≡ moved_words o moved.old }
    ensures place_after { place.new ≡ place_word (check_moved o) place.old }
{
    write_moved(o, moved);
    answer(o.map(|_| ()), place)
}

fn write_moved(o: Result<Moved, Refusal>, moved: &mut [u64])
    requires { length moved.old ≡ 2 }
    ensures { moved.new ≡ moved_words o moved.old }
{
    if let Ok(m) = o {
        moved[0] = m.bytes as u64;
        moved[1] = u64::from(m.family);
    }
}

// A sheet of version 1 with a family, at the front of `out`. Two words: its bytes, and the family; the place of a refusal is one. A refusal leaves all but that.
#[tactic(auto, unfolding(crate::specs::Writing::move_up_words))]
pub fn xangoravit_move_up(
    bytes: &[u8],
    family: u32,
    out: &mut [u8],
    moved: &mut [u64],
    place: &mut [u64],
) -> u64
    ensures { UpCall bytes.now family out.old moved.old place.old
        result moved.new place.new out.new }
{
    if !due(moved.len(), 2, place.len()) {
        return answer(up_check(bytes, out.len()).and(Err(Refusal::Length)), place);
    }
    tell_move(move_up(bytes, family, out), moved, place)
}

// A sheet of version 2 without its family, at the front of `out`; the family is the second word. A refusal leaves all but the place.
#[tactic(auto, unfolding(crate::specs::Writing::move_down_words))]
pub fn xangoravit_move_down(
    bytes: &[u8],
    out: &mut [u8],
    moved: &mut [u64],
    place: &mut [u64],
) -> u64
    ensures { DownCall bytes.now out.old moved.old place.old
        result moved.new place.new out.new }
{
    if !due(moved.len(), 2, place.len()) {
        return answer(
            down_check(bytes, out.len()).and(Err(Refusal::Length)),
            place,
        );
    }
    tell_move(move_down(bytes, out), moved, place)
}
