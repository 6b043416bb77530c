// What the calls for C and Rust say of a training sheet in words: the number and the place of a refusal, and a header.
#![tactic(auto)]

ghost use Rattle.std.specs.Prelude.{◌≡◌, ◌&&◌, eqb, length};
ghost use Rattle.sheet_words.specs.Words.{header-words, header_words, number_by, place_by, number_in, header_in, place_word, place_words, unread};

use c_values::{SETTINGS_WORDS, write_settings};
use refusal::{Refusal, number, place};
use sheet_header::Header;

// ---- a refusal, or none

pub fn number_by(c: Result<(), Refusal>) -> u64
    ensures { result ≡ number_by c }
{
    match c {
        Ok(()) => 0,
        Err(r) => number(r),
    }
}

fn place_by(c: Result<(), Refusal>) -> u64
    ensures { result ≡ place_by c }
{
    match c {
        Ok(()) => 0,
        Err(r) => place(r) as u64,
    }
}

// A slice of the wrong length stays as it was.
pub fn write_place(c: Result<(), Refusal>, out: &mut [u64])
    ensures { out.new ≡ place_word c out.old }
{
    if let [word] = out {
        *word = place_by(c);
    }
}

// Writes the place, and answers the number.
pub fn answer(c: Result<(), Refusal>, place: &mut [u64]) -> u64
    ensures value { result ≡ number_by c }
    ensures place_after { place.new ≡ place_word c place.old }
{
    write_place(c, place);
    number_by(c)
}

// Whether a slice has as many words as it should, and the place its one.
pub fn due(words: usize, number: usize, place: usize) -> bool
    ensures { result ≡ (eqb words number && eqb place 1) }
{
    words == number && place == 1
}

// ---- of a reader

// n, p and the settings.
pub const HEADER_WORDS: usize = 2 + SETTINGS_WORDS;

pub fn number_in(o: Result<Header, Refusal>) -> u64
    ensures { result ≡ number_in o }
{
    number_by(o.map(|_| ()))
}

pub fn answer_read(o: Result<Header, Refusal>, place: &mut [u64]) -> u64
    ensures value { result ≡ number_in o }
    ensures place_after { place.new ≡ place_words o place.old }
{
    answer(o.map(|_| ()), place)
}

fn write_words(h: Header, out: &mut [u64])
    requires { length out.old ≡ header-words }
    ensures { out.new ≡ header_words h }
{
    out[0] = h.n as u64;
    out[1] = h.p as u64;
    write_settings(h.settings, &mut out[2..]);
}

// A refusal leaves the words as they were.
pub fn write_header(o: Result<Header, Refusal>, out: &mut [u64])
    requires { length out.old ≡ header-words }
    ensures { out.new ≡ header_in o out.old }
{
    if let Ok(h) = o {
        write_words(h, out);
    }
}

// Writes header and place, and answers the number.
pub fn tell(o: Result<Header, Refusal>, header: &mut [u64], place: &mut [u64]) -> u64
    requires { length header.old ≡ header-words }
    ensures value { result ≡ number_in o }
    ensures header_after { header.new ≡ header_in o header.old }
    ensures place_after { place.new ≡ place_words o place.old }
{
    write_header(o, header);
    answer_read(o, place)
}

// What is answered where the words have the wrong number: what can be read is refused with 2.
pub fn unheld(o: Result<Header, Refusal>) -> Result<Header, Refusal>
    ensures { result ≡ unread o }
{
    o.and(Err(Refusal::Length))
}
