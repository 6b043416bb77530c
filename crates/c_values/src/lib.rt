// Plain values and the settings as words, for the calls over words, and back.
#![tactic(auto)]

ghost use Rattle.std.specs.Prelude.{◌≡◌, ◌+◌, ◌≤◌, length};
ghost use Rattle.std.proofs.lemmas.List.Edits.{sets};
ghost use Rattle.c_values.specs.Values.{truth_word, floats_from, floats_words};
ghost use Rattle.c_values.specs.Settings.{settings-words, settings_from, settings_words};

use numbers::bits::{bits_of, of_bits};
use settings::Settings;

// Three floats whose words stand in a row.
#[derive(Clone, Copy)]
pub struct Floats(pub f64, pub f64, pub f64);

// Back, every word but 0 is true.
pub fn truth_word(b: bool) -> u64
    ensures { result ≡ truth_word b }
{
    if b { 1 } else { 0 }
}

pub fn floats_at(w: &[u64], i: usize) -> Floats
    requires { i + 3 ≤ length w.now }
    ensures { result ≡ floats_from w.now i }
{
    Floats(of_bits(w[i]), of_bits(w[i + 1]), of_bits(w[i + 2]))
}

// The bits of three floats, in a row; those of a NaN are its one pattern.
pub fn write_floats(f: Floats, out: &mut [u64], i: usize)
    requires { i + 3 ≤ length out.old }
    ensures { out.new ≡ sets out.old i (floats_words f) }
{
    out[i] = bits_of(f.0);
    out[i + 1] = bits_of(f.1);
    out[i + 2] = bits_of(f.2);
}

// ---- the settings, in the words that specs/Settings.antt names

pub const SETTINGS_WORDS: usize = 8;

// The settings as the words say them. Nothing is tested here: `settings::allowed` does that.
pub fn settings_from(w: &[u64]) -> Settings
    requires { length w.now ≡ settings-words }
    ensures { result ≡ settings_from w.now }
{
    let normalise = w[6] != 0;
    let lazy = w[7] != 0;
    let f = floats_at(w, 0);
    Settings {
        alpha: f.0,
        l1_ratio: f.1,
        tol: f.2,
        max_iter: w[3],
        panel_rows: w[4] as usize,
        panel_cols: w[5] as usize,
        normalise,
        lazy,
    }
}

// The words that `settings_from` reads back.
pub fn write_settings(st: Settings, out: &mut [u64])
    requires { length out.old ≡ settings-words }
    ensures { out.new ≡ settings_words st }
{
    write_floats(Floats(st.alpha, st.l1_ratio, st.tol), out, 0);
    out[3] = st.max_iter;
    out[4] = st.panel_rows as u64;
    out[5] = st.panel_cols as u64;
    out[6] = truth_word(st.normalise);
    out[7] = truth_word(st.lazy);
}
