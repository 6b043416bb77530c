// Whole numbers and floats in bytes, the highest byte first: read and written.
#![tactic(auto)]

ghost use Rattle.std.specs.Prelude.{◌≡◌, ◌+◌, ◌^◌, ◌≤◌, ◌<◌, length};
ghost use Rattle.arrays.specs.Part.{put};
ghost use Rattle.big_endian.specs.Bytes.{big_endian, two_bytes, float_at, bytes_of, float_bytes};

use numbers::bits::{bits_of, of_bits};

// ---- read

// The number in k bytes from `at`.
pub fn big_endian(b: &[u8], at: usize, k: usize) -> u64
    requires k_in_bounds { at + k ≤ length b.now }
    requires k_bound { k ≤ 8 }
    ensures { (result ≡ big_endian b.now at k) × (result < 256 ^ k) }
{
    let mut v = 0;
    for byte in &b[at..at + k] {
        v = v * 256 + u64::from(*byte);
    }
    v
}

pub fn two_bytes(b: &[u8], at: usize) -> usize
    requires { at + 2 ≤ length b.now }
    ensures { (result ≡ two_bytes b.now at) × (result < 65536) }
{
    usize::from(u16::from_be_bytes([b[at], b[at + 1]]))
}

pub fn float_at(b: &[u8], at: usize) -> f64
    requires { at + 8 ≤ length b.now }
    ensures { result ≡ float_at b.now at }
{
    of_bits(big_endian(b, at, 8))
}

// ---- written

// The k low bytes of v into those from `at`, from the last to the first.
pub fn write_number(v: u64, k: usize, out: &mut [u8], at: usize)
    requires { at + k ≤ length out.old }
    ensures { out.new ≡ put out.old at (bytes_of k v) }
{
    let mut left = v;
    for j in (0..k).rev() {
        out[at + j] = (left % 256) as u8;
        left /= 256;
    }
}

pub fn write_float(x: f64, out: &mut [u8], at: usize)
    requires { at + 8 ≤ length out.old }
    ensures { out.new ≡ put out.old at (float_bytes x) }
{
    write_number(bits_of(x), 8, out, at);
}

// Bytes as they stand.
pub fn write_bytes(b: &[u8], out: &mut [u8], at: usize)
    requires { at + length b.now ≤ length out.old }
    ensures { out.new ≡ put out.old at b.now }
{
    // The library's copy calls memmove, which the archive for C would need from outside.
    for (j, v) in b.iter().enumerate() {
        out[at + j] = *v;
    }
}
