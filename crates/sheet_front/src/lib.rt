// What stands in front of a training sheet's body: the version, the length of all that follows it, and in version 2 a family.
#![tactic(auto)]

ghost use Rattle.std.specs.Prelude.{◌≡◌, ◌+◌, ◌^◌, ◌≤◌, ◌<◌, length};
ghost use Rattle.arrays.specs.Part.{put};
ghost use Rattle.sheet_front.specs.Front.{version_of, body_at, front_bytes, front_of};

use big_endian::write_number;

// With the family, which version 2 alone has.
#[derive(Clone, Copy)]
pub enum Version {
    One,
    Two(u32),
}

// Where the body of a sheet begins.
pub fn body_at(b: &[u8]) -> usize
    requires { 1 ≤ length b.now }
    ensures { result ≡ body_at (version_of b.now) }
{
    if b[0] == 2 { 9 } else { 5 }
}

pub fn front_bytes(v: Version) -> usize
    ensures { result ≡ front_bytes v }
{
    match v {
        Version::One => 5,
        Version::Two(_) => 9,
    }
}

// The front of a body of k bytes.
pub fn write_front(v: Version, k: usize, out: &mut [u8])
    requires v_in_bounds { front_bytes v ≤ length out.old }
    requires k_bound { k + 4 < 2 ^ 64 }
    ensures { out.new ≡ put out.old 0 (front_of v k) }
{
    match v {
        Version::One => {
            out[0] = 1;
            write_number(k as u64, 4, out, 1);
        }
        Version::Two(family) => {
            out[0] = 2;
            write_number(k as u64 + 4, 4, out, 1);
            write_number(family as u64, 4, out, 5);
        }
    }
}
