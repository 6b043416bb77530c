// An output to lend, marked, and how it must look afterwards.
ghost use Rattle.std.specs.Prelude.{◌≡◌, length};

// Which the bytes have that a call leaves alone.
const MARK: u8 = 0xa5;

// As much as 4,097 rows of one feature need.
pub const ROOM: usize = 82000;

pub fn room() -> [u8; ROOM]
    ensures { ROOM ≡ length result }
{
    [MARK; ROOM]
}

// Those behind the first n are as they were.
pub fn kept(out: &[u8], n: usize) -> bool {
    out.get(n..)
        .is_some_and(|rest| rest.iter().all(|b| *b == MARK))
}
