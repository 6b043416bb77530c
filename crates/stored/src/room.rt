// Buffers as long as the longest record, and as the longest scratch.
ghost use Rattle.std.specs.Prelude.{◌≡◌, length};

pub fn word_room() -> [u64; 16400]
    ensures { 16400 ≡ length result }
{
    [0; 16400]
}

// Not of zeros, so that one that a call fails to write is seen.
pub fn number_room() -> [f64; 20480]
    ensures { 20480 ≡ length result }
{
    [7.5; 20480]
}
