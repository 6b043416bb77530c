// Stored answers of fits and of their designs tried and compared bit for bit, as crate `replay_parts` does it with the others.
#![tactic(auto)]

pub mod designs;
pub mod fits;
