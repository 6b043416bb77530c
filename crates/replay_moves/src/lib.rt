// Sheets moved to the other version, and sheets written, tried and compared byte for byte, as crate `replay_parts` does it with other stored answers.
#![tactic(auto)]

pub mod moves;
pub mod outputs;
pub mod writings;
