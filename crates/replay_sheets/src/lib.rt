// Stored sheets fitted, and their texts compared byte for byte, as crate `replay_parts` does it with other stored answers.
#![tactic(auto)]

pub mod sheets;
