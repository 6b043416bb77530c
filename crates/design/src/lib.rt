// What a start makes of matrix and targets: statistics, the stored design, the centred targets.
#![tactic(auto)]

pub mod eager;
pub mod statistics;
