// The helpers of arrays.rs that the other modules call, over parts of one lent slice: sums, vectors, and the scan for values that are not finite.
#![tactic(auto)]

pub mod scan;
pub mod sums;
pub mod vectors;
