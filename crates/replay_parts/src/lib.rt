// Stored answers tried and compared bit for bit: a function for each kind of record, which is given the words of its answer and, as numbers, its problem.
#![tactic(auto)]

pub mod functions;
pub mod predictions;
pub mod solver;
