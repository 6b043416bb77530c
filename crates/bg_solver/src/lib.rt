// The biconjugate gradient solver of bg_solver.rs: what its two users, lone_solver and inner_solver, share.
#![tactic(auto)]

pub mod shared;
