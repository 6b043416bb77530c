// What arrays.rs does with a matrix, which is by rows: products with a vector.
#![tactic(auto)]

pub mod products;
