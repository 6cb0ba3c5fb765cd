// The address sequence H of the symbol interleaver (EN 300 744, clause 4.3.4.2).
// In: the mode. Out: H(0) to H(N − 1), each number below N once.

#![tactic(auto)]

pub mod addresses;
mod generator;
pub mod laws;
mod row;

pub use addresses::Addresses;
