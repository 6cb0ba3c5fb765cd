// TPS blocks (EN 300 744, clause 4.6.2), by which a receiver learns the settings of a broadcast.

#![tactic(auto)]

pub mod block;
mod field;
pub mod laws;
mod protection;

pub use block::write_block;

#[cfg(test)]
mod tests;
