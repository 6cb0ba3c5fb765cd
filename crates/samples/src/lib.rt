// Samples for comparison: settings, packets that a second implementation makes alike, digests, what EN 300 744 prints, and how a check is told.

#![tactic(auto)]

pub mod annex_c;
pub mod digest;
pub mod expected;
pub mod generator;
pub mod naming;
pub mod returns;
pub mod sample;
pub mod table_16;
pub mod tally;

pub use digest::Digest;
pub use generator::Generator;
pub use returns::Returns;
pub use tally::{Check, Tally};
