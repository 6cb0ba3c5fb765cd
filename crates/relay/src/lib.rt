// What the programs share: packets go over a line and cells into a receiver, and what comes out goes into sinks.

#![tactic(auto)]

pub mod ears;
pub mod sending;
pub mod sink;
pub mod stop;

pub use ears::Ears;
pub use sending::{close, send};
pub use sink::Sink;
pub use stop::Stop;
