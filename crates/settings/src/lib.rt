// The settings of a broadcast (EN 300 744, clause 4.6.2): five numbers at the edge, named values inside.
// Mode, constellation, rate and guard each read their codes by a `match` of their own, since nothing is written over all four.

#![tactic(auto)]

pub mod codes;
pub mod constellation;
pub mod guard;
pub mod hold;
pub mod mode;
pub mod rate;
pub mod record;
pub mod sheet;
pub mod super_frame;
#[cfg(test)]
mod tests;

pub use codes::Codes;
pub use constellation::Constellation;
pub use guard::Guard;
pub use mode::Mode;
pub use rate::Rate;
pub use sheet::Sheet;

#[derive(Clone, Copy, PartialEq, Eq, Debug)]
pub struct Settings {
    pub mode: Mode,
    pub constellation: Constellation,
    pub rate: Rate,
    pub guard: Guard,
    // The cell identifier (clause 4.6.2.10), where the network sends one.
    pub identifier: Option<u16>,
}
