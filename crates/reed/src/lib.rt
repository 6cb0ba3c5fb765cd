// The outer code (EN 300 744, clause 4.3.2): Reed–Solomon (204,188), sixteen parity bytes after every 188.

#![tactic(auto)]

ghost use Rattle.reed.specs.Code.{CodeHolds};

pub mod packet;
pub mod parity;
mod rows;
#[cfg(test)]
mod tests;

pub use packet::{is_codeword, protect};
pub use parity::Parity;

// Every message has one parity: with it, and with no other sixteen bytes, it is zero at the roots of g(x).
pub fn code_holds()
    ensures { CodeHolds }
{}
