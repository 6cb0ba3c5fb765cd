// The outer stages (EN 300 744, clause 4.3.2): outer coder, outer interleaver, and the serializer that hands bits on.

#![tactic(auto)]

ghost use Rattle.std.specs.Prelude.{◌≡◌, [], ◌∷◌};
ghost use Rattle.outer.specs.Delays.{Leaves, LeavingVectors};
ghost use Rattle.outer.specs.Protection.{SendsCodewords, HearsCodewords};
ghost use Rattle.outer.specs.Serializer.{serializer as serializer_model};

mod bank;
mod bits;
mod branch;
mod due;
mod octet;
pub mod outer_coder;
pub mod outer_interleaver;
pub mod serializer;

pub use outer_coder::OuterCoder;
pub use outer_interleaver::OuterInterleaver;
pub use serializer::Serializer;

// Every 204 bytes sent are a codeword whose first 188 are the packet, and bytes received are held to that.
pub fn packets_are_codewords()
    ensures sends { SendsCodewords }
    ensures hears { HearsCodewords }
{}

// Byte t leaves as byte t + 204 × (t mod 12), and places not yet reached hold 0.
pub fn bytes_leave_later()
    ensures { Leaves }
{}

pub fn interleaver_vectors()
    ensures { LeavingVectors }
{}

pub fn serializer_vectors()
    ensures { serializer_model.sends (0x47 ∷ 0x1F ∷ []) ≡ 0 ∷ 1 ∷ 0 ∷ 0 ∷ 0 ∷ 1 ∷ 1 ∷ 1 ∷ 0 ∷ 0 ∷ 0 ∷ 1 ∷ 1 ∷ 1 ∷ 1 ∷ 1 ∷ [] }
{}
