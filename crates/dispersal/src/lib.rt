// Energy dispersal (EN 300 744, clause 4.3.1): bytes in groups of eight packets are combined with the outputs of a register.

#![tactic(auto)]

ghost use Rattle.std.specs.Prelude.{◌≡◌, [], ◌∷◌};
ghost use Rattle.dispersal.specs.EnergyDispersal.{energy_dispersal, SendsDispersed};

pub mod energy_dispersal;
mod noise;
mod register;
mod side;

pub use energy_dispersal::EnergyDispersal;

// A new stage sends byte t combined with what belongs to place t mod 1504.
pub fn sends_dispersed()
    ensures { SendsDispersed }
{}

pub fn vectors()
    ensures { energy_dispersal.sends (0x47 ∷ 0x00 ∷ 0x00 ∷ 0x00 ∷ 0x00 ∷ []) ≡ 0xB8 ∷ 0x03 ∷ 0xF6 ∷ 0x08 ∷ 0x34 ∷ [] }
{}
