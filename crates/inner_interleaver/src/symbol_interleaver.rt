// The symbol interleaver: the addresses of its mode, and two sides.
ghost use Rattle.std.specs.Prelude.{◌≡◌};

use super::side::Side;
use address::Addresses;

pub mod rule;

#[derive(Drop)]
pub struct SymbolInterleaver {
    addresses: Addresses,
    out: Side,
    back: Side,
    ghost out_mode: { out.mode ≡ addresses.mode },
    ghost back_mode: { back.mode ≡ out.mode },
    ghost one_constellation: { back.constellation ≡ out.constellation },
}
