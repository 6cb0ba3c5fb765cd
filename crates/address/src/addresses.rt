// H of one mode, worked out once and read at every symbol.
ghost use Rattle.std.specs.Prelude.{◌≡◌, take};
ghost use Rattle.address.specs.Address.{addresses_of};
ghost use Rattle.settings.specs.Mode.{symbol_cells};

use crate::generator::Generator;
use settings::Mode;

#[derive(Drop)]
pub struct Addresses {
    mode: Mode,
    // The first N places hold H; a vector would keep N a second time, beside the mode.
    table: [u16; 6048],
    ghost filled: { take (symbol_cells mode) table ≡ addresses_of mode },
}

impl Addresses {
    pub fn new(mode: Mode) -> Addresses
        ensures { result.mode ≡ mode }
    {
        let mut table = [0; 6048];
        for (q, at) in Generator::new(mode).enumerate() {
            table[q] = at;
        }
        Addresses { mode, table }
    }

    // H(0), H(1), up to H(N − 1).
    pub fn list(&self) -> &[u16]
        ensures { result.now ≡ addresses_of self.now.mode }
    {
        &self.table[..self.mode.symbol_cells() as usize]
    }
}
