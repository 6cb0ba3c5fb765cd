// The register that energy dispersal runs (EN 300 744, clause 4.3.1): fifteen positions, position 1 in the lowest bit.
ghost use Rattle.std.specs.Prelude.{◌≡◌, ◌^◌, ◌<◌};
ghost use Rattle.dispersal.specs.Noise.{loaded, outputs, run};

#[derive(Clone, Copy)]
pub struct Register {
    bits: u16,
    ghost fifteen: { bits < 2 ^ 15 },
}

impl Register {
    // 100101010000000, from position 1 on.
    pub(crate) fn loaded() -> Register
        ensures { result.bits ≡ loaded }
    {
        Register {
            bits: 0b000_0000_1010_1001,
        }
    }

    // The next eight outputs, the first one highest.
    pub(crate) fn outputs(self) -> u8
        ensures { result ≡ outputs 8 0 self.bits }
    {
        (((self.bits >> 7) ^ (self.bits >> 6)) & 0xff) as u8
    }

    // The register eight outputs on.
    pub(crate) fn run_on(self) -> Register
        ensures { result.bits ≡ run 8 self.bits }
    {
        Register {
            bits: ((self.bits & 0x7f) << 8) + u16::from(self.outputs()),
        }
    }
}
