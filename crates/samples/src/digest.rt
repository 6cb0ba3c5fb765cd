// FNV-1a with 64 bits, of units as they come.
ghost use Rattle.std.specs.Prelude.{◌≡◌, fold};
ghost use Rattle.samples.specs.Digest.{basis, mixed};

#[derive(Clone, Copy)]
pub struct Digest {
    pub value: u64,
}

impl Digest {
    pub fn new() -> Digest
        ensures { result.value ≡ basis }
    {
        Digest {
            value: 0xcbf2_9ce4_8422_2325,
        }
    }

    pub fn add(&mut self, units: &[u8])
        ensures { self.new.value ≡ fold mixed self.old.value units.now }
    {
        self.value = units.iter().fold(self.value, |value, unit| {
            (value ^ u64::from(*unit)).wrapping_mul(0x100_0000_01b3)
        });
    }
}
