// The constellation (EN 300 744, clause 4.6.2.5): how many bits a cell word has.
ghost use Rattle.std.specs.Prelude.{◌≡◌, ◌≤◌, Some};
ghost use Rattle.settings.specs.Constellation.{constellation_read, constellation_code, word_bits, constellation_name};

use refusal::Refusal;
use std::fmt;

#[derive(Clone, Copy, PartialEq, Eq, Debug)]
pub enum Constellation {
    Qpsk = 0,
    Qam16 = 1,
    Qam64 = 2,
}

// A table of its own, a code beside its value: nothing is written over all four.
impl TryFrom<u8> for Constellation {
    type Error = Refusal;

    ghost try_from_gives = { λ code r. r ≡ constellation_read code };

    fn try_from(code: u8) -> Result<Constellation, Refusal> {
        match code {
            0 => Ok(Constellation::Qpsk),
            1 => Ok(Constellation::Qam16),
            2 => Ok(Constellation::Qam64),
            _ => Err(Refusal::UnknownConstellation),
        }
    }
}

impl Constellation {
    pub fn code(self) -> u8
        ensures { result ≡ constellation_code self }
    {
        self as u8
    }

    // The bits in a cell word.
    pub fn word_bits(self) -> u32
        ensures value { result ≡ word_bits self }
        ensures bound { (2 ≤ result) × (result ≤ 6) }
    {
        match self {
            Constellation::Qpsk => 2,
            Constellation::Qam16 => 4,
            Constellation::Qam64 => 6,
        }
    }
}

impl fmt::Display for Constellation {
    ghost output = { λ constellation. Some (constellation_name constellation) };

    fn fmt<W: fmt::Write>(&self, f: &mut fmt::Formatter<W>) -> fmt::Result {
        f.write_str(match self {
            Constellation::Qpsk => "QPSK",
            Constellation::Qam16 => "16-QAM",
            Constellation::Qam64 => "64-QAM",
        })
    }
}
