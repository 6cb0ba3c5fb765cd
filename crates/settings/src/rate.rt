// The rate of the inner code (EN 300 744, clause 4.6.2.7): message bits for each bit sent.
ghost use Rattle.std.specs.Prelude.{◌≡◌, ◌≤◌, Some};
ghost use Rattle.settings.specs.Rate.{rate_read, rate_code, rate_over, rate_under, rate_name};

use refusal::Refusal;
use std::fmt;

#[derive(Clone, Copy, PartialEq, Eq, Debug)]
pub enum Rate {
    Half = 0,
    TwoThirds = 1,
    ThreeQuarters = 2,
    FiveSixths = 3,
    SevenEighths = 4,
}

// A table of its own, a code beside its value: nothing is written over all four.
impl TryFrom<u8> for Rate {
    type Error = Refusal;

    ghost try_from_gives = { λ code r. r ≡ rate_read code };

    fn try_from(code: u8) -> Result<Rate, Refusal> {
        match code {
            0 => Ok(Rate::Half),
            1 => Ok(Rate::TwoThirds),
            2 => Ok(Rate::ThreeQuarters),
            3 => Ok(Rate::FiveSixths),
            4 => Ok(Rate::SevenEighths),
            _ => Err(Refusal::UnknownRate),
        }
    }
}

impl Rate {
    pub fn code(self) -> u8
        ensures { result ≡ rate_code self }
    {
        self as u8
    }

    // The rate as a fraction: this many message bits ..
    pub fn numerator(self) -> u32
        ensures value { result ≡ rate_over self }
        ensures bound { result ≤ 7 }
    {
        match self {
            Rate::Half => 1,
            Rate::TwoThirds => 2,
            Rate::ThreeQuarters => 3,
            Rate::FiveSixths => 5,
            Rate::SevenEighths => 7,
        }
    }

    // .. for this many bits sent.
    pub fn denominator(self) -> u32
        ensures value { result ≡ rate_under self }
        ensures bound { (2 ≤ result) × (result ≤ 8) }
    {
        match self {
            Rate::Half => 2,
            Rate::TwoThirds => 3,
            Rate::ThreeQuarters => 4,
            Rate::FiveSixths => 6,
            Rate::SevenEighths => 8,
        }
    }
}

impl fmt::Display for Rate {
    ghost output = { λ rate. Some (rate_name rate) };

    fn fmt<W: fmt::Write>(&self, f: &mut fmt::Formatter<W>) -> fmt::Result {
        f.write_str(match self {
            Rate::Half => "1/2",
            Rate::TwoThirds => "2/3",
            Rate::ThreeQuarters => "3/4",
            Rate::FiveSixths => "5/6",
            Rate::SevenEighths => "7/8",
        })
    }
}
