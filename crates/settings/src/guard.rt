// The guard interval (EN 300 744, clause 4.6.2.8), as a part of the symbol's useful length.
ghost use Rattle.std.specs.Prelude.{◌≡◌};
ghost use Rattle.settings.specs.Guard.{guard_read, guard_code};

use refusal::Refusal;

#[derive(Clone, Copy, PartialEq, Eq, Debug)]
pub enum Guard {
    ThirtySecond = 0,
    Sixteenth = 1,
    Eighth = 2,
    Quarter = 3,
}

// A table of its own, a code beside its value: nothing is written over all four.
impl TryFrom<u8> for Guard {
    type Error = Refusal;

    ghost try_from_gives = { λ code r. r ≡ guard_read code };

    fn try_from(code: u8) -> Result<Guard, Refusal> {
        match code {
            0 => Ok(Guard::ThirtySecond),
            1 => Ok(Guard::Sixteenth),
            2 => Ok(Guard::Eighth),
            3 => Ok(Guard::Quarter),
            _ => Err(Refusal::UnknownGuard),
        }
    }
}

impl Guard {
    pub fn code(self) -> u8
        ensures { result ≡ guard_code self }
    {
        self as u8
    }
}
