// The transmission mode (EN 300 744, clause 4.6.2.9): how many cells a symbol has.
ghost use Rattle.std.specs.Prelude.{◌≡◌, ◌≤◌, Some};
ghost use Rattle.settings.specs.Mode.{mode_read, mode_code, symbol_cells, mode_name};

use refusal::Refusal;
use std::fmt;

#[derive(Clone, Copy, PartialEq, Eq, Debug)]
pub enum Mode {
    TwoK = 0,
    EightK = 1,
}

// A table of its own, a code beside its value: nothing is written over all four.
impl TryFrom<u8> for Mode {
    type Error = Refusal;

    ghost try_from_gives = { λ code r. r ≡ mode_read code };

    fn try_from(code: u8) -> Result<Mode, Refusal> {
        match code {
            0 => Ok(Mode::TwoK),
            1 => Ok(Mode::EightK),
            _ => Err(Refusal::UnknownMode),
        }
    }
}

impl Mode {
    pub fn code(self) -> u8
        ensures { result ≡ mode_code self }
    {
        self as u8
    }

    // The cells of a symbol that carry data.
    pub fn symbol_cells(self) -> u32
        ensures value { result ≡ symbol_cells self }
        ensures bound { (1512 ≤ result) × (result ≤ 6048) }
    {
        match self {
            Mode::TwoK => 1512,
            Mode::EightK => 6048,
        }
    }
}

impl fmt::Display for Mode {
    ghost output = { λ mode. Some (mode_name mode) };

    fn fmt<W: fmt::Write>(&self, f: &mut fmt::Formatter<W>) -> fmt::Result {
        f.write_str(match self {
            Mode::TwoK => "2K",
            Mode::EightK => "8K",
        })
    }
}
