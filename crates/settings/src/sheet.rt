// The sheet of a settings record: what the settings give a crew to plan with.
ghost use Rattle.std.specs.Prelude.{◌≡◌};
ghost use Rattle.settings.specs.Sheet.{sheet_of};

use super::Settings;
use refusal::Refusal;

#[derive(Clone, Copy)]
pub struct Sheet {
    // In a super-frame.
    pub packets: u32,
    pub cells: u32,
    // Of the standard coder, with no cell missing.
    pub hold: u32,
}

impl TryFrom<&[u8]> for Sheet {
    type Error = Refusal;

    ghost try_from_gives = { λ bytes r. r ≡ sheet_of bytes.now };

    fn try_from(bytes: &[u8]) -> Result<Sheet, Refusal> {
        let settings = Settings::try_from(bytes)?;
        Ok(Sheet {
            packets: settings.packets(),
            cells: settings.cells(),
            hold: settings.hold(0),
        })
    }
}
