// Settings as the outside gives them: the codes of EN 300 744, clause 4.6.2, known or not.
ghost use Rattle.std.specs.Prelude.{◌≡◌};
ghost use Rattle.settings.specs.Codes.{settings_read, settings_codes, CodesStand};

use super::Settings;
use super::constellation::Constellation;
use super::guard::Guard;
use super::mode::Mode;
use super::rate::Rate;
use refusal::Refusal;

#[derive(Clone, Copy, PartialEq, Eq, Debug)]
pub struct Codes {
    pub mode: u8,
    pub constellation: u8,
    pub rate: u8,
    pub guard: u8,
    pub identifier: Option<u16>,
}

// The law that `codes` states; it runs nothing.
fn codes_stand()
    ensures { CodesStand }
{}

// The first unknown code refuses: mode, constellation, rate, then guard.
impl TryFrom<&Codes> for Settings {
    type Error = Refusal;

    ghost try_from_gives = { λ codes r. r ≡ settings_read codes.now };

    fn try_from(codes: &Codes) -> Result<Settings, Refusal> {
        let mode = Mode::try_from(codes.mode)?;
        let constellation = Constellation::try_from(codes.constellation)?;
        let rate = Rate::try_from(codes.rate)?;
        let guard = Guard::try_from(codes.guard)?;
        Ok(Settings {
            mode,
            constellation,
            rate,
            guard,
            identifier: codes.identifier,
        })
    }
}

impl Settings {
    // A method and no `From`: the law stands on it as a clause of its own.
    pub fn codes(&self) -> Codes
        ensures value { result ≡ settings_codes self.now }
        ensures law { CodesStand }
    {
        codes_stand();
        Codes {
            mode: self.mode.code(),
            constellation: self.constellation.code(),
            rate: self.rate.code(),
            guard: self.guard.code(),
            identifier: self.identifier,
        }
    }
}
