// The settings record, ten bytes: length 8 in two bytes, version 1, mode, constellation, rate, guard, identifier flag, identifier in two bytes.
// Numbers of two bytes have the high byte first. Without an identifier, flag and identifier are 0.
ghost use Rattle.std.specs.Prelude.{◌≡◌, [], ◌∷◌, slice_index};
ghost use Rattle.settings.specs.Codes.{settings_codes};
ghost use Rattle.settings.specs.Record.{identifier_part, record_of, record_read, settings_from, RecordsStand};

use super::Settings;
use super::codes::Codes;
use refusal::Refusal;

impl TryFrom<&[u8]> for Codes {
    type Error = Refusal;

    ghost try_from_gives = { λ bytes r. r ≡ record_read bytes.now };

    fn try_from(bytes: &[u8]) -> Result<Codes, Refusal> {
        let &[0, 8, 1, mode, constellation, rate, guard, flag, high, low] = bytes else {
            return Err(Refusal::RecordMalformed);
        };
        let identifier = match (flag, u16::from_be_bytes([high, low])) {
            (0, 0) => None,
            (1, number) => Some(number),
            _ => return Err(Refusal::RecordMalformed),
        };
        Ok(Codes {
            mode,
            constellation,
            rate,
            guard,
            identifier,
        })
    }
}

// The flag, and the identifier's two bytes.
fn identifier_part(identifier: Option<u16>) -> [u8; 3]
    ensures value { result ≡ identifier_part identifier }
    ensures places { result ≡ slice_index result 0 ∷ slice_index result 1 ∷ slice_index result 2 ∷ [] }
{
    match identifier {
        None => [0, 0, 0],
        Some(number) => {
            let [high, low] = number.to_be_bytes();
            [1, high, low]
        }
    }
}

// The law that `to_record` states; it runs nothing.
fn records_stand()
    ensures { RecordsStand }
{}

impl TryFrom<&[u8]> for Settings {
    type Error = Refusal;

    ghost try_from_gives = { λ bytes r. r ≡ settings_from bytes.now };

    fn try_from(bytes: &[u8]) -> Result<Settings, Refusal> {
        let codes = Codes::try_from(bytes)?;
        Settings::try_from(&codes)
    }
}

impl Settings {
    // A method and no `From`: the law stands on it as a clause of its own.
    pub fn to_record(&self) -> [u8; 10]
        ensures value { result ≡ record_of (settings_codes self.now) }
        ensures law { RecordsStand }
    {
        records_stand();
        let Codes {
            mode,
            constellation,
            rate,
            guard,
            identifier,
        } = self.codes();
        let [flag, high, low] = identifier_part(identifier);
        [0, 8, 1, mode, constellation, rate, guard, flag, high, low]
    }
}
