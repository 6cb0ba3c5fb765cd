// Thirty settings by number: mode, constellation and rate count through all of them; guard and identifier vary along.
ghost use Rattle.std.specs.Prelude.{◌≡◌};
ghost use Rattle.samples.specs.Sample.{codes_of};

use settings::Codes;

pub fn codes(number: u8) -> Codes
    ensures { result ≡ codes_of number }
{
    let identifier = if number % 2 == 0 {
        None
    } else {
        Some(12_345 + 199 * u16::from(number))
    };
    Codes {
        mode: number / 15,
        constellation: number / 5 % 3,
        rate: number % 5,
        guard: number % 4,
        identifier,
    }
}
