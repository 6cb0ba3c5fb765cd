// The numbers by which a stage of words is held.
ghost use Rattle.std.specs.Prelude.{◌≡◌, ◌^◌};
ghost use Rattle.settings.specs.Constellation.{word_bits};

use settings::Constellation;

// How many words of v bits there are.
pub(crate) fn limit(constellation: Constellation) -> u16
    ensures { result ≡ 2 ^ word_bits constellation }
{
    1 << constellation.word_bits()
}
