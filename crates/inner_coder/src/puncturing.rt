// Puncturing (EN 300 744, clause 4.3.3, table 2): which outputs of the convolutional code are sent, for each bit of a period.
ghost use Rattle.std.specs.Prelude.{◌≡◌};
ghost use Rattle.inner_coder.specs.Puncturing.{pattern_of, all_of};

use settings::Rate;

// What is sent for one bit; of both outputs X goes first.
#[derive(Clone, Copy, PartialEq, Eq, Debug)]
pub enum Sent {
    Both,
    X,
    Y,
}

// What of a bit is still to be taken. An `Option<Sent>` says it too, and costs two fifths of all sending: a processor waits where two bytes are written apart and read as one.
#[derive(Clone, Copy, PartialEq, Eq, Debug)]
pub enum Left {
    Nothing,
    Both,
    X,
    Y,
}

// All of what is sent is left.
impl From<Sent> for Left {
    ghost from_gives = { λ sent left. left ≡ all_of sent };

    fn from(sent: Sent) -> Left {
        match sent {
            Sent::Both => Left::Both,
            Sent::X => Left::X,
            Sent::Y => Left::Y,
        }
    }
}

const HALF: [Sent; 1] = [Sent::Both];

const TWO_THIRDS: [Sent; 2] = [Sent::Both, Sent::Y];

const THREE_QUARTERS: [Sent; 3] = [Sent::Both, Sent::Y, Sent::X];

const FIVE_SIXTHS: [Sent; 5] = [Sent::Both, Sent::Y, Sent::X, Sent::Y, Sent::X];

const SEVEN_EIGHTHS: [Sent; 7] = [
    Sent::Both,
    Sent::Y,
    Sent::Y,
    Sent::Y,
    Sent::X,
    Sent::Y,
    Sent::X,
];

pub(crate) fn pattern(rate: Rate) -> &'static [Sent]
    ensures { result.now ≡ pattern_of rate }
{
    match rate {
        Rate::Half => &HALF,
        Rate::TwoThirds => &TWO_THIRDS,
        Rate::ThreeQuarters => &THREE_QUARTERS,
        Rate::FiveSixths => &FIVE_SIXTHS,
        Rate::SevenEighths => &SEVEN_EIGHTHS,
    }
}
