// Even and odd symbols; a frame's first symbol is even.
ghost use Rattle.std.specs.Prelude.{◌≡◌};
ghost use Rattle.permute.specs.Parity.{parity_read, opposite};

use refusal::Refusal;

#[derive(Clone, Copy, PartialEq, Eq, Debug)]
pub enum Parity {
    Even,
    Odd,
}

impl TryFrom<u8> for Parity {
    type Error = Refusal;

    ghost try_from_gives = { λ code r. r ≡ parity_read code };

    fn try_from(code: u8) -> Result<Parity, Refusal> {
        match code {
            0 => Ok(Parity::Even),
            1 => Ok(Parity::Odd),
            _ => Err(Refusal::FrameOrParity),
        }
    }
}

impl Parity {
    // The parity of the next symbol; and permuting by it undoes permuting by this one.
    pub fn other(self) -> Parity
        ensures { result ≡ opposite self }
    {
        match self {
            Parity::Even => Parity::Odd,
            Parity::Odd => Parity::Even,
        }
    }
}
