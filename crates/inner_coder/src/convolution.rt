// The convolutional code (EN 300 744, clause 4.3.3): outputs X and Y of a register of seven bits, the input highest and six earlier bits below it.
ghost use Rattle.std.specs.Prelude.{◌≡◌, ◌<◌};
ghost use Rattle.inner_coder.specs.Convolution.{tapped, x_of, y_of, first_of, start, walked};
ghost use Rattle.inner_coder.specs.Puncturing.{pattern_of, period, sent_at};

use super::puncturing::{Sent, pattern};
use settings::Rate;

const X_TAPS: u8 = 0o171;

const Y_TAPS: u8 = 0o133;

// One where an odd number of the tapped bits are ones.
fn output(register: u8, taps: u8) -> u8
    ensures { result ≡ tapped taps register }
{
    ((register & taps).count_ones() % 2) as u8
}

pub(crate) fn output_x(register: u8) -> u8
    ensures { result ≡ x_of register }
{
    output(register, X_TAPS)
}

pub(crate) fn output_y(register: u8) -> u8
    ensures { result ≡ y_of register }
{
    output(register, Y_TAPS)
}

// The first unit that is sent of a register.
pub(crate) fn first_unit(sent: Sent, register: u8) -> u8
    ensures { result ≡ first_of sent register }
{
    match sent {
        Sent::Both | Sent::X => output_x(register),
        Sent::Y => output_y(register),
    }
}

// A walk along the code of a rate: the place in the puncturing period, and the register.
#[derive(Clone, Copy)]
pub struct Walk {
    pub rate: Rate,
    // The rate's own: to choose it anew for each bit costs a tenth of all sending.
    pub pattern: &'static [Sent],
    pub phase: usize,
    pub register: u8,
    ghost own: { pattern.now ≡ pattern_of rate },
    ghost within: { phase < period rate },
    ghost seven: { register < 128 },
}

impl Walk {
    ghost use Rattle.inner_coder.specs.Walks.{walk_of};

    pub(crate) fn new(rate: Rate) -> Walk
        ensures rate { result.rate ≡ rate }
        ensures start { walk_of result ≡ start }
    {
        Walk {
            rate,
            pattern: pattern(rate),
            phase: 0,
            register: 0,
        }
    }

    // What is sent for the next bit.
    pub(crate) fn sent(&self) -> Sent
        ensures { result ≡ sent_at self.now.rate self.now.phase }
    {
        self.pattern[self.phase]
    }

    // Takes in one bit. The period runs on over packets and all else that the bits belong to.
    pub(crate) fn shift(&mut self, bit: u8)
        requires { bit < 2 }
        ensures rate { self.new.rate ≡ self.old.rate }
        ensures walked { walk_of self.new ≡ walked self.old.rate (walk_of self.old) bit }
    {
        let next = self.phase + 1;
        self.phase = if next == self.pattern.len() { 0 } else { next };
        self.register = 64 * bit + self.register / 2;
    }
}
