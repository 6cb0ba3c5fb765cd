// How a refusal is told where a program prints it.
ghost use Rattle.std.specs.Prelude.{Some};
ghost use Rattle.refusal.specs.Words.{refusal_words};

use super::Refusal;
use std::fmt;

impl fmt::Display for Refusal {
    ghost output = { λ refusal. Some (refusal_words refusal) };

    fn fmt<W: fmt::Write>(&self, f: &mut fmt::Formatter<W>) -> fmt::Result {
        let number = self.number();
        write!(f, "refused {number}")
    }
}
