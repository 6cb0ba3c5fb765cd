// Inner interleaving (EN 300 744, clause 4.3.4): bits are interleaved into words of v bits, and words into symbols.

#![tactic(auto)]

ghost use Rattle.inner_interleaver.specs.Published.{BitsPublished, SymbolsPublished};
ghost use Rattle.inner_interleaver.specs.Vectors.{SingleBits};

use settings::{Constellation, Mode};

pub mod bit_interleaver;
mod limits;
mod side;
pub mod symbol_interleaver;
mod words;

// A new bit interleaver sends what the clause's formulas give.
pub fn bits_as_published(constellation: Constellation)
    ensures { BitsPublished constellation }
{}

// A new symbol interleaver puts each word where the clause says, in even and odd symbols.
pub fn symbols_as_published(mode: Mode, constellation: Constellation)
    ensures { SymbolsPublished mode constellation }
{}

// Blocks with one bit set.
pub fn single_bits()
    ensures { SingleBits }
{}
