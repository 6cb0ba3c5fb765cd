// The bit interleaver's two sides: each gathers a block, and works out what waits of it unit by unit.
// No type stands over both: one has bits in and words out, and the other the reverse, each from places of its own.
ghost use Rattle.std.specs.Prelude.{ℕ, ◌*◌, ◌<◌, ◌≤◌, slice_index};
ghost use Rattle.settings.specs.Constellation.{word_bits};

use settings::Constellation;

mod gather;
pub mod rule;

#[derive(Drop)]
pub struct BitInterleaver {
    constellation: Constellation,
    // Arrays with a length beside: a whole block is read while none of the next is gathered, and the length of an `ArrayVec` would tell only one of both.
    // Sending: the first `have` bits are gathered, or the words of a whole block wait from the place `at` on.
    bits: [u8; 756],
    have: usize,
    at: usize,
    // Receiving: the first `got` words are gathered, or the bits of a whole block wait from the place `next` on.
    words: [u8; 126],
    got: usize,
    next: usize,
    ghost small: { (k : ℕ) → slice_index bits k < 2 },
    ghost short: { have < 126 * word_bits constellation },
    ghost few: { got < 126 },
    ghost inside: { at ≤ 126 },
}
