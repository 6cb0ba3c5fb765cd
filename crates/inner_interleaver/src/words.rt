// Words of v bits (EN 300 744, clause 4.3.4.1): the bits of a block are dealt to v streams, each stream is interleaved, and word w has one bit of each.
// Input: 126 × v bits, or 126 words. Output: one word, or one bit.
ghost use Rattle.std.specs.Prelude.{◌≡◌, ℕ, ◌*◌, ◌/◌, ◌%◌, ◌^◌, ◌<◌, slice_index};
ghost use Rattle.settings.specs.Constellation.{word_bits};
ghost use Rattle.inner_interleaver.specs.Words.{lanes_of, word_at, bit_at};

use settings::Constellation;

// Words in a block.
pub const WORDS: usize = 126;

// Bits in a block.
pub(crate) fn block(constellation: Constellation) -> usize
    ensures { result ≡ 126 * word_bits constellation }
{
    WORDS * constellation.word_bits() as usize
}

// A stream, and how far ahead its interleaved bits come from.
#[derive(Clone, Copy)]
pub struct Lane {
    pub stream: usize,
    pub offset: usize,
}

// The interleavers of the streams, as the clause labels them.
const I0: Lane = Lane {
    stream: 0,
    offset: 0,
};

const I1: Lane = Lane {
    stream: 1,
    offset: 63,
};

const I2: Lane = Lane {
    stream: 2,
    offset: 105,
};

const I3: Lane = Lane {
    stream: 3,
    offset: 42,
};

const I4: Lane = Lane {
    stream: 4,
    offset: 21,
};

const I5: Lane = Lane {
    stream: 5,
    offset: 84,
};

const QPSK: [Lane; 2] = [I0, I1];

const QAM16: [Lane; 4] = [I0, I2, I1, I3];

const QAM64: [Lane; 6] = [I0, I2, I4, I1, I3, I5];

// The stream that takes each of v bits.
fn lanes(constellation: Constellation) -> &'static [Lane]
    ensures { result.now ≡ lanes_of constellation }
{
    match constellation {
        Constellation::Qpsk => &QPSK,
        Constellation::Qam16 => &QAM16,
        Constellation::Qam64 => &QAM64,
    }
}

// A place of a stream, counted round.
fn around(place: usize) -> usize
    requires { place < 252 }
    ensures { result ≡ place % 126 }
{
    if place < WORDS { place } else { place - WORDS }
}

// The round in which bit p is dealt, and its place among the v bits of the round. Each arm divides by a constant, which a processor does in a few steps, and by v in many.
fn dealt(constellation: Constellation, p: usize) -> (usize, usize)
    ensures round { result.0 ≡ p / word_bits constellation }
    ensures place { result.1 ≡ p % word_bits constellation }
{
    match constellation {
        Constellation::Qpsk => (p / 2, p % 2),
        Constellation::Qam16 => (p / 4, p % 4),
        Constellation::Qam64 => (p / 6, p % 6),
    }
}

// Word w of the block.
pub(crate) fn word(constellation: Constellation, bits: &[u8; 756], w: usize) -> u8
    requires place { w < 126 }
    requires bits { (k : ℕ) → slice_index bits.now k < 2 }
    ensures is { result ≡ word_at constellation bits.now w }
    ensures small { result < 2 ^ word_bits constellation }
{
    let width = constellation.word_bits() as usize;
    let mut word = 0;
    for (place, lane) in lanes(constellation).iter().enumerate() {
        let bit = bits[width * around(w + lane.offset) + place];
        word += bit << (width - 1 - lane.stream);
    }
    word
}

// Bit p of the block.
pub(crate) fn bit(constellation: Constellation, words: &[u8; 126], p: usize) -> u8
    requires { p < 126 * word_bits constellation }
    ensures { result ≡ bit_at constellation words.now p }
{
    let width = constellation.word_bits() as usize;
    let (round, place) = dealt(constellation, p);
    let lane = lanes(constellation)[place];
    let word = words[around(round + WORDS - lane.offset)];
    (word >> (width - 1 - lane.stream)) & 1
}
