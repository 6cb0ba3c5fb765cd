// EN 300 744, annex C: which input bits stand in which carriers of an even symbol, 2K and 64-QAM.
ghost use Rattle.std.specs.Prelude.{◌≡◌, IfOk, string_bytes, slice_index};
ghost use Rattle.samples.specs.AnnexC.{cell_of, digit_of, number_of, numbers_of, listed};

use std::alloc::{AllocError, Global};

// A carrier, and the numbers of the input bits in its word, the highest first.
pub struct Printed {
    pub carrier: u16,
    pub bits: [u16; 6],
}

// Table C.1 but for its pilots, carriers 0, 12, 1692 and 1704.
pub const TABLE: [Printed; 24] = [
    Printed {
        carrier: 1,
        bits: [0, 381, 631, 256, 128, 509],
    },
    Printed {
        carrier: 2,
        bits: [4602, 4983, 5233, 4858, 4730, 5111],
    },
    Printed {
        carrier: 3,
        bits: [36, 417, 667, 292, 164, 545],
    },
    Printed {
        carrier: 4,
        bits: [4656, 5037, 5287, 4912, 4784, 5165],
    },
    Printed {
        carrier: 5,
        bits: [48, 429, 679, 304, 176, 557],
    },
    Printed {
        carrier: 6,
        bits: [2376, 2757, 3007, 2632, 2504, 2885],
    },
    Printed {
        carrier: 7,
        bits: [780, 1161, 1411, 1036, 908, 1289],
    },
    Printed {
        carrier: 8,
        bits: [6906, 7287, 7537, 7162, 7034, 7415],
    },
    Printed {
        carrier: 9,
        bits: [4590, 4971, 5221, 4846, 4718, 5099],
    },
    Printed {
        carrier: 10,
        bits: [5286, 4911, 5161, 4786, 4658, 5039],
    },
    Printed {
        carrier: 11,
        bits: [2364, 2745, 2995, 2620, 2492, 2873],
    },
    Printed {
        carrier: 13,
        bits: [4788, 5169, 4663, 5044, 4916, 4541],
    },
    Printed {
        carrier: 1691,
        bits: [4194, 3819, 4069, 4450, 4322, 3947],
    },
    Printed {
        carrier: 1693,
        bits: [7782, 8163, 7657, 8038, 7910, 8291],
    },
    Printed {
        carrier: 1694,
        bits: [6624, 6249, 6499, 6124, 6752, 6377],
    },
    Printed {
        carrier: 1695,
        bits: [3402, 3027, 3277, 3658, 3530, 3155],
    },
    Printed {
        carrier: 1696,
        bits: [546, 171, 421, 46, 674, 299],
    },
    Printed {
        carrier: 1697,
        bits: [8574, 8955, 8449, 8830, 8702, 8327],
    },
    Printed {
        carrier: 1698,
        bits: [8376, 8757, 9007, 8632, 8504, 8885],
    },
    Printed {
        carrier: 1699,
        bits: [1680, 2061, 1555, 1936, 1808, 2189],
    },
    Printed {
        carrier: 1700,
        bits: [7620, 8001, 8251, 7876, 7748, 8129],
    },
    Printed {
        carrier: 1701,
        bits: [5700, 5325, 5575, 5956, 5828, 5453],
    },
    Printed {
        carrier: 1702,
        bits: [8826, 8451, 8701, 8326, 8954, 8579],
    },
    Printed {
        carrier: 1703,
        bits: [8724, 8349, 8599, 8980, 8852, 8477],
    },
];

// The cell that a printed carrier has: from either end every twelfth carrier is a pilot, and the others carry data as far as they are printed.
pub fn cell(carrier: u16) -> u16
    ensures { result ≡ cell_of carrier }
{
    if carrier < 852 {
        (carrier - carrier / 12).saturating_sub(1)
    } else {
        let after = 1704u16.saturating_sub(carrier);
        1512 - (after - after / 12)
    }
}

// A binary digit of a number: digit 0 is the lowest.
pub fn digit(number: u16, place: u8) -> u8
    ensures { result ≡ digit_of number place }
{
    if place < 16 {
        ((number >> place) % 2) as u8
    } else {
        0
    }
}

fn word(cells: &[u8], at: usize) -> u8
    ensures { result ≡ slice_index cells.now at }
{
    cells.get(at).copied().unwrap_or(0)
}

// The number of an input bit that stands in a cell, from 14 symbols of 1512 cells whose input bits are the digits of their numbers, the highest first.
// By number and not by chunks, since a cell that is missing has digits too, which are 0.
fn told(cells: &[u8], cell: u16, place: u8) -> u16
    ensures { result ≡ number_of cells.now cell place 14 }
{
    let mut number = 0u16;
    for symbol in 0..14usize {
        let found = word(cells, 1512 * symbol + usize::from(cell));
        let last = u16::from(digit(u16::from(found), place));
        number = number.wrapping_mul(2).wrapping_add(last);
    }
    number
}

// The numbers of the six bits of a cell, the highest bit first.
pub fn bits(cells: &[u8], cell: u16) -> [u16; 6]
    ensures { result ≡ numbers_of cells.now cell }
{
    [5, 4, 3, 2, 1, 0].map(|place| told(cells, cell, place))
}

// Numbers of bits as the annex prints them.
pub fn list(heap: Global, bits: &[u16; 6]) -> Result<String, AllocError>
    ensures { IfOk result (λ text. string_bytes text ≡ listed bits.now) }
{
    let [a, b, c, d, e, f] = bits;
    format!(in heap; "{a}, {b}, {c}, {d}, {e}, {f}")
}
