// What differs from mode to mode in the generator of H (EN 300 744, clause 4.3.4.2): a row for each.
ghost use Rattle.std.specs.Prelude.{◌≡◌};
ghost use Rattle.address.specs.Address.{row_of};

use settings::Mode;

#[derive(Clone, Copy)]
pub(crate) struct Row {
    // How many bits R' has.
    pub(crate) bits: u32,
    // The bits of R' whose sum modulo 2 comes in at its top.
    pub(crate) taps: &'static [u8],
    // The place in R of each bit of R', bit 0 first: tables 3a and 3b from right to left.
    pub(crate) wires: &'static [u8],
}

impl Row {
    pub(crate) fn of(mode: Mode) -> Row
        ensures bits { result.bits ≡ (row_of mode).bits }
        ensures taps { result.taps.now ≡ (row_of mode).taps }
        ensures wires { result.wires.now ≡ (row_of mode).wires }
    {
        match mode {
            Mode::TwoK => Row {
                bits: 10,
                taps: &[0, 3],
                wires: &[4, 3, 9, 6, 2, 8, 1, 5, 7, 0],
            },
            Mode::EightK => Row {
                bits: 12,
                taps: &[0, 1, 4, 6],
                wires: &[7, 1, 4, 2, 9, 6, 8, 10, 0, 3, 11, 5],
            },
        }
    }
}
