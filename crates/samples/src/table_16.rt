// EN 300 744, table 16: packets per super-frame. A row for each rate, and in it the two modes for each constellation.
ghost use Rattle.std.specs.Prelude.{◌≡◌};
ghost use Rattle.samples.specs.Table16.{codes_at};

use settings::Codes;

pub const TABLE: [[u32; 6]; 5] = [
    [252, 1008, 504, 2016, 756, 3024],
    [336, 1344, 672, 2688, 1008, 4032],
    [378, 1512, 756, 3024, 1134, 4536],
    [420, 1680, 840, 3360, 1260, 5040],
    [441, 1764, 882, 3528, 1323, 5292],
];

// The settings of a row and a column, both from 0 on.
pub fn codes(row: u8, column: u8) -> Codes
    ensures { result ≡ codes_at row column }
{
    Codes {
        mode: column % 2,
        constellation: column / 2,
        rate: row,
        guard: 0,
        identifier: None,
    }
}
