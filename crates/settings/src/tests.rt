// Sheets of records by hand, and each refusal of a record in its order.
use super::Sheet;
use refusal::Refusal;

// Mode, constellation, rate and guard, each with a code that is none, and then a bad record of ten bytes: the numbers that refuse them.
const REFUSED: [([u8; 10], u8); 8] = [
    ([0, 8, 1, 2, 3, 5, 4, 0, 0, 0], 11),
    ([0, 8, 1, 1, 3, 5, 4, 0, 0, 0], 12),
    ([0, 8, 1, 1, 2, 5, 4, 0, 0, 0], 13),
    ([0, 8, 1, 1, 2, 4, 4, 0, 0, 0], 14),
    ([8, 0, 1, 2, 0, 0, 0, 0, 0, 0], 18),
    ([0, 8, 2, 2, 0, 0, 0, 0, 0, 0], 18),
    ([0, 8, 1, 2, 0, 0, 0, 2, 0, 0], 18),
    ([0, 8, 1, 2, 0, 0, 0, 0, 0, 1], 18),
];

// The sheet's three numbers, or the refusal's, by which the outside knows it.
fn numbers(record: &[u8]) -> Result<(u32, u32, u32), u8> {
    Sheet::try_from(record)
        .map(|sheet| (sheet.packets, sheet.cells, sheet.hold))
        .map_err(Refusal::number)
}

#[test]
fn sheets(rt: HostRuntime) {
    assert_eq!(rt;
        numbers(&[0, 8, 1, 0, 0, 0, 0, 0, 0, 0]),
        Ok((252, 411264, 3250))
    );
    assert_eq!(rt;
        numbers(&[0, 8, 1, 1, 2, 4, 3, 1, 255, 255]),
        Ok((5292, 1645056, 11690))
    );
    assert_eq!(rt; numbers(&[0, 8, 1, 0, 0, 0, 0, 0, 0]), Err(18));
    assert_eq!(rt; numbers(&[0, 8, 1, 0, 0, 0, 0, 0, 0, 0, 0]), Err(18));
}

#[test]
fn refusals(rt: HostRuntime) {
    for (record, number) in REFUSED {
        assert_eq!(rt; numbers(&record), Err(number));
    }
}
