// Rows of charts, and each refusal in its order.
use super::{Mark, chart};
use refusal::Refusal;

const BLANK: Mark = Mark {
    before: 65535,
    after: 65535,
};

// Mode, parity and a place; then the word that the mark there names, and its place.
// Even 2K: table C.1 at carriers 1 to 5, 1702 and 1703, six bits to a word. Odd: the published H. The rest: tools/address.py.
const ROWS: [(u8, u8, usize, u16, u16); 20] = [
    (0, 0, 0, 0, 0),
    (0, 0, 1, 767, 1),
    (0, 0, 2, 6, 2),
    (0, 0, 3, 776, 3),
    (0, 0, 4, 8, 4),
    (0, 0, 1510, 1471, 1510),
    (0, 0, 1511, 1454, 1511),
    (0, 0, 1512, 65535, 65535),
    (0, 1, 1, 1024, 1),
    (0, 1, 2, 16, 2),
    (0, 1, 3, 1025, 3),
    (0, 1, 4, 128, 4),
    (0, 1, 1511, 1032, 1511),
    (1, 0, 1, 6, 1),
    (1, 0, 2, 1624, 2),
    (1, 0, 3, 4040, 3),
    (1, 1, 1, 4096, 1),
    (1, 1, 2, 128, 2),
    (1, 1, 3, 4128, 3),
    (1, 1, 6047, 4226, 6047),
];

// What stands at a place after a call on a blank buffer; a place past it reads blank.
fn at(mode: u8, parity: u8, place: usize) -> Mark {
    let mut marks = [BLANK; 6048];
    let _ = chart(mode, parity, &mut marks);
    marks.get(place).copied().unwrap_or(BLANK)
}

#[test]
fn rows(rt: HostRuntime) {
    for (mode, parity, place, before, after) in ROWS {
        let mark = Mark { before, after };
        assert_eq!(rt; at(mode, parity, place), mark);
    }
}

#[test]
fn refusals(rt: HostRuntime) {
    let mut marks = [BLANK; 1511];
    assert_eq!(rt; chart(2, 2, &mut marks), Err(Refusal::UnknownMode));
    assert_eq!(rt; chart(1, 2, &mut marks), Err(Refusal::FrameOrParity));
    assert_eq!(rt; chart(1, 1, &mut marks), Err(Refusal::BufferShort));
    assert_eq!(rt; chart(0, 0, &mut marks), Err(Refusal::BufferShort));
    assert_eq!(rt; marks[0], BLANK);
}
