// A block as tools/tps.py computes it from the standard.
use super::write_block;
use settings::{Constellation, Guard, Mode, Rate, Settings};

const EXPECTED: &[u8; 67] = b"1100101000010001011111011000010000011010101101000000001010000011111";

#[test]
fn lower_byte_in_frame_two(rt: HostRuntime) {
    let settings = Settings {
        mode: Mode::EightK,
        constellation: Constellation::Qam64,
        rate: Rate::SevenEighths,
        guard: Guard::Quarter,
        identifier: Some(0xA55A),
    };
    let mut buffer = [9; 68];
    assert!(rt; write_block(&settings, 2, &mut buffer).is_ok());
    for (found, expected) in buffer.iter().zip(EXPECTED) {
        assert_eq!(rt; *found == 1, *expected == b'1');
    }
    assert_eq!(rt; buffer[67], 9);
}
