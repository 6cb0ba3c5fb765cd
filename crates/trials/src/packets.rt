// What the calls are made with, and what their buffers hold after.
use settings::Codes;
use std::process::Abort;

// Longer than a packet by one byte.
pub const LONG: usize = 189;

// What a buffer holds before a call.
pub const UNTOUCHED: u8 = 0xEE;

// The codes of mode, constellation, rate and guard for 2K, QPSK, 1/2 and 1/32: a super-frame is 252 packets.
pub const KNOWN: [u8; 4] = [0, 0, 0, 0];

// A packet in which each byte but the first is the number of its place.
pub(crate) fn packet() -> [u8; 188] {
    let mut bytes = [0x47; 188];
    for (byte, place) in bytes.iter_mut().zip(0u8..).skip(1) {
        *byte = place;
    }
    bytes
}

// Settings by the codes of mode, constellation, rate and guard.
pub(crate) fn codes(numbers: [u8; 4]) -> Codes {
    let [mode, constellation, rate, guard] = numbers;
    Codes {
        mode,
        constellation,
        rate,
        guard,
        identifier: None,
    }
}

// From a place on, the buffer is as it was.
pub(crate) fn check_rest(rt: &impl Abort, buffer: &[u8], from: usize) {
    assert!(rt; buffer.iter().skip(from).all(|byte| *byte == UNTOUCHED));
}
