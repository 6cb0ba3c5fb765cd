// Parities worked out by tools/reed_solomon.py.
use crate::{Parity, is_codeword, protect};
use refusal::Refusal;
use std::test::Fail;

fn parity_of(message: &[u8]) -> u128 {
    u128::from_be_bytes(Parity::of(message).bytes())
}

#[test]
fn zeros_get_zeros(rt: HostRuntime) {
    assert_eq!(rt; parity_of(&[0; 188]), 0);
}

// The parity of 1 is g(x) below its leading x^16.
#[test]
fn one_gets_the_generator(rt: HostRuntime) {
    assert_eq!(rt; parity_of(&[1]), 0x3b0d68bd44d11e08a34129e56232243b);
}

#[test]
fn bytes_counted_up(rt: HostRuntime) {
    let mut parity = Parity::new();
    for byte in 0..188u8 {
        parity.push(byte);
    }
    assert_eq!(rt;
        u128::from_be_bytes(parity.bytes()),
        0x311d78d6c860f878b7189f1a54961d5f
    );
}

#[test]
fn a_packet_is_protected(rt: HostRuntime) -> Result<(), Fail> {
    let mut packet = [0xff; 188];
    packet[0] = 0x47;
    let mut output = [0; 204];
    assert_eq!(rt;
        protect(&packet[1..], &mut output),
        Err(Refusal::PacketLength)
    );
    assert_eq!(rt;
        protect(&packet, &mut output[1..]),
        Err(Refusal::PacketLength)
    );
    protect(&packet, &mut output)?;
    assert_eq!(rt; output[188], 0xcb);
    assert_eq!(rt; output[203], 0x9d);
    assert!(rt; is_codeword(&output));
    output[100] ^= 1;
    assert!(rt; !is_codeword(&output));
    Ok(())
}
