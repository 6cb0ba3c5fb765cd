// The TPS block of a frame (EN 300 744, clause 4.6.2): settings and a frame from 1 to 4 in, the bits s1 to s67 out, one to a byte.
ghost use Rattle.std.specs.Prelude.{◌≡◌, ◌≤◌};
ghost use Rattle.refusal.specs.Numbers.{refused_by};
ghost use Rattle.tps.specs.Block.{synchronisation, length_indicator, identifier_byte, fields as fields_of, block as block_of, refused, after};

use super::field::{BLOCK_BITS, Bits, Field, send_all};
use super::protection::remainder;
use refusal::Refusal;
use settings::Settings;

const INFORMATION_BITS: usize = 53;

const PARITY_BITS: usize = 14;

fn synchronisation_word(frame: u8) -> u32
    ensures { result ≡ synchronisation frame }
{
    if frame % 2 == 1 {
        0b0011010111101110
    } else {
        0b1100101000010001
    }
}

fn indicator(identifier: Option<u16>) -> u32
    ensures { result ≡ length_indicator identifier }
{
    match identifier {
        None => 0b010111,
        Some(_) => 0b011111,
    }
}

fn byte_of(frame: u8, identifier: Option<u16>) -> u32
    ensures { result ≡ identifier_byte frame identifier }
{
    match identifier {
        None => 0,
        Some(number) => {
            let [high, low] = number.to_be_bytes();
            u32::from(if frame % 2 == 1 { high } else { low })
        }
    }
}

// Table 9, s1 to s53. Settings and frame come apart: a struct of both would be made by each caller for one call.
fn fields(settings: &Settings, frame: u8) -> [Field; 11]
    requires { 1 ≤ frame }
    ensures { result ≡ fields_of settings.now frame }
{
    [
        Field::new(16, synchronisation_word(frame)),
        Field::new(6, indicator(settings.identifier)),
        Field::new(2, u32::from(frame - 1)),
        Field::new(2, u32::from(settings.constellation.code())),
        Field::new(3, 0),
        Field::new(3, u32::from(settings.rate.code())),
        Field::new(3, 0),
        Field::new(2, u32::from(settings.guard.code())),
        Field::new(2, u32::from(settings.mode.code())),
        Field::new(8, byte_of(frame, settings.identifier)),
        Field::new(6, 0),
    ]
}

// The parity is worked out over zeros in its place.
fn block(settings: &Settings, frame: u8) -> Bits
    requires { 1 ≤ frame }
    ensures { result.items ≡ block_of settings.now frame }
{
    let mut bits = send_all(&fields(settings, frame));
    Field::new(PARITY_BITS, 0).send(&mut bits);
    let parity = remainder(bits.as_slice());
    bits.truncate(INFORMATION_BITS);
    Field::new(PARITY_BITS, parity).send(&mut bits);
    bits
}

// Writes the block at the front of a buffer; the rest of the buffer stays.
pub fn write_block(settings: &Settings, frame: u8, buffer: &mut [u8]) -> Result<(), Refusal>
    ensures answer { refused_by result ≡ refused frame buffer.old }
    ensures buffer { buffer.new ≡ after (refused frame buffer.old) settings.now frame buffer.old }
{
    if !matches!(frame, 1..=4) {
        return Err(Refusal::FrameOrParity);
    }
    if buffer.len() < BLOCK_BITS {
        return Err(Refusal::BufferShort);
    }
    // A length that is known leaves no call of memcpy to whoever links this.
    buffer[..BLOCK_BITS].copy_from_slice(&block(settings, frame).as_slice()[..BLOCK_BITS]);
    Ok(())
}
