// Protected packets (EN 300 744, clause 4.3.2): 188 bytes and their parity, 204 bytes that are zero at the roots of g(x).
ghost use Rattle.std.specs.Prelude.{◌≡◌, Ok, Decides};
ghost use Rattle.reed.specs.Code.{Codeword};
ghost use Rattle.reed.specs.Packets.{answer, written};

use crate::parity::Parity;
use refusal::Refusal;

// Writes any 188 bytes with their parity into the output, which has exactly 204.
pub fn protect(packet: &[u8], output: &mut [u8]) -> Result<(), Refusal>
    ensures answered { result ≡ answer packet.now output.old }
    ensures output { output.new ≡ written packet.now output.old }
    ensures code { result ≡ Ok tt → Codeword output.new }
{
    if packet.len() != 188 || output.len() != 204 {
        return Err(Refusal::PacketLength);
    }
    output[..188].copy_from_slice(packet);
    output[188..].copy_from_slice(&Parity::of(packet).bytes());
    Ok(())
}

// Whether these are 204 bytes that are zero at the roots: whether the last sixteen are the parity of the others.
pub fn is_codeword(block: &[u8]) -> bool
    ensures { Decides result (Codeword block.now) }
{
    if block.len() != 204 {
        return false;
    }
    Parity::of(&block[..188]).bytes().as_slice() == &block[188..]
}
