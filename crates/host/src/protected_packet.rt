// The protected packet (EN 300 744, clause 4.3.2): any 188 bytes in, these and their sixteen parity bytes out.
ghost use Rattle.std.specs.Prelude.{◌≡◌};
ghost use Rattle.reed.specs.Packets.{answer as answered, written};
ghost use Rattle.refusal.specs.Numbers.{refused_by};
ghost use Rattle.host.specs.Answer.{answer_of};

use super::answer::answer;
use reed::protect;

#[unsafe(no_mangle)]
pub extern "C" fn tavzsumer_protect(packet: &[u8], output: &mut [u8]) -> u8
    ensures answer { result ≡ answer_of (refused_by (answered packet.now output.old)) }
    ensures output { output.new ≡ written packet.now output.old }
{
    answer(protect(packet, output))
}
