// What a C program links: the exports of the library `host`, each with the clauses of the function that it calls. host/tavzsumer.h declares them.
// A library exports nothing to C, and a static library is a crate of its own: so each function stands here a second time.

#![tactic(auto)]

ghost use Rattle.std.specs.Prelude.{◌≡◌};
ghost use Rattle.reed.specs.Packets.{answer as answered, written};
ghost use Rattle.refusal.specs.Numbers.{refused_by};
ghost use Rattle.settings.specs.Record.{settings_from};
ghost use Rattle.host.specs.Answer.{answer_of};
ghost use Rattle.host.specs.TpsBlock.{refused, after};

// The TPS block of a frame, from a settings record.
#[unsafe(no_mangle)]
pub extern "C" fn tavzsumer_tps(bytes: &[u8], frame: u32, buffer: &mut [u8]) -> u8
    ensures answer { result ≡ answer_of (refused (settings_from bytes.now) frame buffer.old) }
    ensures buffer { buffer.new ≡ after (settings_from bytes.now) frame buffer.old }
{
    host::tavzsumer_tps(bytes, frame, buffer)
}

// The protected packet of any 188 bytes.
#[unsafe(no_mangle)]
pub extern "C" fn tavzsumer_protect(packet: &[u8], output: &mut [u8]) -> u8
    ensures answer { result ≡ answer_of (refused_by (answered packet.now output.old)) }
    ensures output { output.new ≡ written packet.now output.old }
{
    host::tavzsumer_protect(packet, output)
}
