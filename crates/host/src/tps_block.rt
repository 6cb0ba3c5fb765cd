// The TPS block of a frame (EN 300 744, clause 4.6.2): a settings record and a frame in, the bits s1 to s67 out, one to a byte.
ghost use Rattle.std.specs.Prelude.{◌≡◌};
ghost use Rattle.refusal.specs.Numbers.{refused_by};
ghost use Rattle.settings.specs.Record.{settings_from};
ghost use Rattle.host.specs.Answer.{answer_of};
ghost use Rattle.host.specs.TpsBlock.{refused, after};

use super::answer::answer;
use refusal::Refusal;
use settings::Settings;
use tps::write_block;

fn write(bytes: &[u8], frame: u32, buffer: &mut [u8]) -> Result<(), Refusal>
    ensures answer { refused_by result ≡ refused (settings_from bytes.now) frame buffer.old }
    ensures buffer { buffer.new ≡ after (settings_from bytes.now) frame buffer.old }
{
    let settings = Settings::try_from(bytes)?;
    // A number past 255 is no frame, and neither is 0.
    let frame = u8::try_from(frame).unwrap_or(0);
    write_block(&settings, frame, buffer)
}

// Writes at the front of the buffer. The rest stays, and after a refusal all of it.
#[unsafe(no_mangle)]
pub extern "C" fn tavzsumer_tps(bytes: &[u8], frame: u32, buffer: &mut [u8]) -> u8
    ensures answer { result ≡ answer_of (refused (settings_from bytes.now) frame buffer.old) }
    ensures buffer { buffer.new ≡ after (settings_from bytes.now) frame buffer.old }
{
    answer(write(bytes, frame, buffer))
}
