// Packets over a line, and each time every cell that then waits into a sink. Each call answers the number of these cells.
ghost use Rattle.std.specs.Prelude.{◌≡◌};
ghost use Rattle.broadcast.specs.Line.{packet as packet_call, close as close_call};
ghost use Rattle.broadcast.specs.LineSteps.{step};
ghost use Rattle.line.specs.View.{view};
ghost use Rattle.relay.specs.Sent.{Drained, Sent};

use super::sink::Sink;
use super::stop::Stop;
use line::Line;
use stage::Stage;

fn drain<P: Stage, S: Sink>(line: &mut Line<P>, sink: &mut S) -> Result<u64, Stop>
    ensures fixed { P.Stage.model line.new.feed.pile ≡ P.Stage.model line.old.feed.pile }
    ensures drained { Drained (view P.Stage.model P.Stage.sending line.old) (view P.Stage.model P.Stage.sending line.new) result }
{
    let mut buffer = [0; 4096];
    let mut cells: u64 = 0;
    loop {
        let count = line.cells(&mut buffer)?;
        if count == 0 {
            return Ok(cells);
        }
        sink.put(&buffer[..count])?;
        cells = cells.saturating_add(count as u64);
    }
}

pub fn send<P: Stage, S: Sink>(line: &mut Line<P>, packet: &[u8], sink: &mut S) -> Result<u64, Stop>
    ensures fixed { P.Stage.model line.new.feed.pile ≡ P.Stage.model line.old.feed.pile }
    ensures sent { Sent (step (P.Stage.model line.old.feed.pile) (view P.Stage.model P.Stage.sending line.old) (packet_call packet.now)) (view P.Stage.model P.Stage.sending line.old) (view P.Stage.model P.Stage.sending line.new) result }
{
    line.packet(packet)?;
    drain(line, sink)
}

// Sends the closing super-frame.
pub fn close<P: Stage, S: Sink>(line: &mut Line<P>, sink: &mut S) -> Result<u64, Stop>
    ensures fixed { P.Stage.model line.new.feed.pile ≡ P.Stage.model line.old.feed.pile }
    ensures sent { Sent (step (P.Stage.model line.old.feed.pile) (view P.Stage.model P.Stage.sending line.old) close_call) (view P.Stage.model P.Stage.sending line.old) (view P.Stage.model P.Stage.sending line.new) result }
{
    line.close()?;
    drain(line, sink)
}
