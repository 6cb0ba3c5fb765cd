// The line: packets in, cells out, over any pile.
//
// A call is refused, and leaves all as it was, or does what the step of its phase says (`step` in broadcast's specs/LineSteps.antt).
// A packet's bytes are pending until the pile is handed them, which is when a call asks for cells or whether any wait.

#![tactic(auto)]

ghost use Rattle.std.specs.Prelude.{◌≡◌, [], ◌==◌};
ghost use Rattle.tps.specs.Laws.{Identifier};
ghost use Rattle.broadcast.specs.Line.{start as start_call, packet as packet_call, cells as cells_call, close as close_call, tps as tps_call};
ghost use Rattle.broadcast.specs.LineSteps.{idle as idle_line, GoneThrough};
ghost use Rattle.broadcast.specs.Claims.{HoldsOver};
ghost use Rattle.line.specs.View.{done_by, counted_by, phase_of, admitted, view, Does, Continues};

use self::feed::Feed;
use self::frame::Frame;
use self::pending::Pending;
use self::phase::{Call, Phase};
use broadcast::{fit, holds};
use refusal::Refusal;
use settings::Codes;
use stage::Stage;
use tps::write_block;

mod feed;
mod frame;
mod pending;
mod phase;

#[derive(Drop)]
pub struct Line<P> {
    feed: Feed<P>,
    phase: Phase,
}

// An identifier is a number of 16 bits, which the proof learns where one is read.
fn identified(codes: &Codes)
    ensures { Identifier codes.now.identifier }
{
    if let Some(identifier) = codes.identifier {
        let _ = u32::from(identifier);
    }
}

// What phase and call let in.
impl<P: Stage> Line<P> {
    // A line over a pile that takes no bytes is idle.
    fn phase(&self) -> Phase
        ensures { result ≡ phase_of ((P.Stage.model self.now.feed.pile).taken == 256) self.now.phase }
    {
        if self.feed.pile.taken() == 256 {
            self.phase
        } else {
            Phase::Idle
        }
    }

    // What phase and call together let in: the frame that the call goes by, which a start has none of.
    fn admit(&self, call: Call) -> Result<Option<Frame>, Refusal>
        ensures { result ≡ admitted (phase_of ((P.Stage.model self.now.feed.pile).taken == 256) self.now.phase) call }
    {
        match (self.phase(), call) {
            (Phase::Idle, Call::Start) => Ok(None),
            (Phase::Idle, _) => Err(Refusal::NotStarted),
            (_, Call::Start) => Err(Refusal::Started),
            (Phase::Closing(_), Call::Packet | Call::Close) => Err(Refusal::Closed),
            (Phase::Open(frame) | Phase::Closing(frame), _) => Ok(Some(frame)),
        }
    }
}

// The calls. Each continues the succession that the line has gone through, and carries the whole theorem over the line's pile (`holds`):
// whoever reads one call's contract has all that is promised.
impl<P: Stage> Line<P> {
    pub fn new(pile: P) -> Line<P>
        ensures pile { result.feed.pile ≡ pile }
        ensures idle { view P.Stage.model P.Stage.sending result ≡ idle_line }
        ensures begins { GoneThrough (P.Stage.model pile) [] (view P.Stage.model P.Stage.sending result) }
        ensures holds { HoldsOver (P.Stage.model pile) }
    {
        holds(&pile);
        Line {
            feed: Feed {
                pile,
                pending: Pending::none(),
            },
            phase: Phase::Idle,
        }
    }

    // Renews the pile and opens the line.
    pub fn start(&mut self, codes: &Codes) -> Result<(), Refusal>
        ensures fixed { P.Stage.model self.new.feed.pile ≡ P.Stage.model self.old.feed.pile }
        ensures does { Does P.Stage.model P.Stage.sending self.old self.new (start_call codes.now) (done_by result) [] }
        ensures continues { Continues P.Stage.model P.Stage.sending self.old self.new (start_call codes.now) (done_by result) [] }
        ensures holds { HoldsOver (P.Stage.model self.old.feed.pile) }
    {
        holds(&self.feed.pile);
        identified(codes);
        self.admit(Call::Start)?;
        let settings = fit(&self.feed.pile, codes)?;
        self.feed.renew();
        self.phase = Phase::Open(Frame::new(settings));
        Ok(())
    }

    // Takes a packet, whose bytes go to the pile as its cells are asked for.
    pub fn packet(&mut self, packet: &[u8]) -> Result<(), Refusal>
        ensures fixed { P.Stage.model self.new.feed.pile ≡ P.Stage.model self.old.feed.pile }
        ensures does { Does P.Stage.model P.Stage.sending self.old self.new (packet_call packet.now) (done_by result) packet.now }
        ensures continues { Continues P.Stage.model P.Stage.sending self.old self.new (packet_call packet.now) (done_by result) packet.now }
        ensures holds { HoldsOver (P.Stage.model self.old.feed.pile) }
    {
        holds(&self.feed.pile);
        let frame = self.admit(Call::Packet)?.unwrap();
        let [sync, rest @ ..] = packet else {
            return Err(Refusal::PacketLength);
        };
        if rest.len() != 187 {
            return Err(Refusal::PacketLength);
        }
        if *sync != 0x47 {
            return Err(Refusal::FirstByte);
        }
        if self.feed.pump() {
            return Err(Refusal::CellsWait);
        }
        self.feed.pending.set_packet(packet);
        self.phase = Phase::Open(frame.counted());
        Ok(())
    }

    // Fills a buffer with waiting cells, as many as wait and fit, and answers the count.
    pub fn cells(&mut self, buffer: &mut [u8]) -> Result<usize, Refusal>
        ensures fixed { P.Stage.model self.new.feed.pile ≡ P.Stage.model self.old.feed.pile }
        ensures does { Does P.Stage.model P.Stage.sending self.old self.new (cells_call buffer.old) (counted_by result) buffer.new }
        ensures continues { Continues P.Stage.model P.Stage.sending self.old self.new (cells_call buffer.old) (counted_by result) buffer.new }
        ensures holds { HoldsOver (P.Stage.model self.old.feed.pile) }
    {
        holds(&self.feed.pile);
        self.admit(Call::Cells)?;
        Ok(self.feed.fill(buffer))
    }

    // Sends a super-frame of null packets, after which the line takes no more.
    pub fn close(&mut self) -> Result<(), Refusal>
        ensures fixed { P.Stage.model self.new.feed.pile ≡ P.Stage.model self.old.feed.pile }
        ensures does { Does P.Stage.model P.Stage.sending self.old self.new close_call (done_by result) [] }
        ensures continues { Continues P.Stage.model P.Stage.sending self.old self.new close_call (done_by result) [] }
        ensures holds { HoldsOver (P.Stage.model self.old.feed.pile) }
    {
        holds(&self.feed.pile);
        let frame = self.admit(Call::Close)?.unwrap();
        if frame.begun != 0 {
            return Err(Refusal::PartSuperFrame);
        }
        if self.feed.pump() {
            return Err(Refusal::CellsWait);
        }
        self.feed.pending.set_nulls(frame.packets);
        self.phase = Phase::Closing(frame);
        Ok(())
    }

    // Writes the 67 bits of a frame's signalling block at the front of a buffer.
    pub fn tps(&self, frame: u8, buffer: &mut [u8]) -> Result<(), Refusal>
        ensures does { Does P.Stage.model P.Stage.sending self.now self.now (tps_call frame buffer.old) (done_by result) buffer.new }
        ensures continues { Continues P.Stage.model P.Stage.sending self.now self.now (tps_call frame buffer.old) (done_by result) buffer.new }
        ensures holds { HoldsOver (P.Stage.model self.now.feed.pile) }
    {
        holds(&self.feed.pile);
        let super_frame = self.admit(Call::Tps)?.unwrap();
        write_block(&super_frame.settings, frame, buffer)
    }
}
