// The receiver: cells in, packets out, over any pile.
//
// A call is refused, and leaves all as it was, or does what the step of its phase says (`step` in broadcast's
// specs/ReceiverSteps.antt). What waits in the pile is gathered when a call asks for a packet or whether something waits.

#![tactic(auto)]

ghost use Rattle.std.specs.Prelude.{◌≡◌, []};
ghost use Rattle.broadcast.specs.Receiver.{start as start_call, hear as hear_call, collect as collect_call};
ghost use Rattle.broadcast.specs.ReceiverSteps.{idle as idle_receiver, GoneThrough};
ghost use Rattle.broadcast.specs.Claims.{HoldsOver};
ghost use Rattle.receiver.specs.View.{done_by, collected_by, view, Does, Continues};

use self::gatherer::Gatherer;
use arrayvec::ArrayVec;
use broadcast::{fit, holds};
use refusal::Refusal;
use settings::{Codes, Settings};
use stage::{Fault, Stage};

mod gatherer;
pub mod missed;

pub use missed::Missed;

// A packet doesn't begin as packets do.
const FIRST_BYTE: Fault = Fault { stage: 0, cause: 5 };

#[derive(Drop)]
pub struct Receiver<P> {
    gatherer: Gatherer<P>,
    // The settings, once it is started.
    settings: Option<Settings>,
}

// The calls. Each continues the succession that the receiver has gone through, and carries the whole theorem over the receiver's pile (`holds`):
// whoever reads one call's contract has all that is promised.
impl<P: Stage> Receiver<P> {
    pub fn new(pile: P) -> Receiver<P>
        ensures pile { result.gatherer.pile ≡ pile }
        ensures idle { view P.Stage.receiving result ≡ idle_receiver }
        ensures begins { GoneThrough (P.Stage.model pile) [] (view P.Stage.receiving result) }
        ensures holds { HoldsOver (P.Stage.model pile) }
    {
        holds(&pile);
        Receiver {
            gatherer: Gatherer {
                pile,
                packet: ArrayVec::new(),
            },
            settings: None,
        }
    }

    // Renews the pile and starts to listen.
    pub fn start(&mut self, codes: &Codes) -> Result<(), Refusal>
        ensures fixed { P.Stage.model self.new.gatherer.pile ≡ P.Stage.model self.old.gatherer.pile }
        ensures does { Does P.Stage.model P.Stage.receiving self.old self.new (start_call codes.now) (done_by result) [] }
        ensures continues { Continues P.Stage.model P.Stage.receiving self.old self.new (start_call codes.now) (done_by result) [] }
        ensures holds { HoldsOver (P.Stage.model self.old.gatherer.pile) }
    {
        holds(&self.gatherer.pile);
        if self.settings.is_some() {
            return Err(Refusal::Started);
        }
        let settings = fit(&self.gatherer.pile, codes)?;
        self.gatherer.renew();
        self.settings = Some(settings);
        Ok(())
    }

    // Hears one cell.
    pub fn hear(&mut self, cell: u8) -> Result<(), Refusal>
        ensures fixed { P.Stage.model self.new.gatherer.pile ≡ P.Stage.model self.old.gatherer.pile }
        ensures does { Does P.Stage.model P.Stage.receiving self.old self.new (hear_call cell) (done_by result) [] }
        ensures continues { Continues P.Stage.model P.Stage.receiving self.old self.new (hear_call cell) (done_by result) [] }
        ensures holds { HoldsOver (P.Stage.model self.old.gatherer.pile) }
    {
        holds(&self.gatherer.pile);
        self.settings.ok_or(Refusal::NotStarted)?;
        // Mostly nothing waits, and to offer is then to have looked.
        if self.gatherer.offer(cell) {
            return Ok(());
        }
        if u16::from(cell) >= self.gatherer.pile.given() {
            return Err(Refusal::UnitTooLarge);
        }
        if self.gatherer.waits() {
            return Err(Refusal::SomethingWaits);
        }
        let _ = self.gatherer.pile.receive_offer(cell);
        Ok(())
    }

    // Collects a packet into 188 bytes. The rules of the calls give it numbers to answer: 188 with a packet, and 0 with none.
    pub fn collect(&mut self, buffer: &mut [u8]) -> Result<usize, Missed>
        ensures fixed { P.Stage.model self.new.gatherer.pile ≡ P.Stage.model self.old.gatherer.pile }
        ensures does { Does P.Stage.model P.Stage.receiving self.old self.new (collect_call buffer.old) (collected_by result) buffer.new }
        ensures continues { Continues P.Stage.model P.Stage.receiving self.old self.new (collect_call buffer.old) (collected_by result) buffer.new }
        ensures holds { HoldsOver (P.Stage.model self.old.gatherer.pile) }
    {
        holds(&self.gatherer.pile);
        self.settings.ok_or(Refusal::NotStarted)?;
        if buffer.len() != 188 {
            return Err(Missed::Refused(Refusal::PacketLength));
        }
        let whole = self.gatherer.gather()?;
        if !whole {
            return Ok(0);
        }
        if self.gatherer.packet[0] != 0x47 {
            return Err(Missed::Failed(FIRST_BYTE));
        }
        buffer.copy_from_slice(&self.gatherer.packet);
        self.gatherer.packet.clear();
        Ok(188)
    }
}
