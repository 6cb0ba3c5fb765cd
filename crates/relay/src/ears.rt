// A receiver that hears whatever cells are put into it, and puts the packets that it collects into a sink.
//
// A fault or a refused cell ends the hearing; the cells after it are let go.
ghost use Rattle.std.specs.Prelude.{◌≡◌, ◌+◌, ◌-◌, ◌^◌, min, length, None, OnOk};
ghost use Rattle.broadcast.specs.Receiver.{nothing};
ghost use Rattle.receiver.specs.View.{view};
ghost use Rattle.relay.specs.Waiting.{ready_in};
ghost use Rattle.relay.specs.Listening.{ears_of, Collected, Heard, Put};

use super::sink::Sink;
use receiver::{Missed, Receiver};
use refusal::Refusal;
use stage::Stage;
use std::io;

#[derive(Drop)]
pub struct Ears<P, S> {
    receiver: Receiver<P>,
    pub sink: S,
    // Cells heard, and packets collected.
    pub cells: u64,
    pub packets: u64,
    pub missed: Option<Missed>,
}

impl<P: Stage, S: Sink> Ears<P, S> {
    // Of a receiver that is started.
    pub fn new(receiver: Receiver<P>, sink: S) -> Ears<P, S>
        ensures { result ≡ record { receiver = receiver; sink = sink; cells = 0; packets = 0; missed = None } }
    {
        Ears {
            receiver,
            sink,
            cells: 0,
            packets: 0,
            missed: None,
        }
    }

    // Collects until nothing more waits.
    pub fn collect(&mut self) -> io::Result<()>
        ensures fixed { P.Stage.model self.new.receiver.gatherer.pile ≡ P.Stage.model self.old.receiver.gatherer.pile }
        ensures collected { Collected (P.Stage.model self.old.receiver.gatherer.pile) (ears_of P.Stage.receiving self.old) (ears_of P.Stage.receiving self.new) result }
        ensures cells { self.new.cells ≡ self.old.cells }
        ensures all { OnOk result (self.new.missed ≡ None → ready_in (view P.Stage.receiving self.new.receiver) ≡ nothing) }
    {
        let mut packet = [0; 188];
        loop {
            match self.receiver.collect(&mut packet) {
                Ok(0) => return Ok(()),
                Ok(_) => {
                    self.packets = self.packets.saturating_add(1);
                    self.sink.put(&packet)?;
                }
                Err(missed) => {
                    self.missed = Some(missed);
                    return Ok(());
                }
            }
        }
    }

    // A cell is refused while a packet waits, so one is looked for only then.
    fn hear(&mut self, cell: u8) -> io::Result<()>
        ensures fixed { P.Stage.model self.new.receiver.gatherer.pile ≡ P.Stage.model self.old.receiver.gatherer.pile }
        ensures heard { Heard (P.Stage.model self.old.receiver.gatherer.pile) cell (ears_of P.Stage.receiving self.old) (ears_of P.Stage.receiving self.new) result }
        ensures cells { OnOk result (self.new.missed ≡ None → self.new.cells ≡ min (self.old.cells + 1) (2 ^ 64 - 1)) }
    {
        let mut answer = self.receiver.hear(cell);
        if let Err(Refusal::SomethingWaits) = answer {
            self.collect()?;
            answer = self.receiver.hear(cell);
        }
        match answer {
            Ok(()) => self.cells = self.cells.saturating_add(1),
            Err(refusal) => {
                self.missed = self.missed.or(Some(Missed::Refused(refusal)));
            }
        }
        Ok(())
    }
}

impl<P: Stage, S: Sink> Sink for Ears<P, S> {
    fn put(&mut self, units: &[u8]) -> io::Result<()>
        ensures fixed { P.Stage.model self.new.receiver.gatherer.pile ≡ P.Stage.model self.old.receiver.gatherer.pile }
        ensures put { Put (P.Stage.model self.old.receiver.gatherer.pile) units.now (ears_of P.Stage.receiving self.old) (ears_of P.Stage.receiving self.new) result }
        ensures cells { OnOk result (self.new.missed ≡ None → self.new.cells ≡ min (self.old.cells + length units.now) (2 ^ 64 - 1)) }
    {
        for cell in units {
            if self.missed.is_some() {
                break;
            }
            self.hear(*cell)?;
        }
        Ok(())
    }
}
