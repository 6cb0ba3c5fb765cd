// Hears a broadcast: its cells are digested, and the packets that come back are held to those that were sent.
//
// Cells after the end of the hearing are only digested.
use receiver::Receiver;
use relay::{Ears, Sink};
use samples::{Digest, Returns};
use stage::Stage;
use std::io;

#[derive(Clone, Copy)]
pub struct Held {
    pub returns: Returns,
}

impl Sink for Held {
    fn put(&mut self, units: &[u8]) -> io::Result<()> {
        self.returns.put(units);
        Ok(())
    }
}

#[derive(Drop)]
pub struct Listener<P> {
    pub digest: Digest,
    pub ears: Ears<P, Held>,
}

impl<P: Stage> Listener<P> {
    // Of a receiver that is started.
    pub(crate) fn new(receiver: Receiver<P>, returns: Returns) -> Listener<P> {
        Listener {
            digest: Digest::new(),
            ears: Ears::new(receiver, Held { returns }),
        }
    }
}

impl<P: Stage> Sink for Listener<P> {
    fn put(&mut self, units: &[u8]) -> io::Result<()> {
        self.digest.add(units);
        self.ears.put(units)
    }
}
