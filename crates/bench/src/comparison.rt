// Packets that come back are held to those that were sent, which are read a second time.
ghost use Rattle.std.specs.Prelude.{◌≡◌};
ghost use Rattle.bench.specs.Verdict.{verdict_of};

use relay::Sink;
use std::io;
use std::io::Read;

#[derive(Clone, Copy)]
pub enum Verdict {
    Equal,
    Changed(u64),
    Lost(u64),
}

// Packets count from 0. Those that come back after the ones sent are null packets of the closing super-frame.
fn judge(sent: u64, returned: u64, changed: Option<u64>) -> Verdict
    ensures { result ≡ verdict_of sent returned changed }
{
    match changed {
        Some(place) => Verdict::Changed(place),
        None => {
            if returned < sent {
                Verdict::Lost(returned)
            } else {
                Verdict::Equal
            }
        }
    }
}

#[derive(Drop)]
pub struct Comparison<R> {
    original: R,
    sent: u64,
    returned: u64,
    // The first packet that came back changed.
    changed: Option<u64>,
}

impl<R: Read> Comparison<R> {
    pub(crate) fn new(original: R, sent: u64) -> Comparison<R> {
        Comparison {
            original,
            sent,
            returned: 0,
            changed: None,
        }
    }

    pub(crate) fn verdict(&self) -> Verdict
        ensures { result ≡ verdict_of self.now.sent self.now.returned self.now.changed }
    {
        judge(self.sent, self.returned, self.changed)
    }
}

impl<R: Read> Sink for Comparison<R> {
    fn put(&mut self, units: &[u8]) -> io::Result<()> {
        if self.returned < self.sent {
            let mut packet = [0; 188];
            self.original.read_exact(&mut packet)?;
            if units != packet.as_slice() && self.changed.is_none() {
                self.changed = Some(self.returned);
            }
        }
        self.returned = self.returned.saturating_add(1);
        Ok(())
    }
}
