// What the tool prints.
ghost use Rattle.std.specs.Prelude.{Some};
ghost use Rattle.bench.specs.Text.{sent as sent_text, received as received_text, returned as returned_text, missed as missed_text, verdict as verdict_text};

use super::comparison::Verdict;
use receiver::Missed;
use stage::Fault;
use std::fmt;

pub const HELP: &str =
    "bench send RECORD PACKETS CELLS     send whole super-frames of packets, and write the cells\n\
bench receive RECORD CELLS PACKETS  hear cells, and write the packets that come back\n\
bench loop RECORD PACKETS           send, hear back and compare\n\
bench tps RECORD                    the signalling blocks of frames 1 to 4\n\
bench chart MODE PARITY             where the symbol interleaver puts each word (mode 0 2K, 1 8K; parity 0 even, 1 odd)\n\
RECORD is a settings record of 10 bytes, PACKETS have 188 bytes each, CELLS one byte each\n";

#[derive(Clone, Copy)]
pub struct Sent {
    pub packets: u64,
    pub closing: u32,
    pub cells: u64,
}

#[derive(Clone, Copy)]
pub struct Received {
    pub cells: u64,
    pub packets: u64,
}

#[derive(Clone, Copy)]
pub struct Returned {
    pub packets: u64,
    pub cells: u64,
    pub returned: u64,
}

impl fmt::Display for Sent {
    ghost output = { λ told. Some (sent_text told.packets told.closing told.cells) };

    fn fmt<W: fmt::Write>(&self, f: &mut fmt::Formatter<W>) -> fmt::Result {
        let Sent {
            packets,
            closing,
            cells,
        } = self;
        write!(f, "packets {packets}\nclosing {closing}\ncells {cells}\n")
    }
}

impl fmt::Display for Received {
    ghost output = { λ told. Some (received_text told.cells told.packets) };

    fn fmt<W: fmt::Write>(&self, f: &mut fmt::Formatter<W>) -> fmt::Result {
        let Received { cells, packets } = self;
        write!(f, "cells {cells}\npackets {packets}\n")
    }
}

impl fmt::Display for Returned {
    ghost output = { λ told. Some (returned_text told.packets told.cells told.returned) };

    fn fmt<W: fmt::Write>(&self, f: &mut fmt::Formatter<W>) -> fmt::Result {
        let Returned {
            packets,
            cells,
            returned,
        } = self;
        write!(f, "packets {packets}\ncells {cells}\nreturned {returned}\n")
    }
}

// What ended a hearing, or a whole job.
#[derive(Clone, Copy)]
pub struct Ended(pub Missed);

impl fmt::Display for Ended {
    ghost output = { λ ended. Some (missed_text ended.0) };

    fn fmt<W: fmt::Write>(&self, f: &mut fmt::Formatter<W>) -> fmt::Result {
        match self.0 {
            Missed::Refused(refusal) => write!(f, "{refusal}\n"),
            Missed::Failed(Fault { stage, cause }) => write!(f, "fault {stage} {cause}\n"),
        }
    }
}

impl fmt::Display for Verdict {
    ghost output = { λ verdict. Some (verdict_text verdict) };

    fn fmt<W: fmt::Write>(&self, f: &mut fmt::Formatter<W>) -> fmt::Result {
        match self {
            Verdict::Equal => write!(f, "every packet came back\n"),
            Verdict::Changed(place) => write!(f, "packet {place} came back changed\n"),
            Verdict::Lost(place) => write!(f, "packet {place} didn't come back\n"),
        }
    }
}
