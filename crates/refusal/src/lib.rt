// Why a call says no: one list of refusals for every call, each with its number. A refused call leaves all as it was.

#![tactic(auto)]

ghost use Rattle.std.specs.Prelude.{◌≡◌};
ghost use Rattle.refusal.specs.Numbers.{number_of};

mod words;

#[derive(Clone, Copy, PartialEq, Eq, Debug)]
pub enum Refusal {
    UnknownMode = 11,
    UnknownConstellation = 12,
    UnknownRate = 13,
    UnknownGuard = 14,
    // A packet, a collect buffer or a protected packet of another length than it has to be.
    PacketLength = 15,
    BufferShort = 16,
    // A frame that isn't 1 to 4, or a parity that isn't 0 or 1.
    FrameOrParity = 17,
    RecordMalformed = 18,
    UnitTooLarge = 21,
    SomethingWaits = 22,
    NotStarted = 30,
    CellsWait = 31,
    FirstByte = 32,
    // The accepted packets aren't a multiple of those in a super-frame.
    PartSuperFrame = 33,
    Closed = 34,
    Started = 35,
    // The pile doesn't take bytes, or holds back a whole super-frame.
    PileUnfit = 36,
}

impl Refusal {
    // The number by which the outside knows a refusal.
    pub fn number(self) -> u8
        ensures { result ≡ number_of self }
    {
        self as u8
    }
}
