// What a receiver answers: docs/rules/line-and-receiver.md.
use super::packets::KNOWN;
use super::receiver_calls::{Answer, Call, check_receiver};
use dispersal::EnergyDispersal;
use inner_interleaver::bit_interleaver::BitInterleaver;
use outer::Serializer;
use pile::Pile;
use receiver::Missed::{Failed, Refused};
use refusal::Refusal::{
    NotStarted, PacketLength, PileUnfit, SomethingWaits, Started, UnitTooLarge,
    UnknownConstellation, UnknownGuard, UnknownMode, UnknownRate,
};
use settings::Constellation;
use stage::Fault;

const DONE: Answer = Ok(0);

const PACKET: Answer = Ok(188);

// A packet that doesn't begin with 47 hex.
const FAULT: Answer = Err(Failed(Fault { stage: 0, cause: 5 }));

// A cell is a byte here.
const ANSWERS: [(Call, Answer); 32] = [
    (Call::Hear(0x47), Err(Refused(NotStarted))),
    (Call::Collect(187), Err(Refused(NotStarted))),
    (Call::Start([2, 3, 5, 4]), Err(Refused(UnknownMode))),
    (
        Call::Start([1, 3, 5, 4]),
        Err(Refused(UnknownConstellation)),
    ),
    (Call::Start([1, 2, 5, 4]), Err(Refused(UnknownRate))),
    (Call::Start([1, 2, 4, 4]), Err(Refused(UnknownGuard))),
    (Call::Hear(0x47), Err(Refused(NotStarted))),
    (Call::Start(KNOWN), DONE),
    (Call::Start([2, 3, 5, 4]), Err(Refused(Started))),
    (Call::Collect(188), DONE),
    (Call::Collect(187), Err(Refused(PacketLength))),
    (Call::HearFrom(0, 187), DONE),
    (Call::Collect(188), DONE),
    (Call::HearFrom(187, 188), DONE),
    (Call::Hear(0x47), Err(Refused(SomethingWaits))),
    (Call::Collect(187), Err(Refused(PacketLength))),
    (Call::Collect(189), Err(Refused(PacketLength))),
    (Call::Collect(188), PACKET),
    (Call::Collect(188), DONE),
    (Call::Hear(0x47), DONE),
    (Call::HearFrom(1, 188), DONE),
    (Call::Collect(188), PACKET),
    (Call::Hear(0x46), DONE),
    (Call::HearFrom(1, 187), DONE),
    (Call::Collect(188), DONE),
    (Call::HearFrom(187, 188), DONE),
    (Call::Hear(0x47), Err(Refused(SomethingWaits))),
    (Call::Collect(188), FAULT),
    (Call::Collect(187), Err(Refused(PacketLength))),
    (Call::Collect(188), FAULT),
    (Call::Hear(0x47), Err(Refused(SomethingWaits))),
    (Call::Start(KNOWN), Err(Refused(Started))),
];

#[test]
fn calls(rt: HostRuntime) {
    check_receiver(
        &rt,
        Pile::new(EnergyDispersal::new(), EnergyDispersal::new()),
        &ANSWERS,
    );
}

// Words of two bits.
const CELLS: [(Call, Answer); 6] = [
    (Call::Hear(4), Err(Refused(NotStarted))),
    (Call::Start(KNOWN), DONE),
    (Call::Hear(3), DONE),
    (Call::Hear(4), Err(Refused(UnitTooLarge))),
    (Call::Hear(255), Err(Refused(UnitTooLarge))),
    (Call::Hear(0), DONE),
];

#[test]
fn cells_of_two_bits(rt: HostRuntime) {
    check_receiver(
        &rt,
        Pile::new(Serializer::new(), BitInterleaver::of(Constellation::Qpsk)),
        &CELLS,
    );
}

const UNFIT: [(Call, Answer); 3] = [
    (
        Call::Start([0, 3, 0, 0]),
        Err(Refused(UnknownConstellation)),
    ),
    (Call::Start(KNOWN), Err(Refused(PileUnfit))),
    (Call::Hear(0), Err(Refused(NotStarted))),
];

#[test]
fn pile_that_takes_no_bytes(rt: HostRuntime) {
    check_receiver(&rt, BitInterleaver::of(Constellation::Qpsk), &UNFIT);
}
