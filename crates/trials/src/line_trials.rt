// What a line answers: docs/rules/line-and-receiver.md.
use super::line_calls::{Answer, Call, check_line};
use super::packets::{KNOWN, UNTOUCHED, check_rest, codes, packet};
use dispersal::EnergyDispersal;
use inner_interleaver::bit_interleaver::BitInterleaver;
use line::Line;
use outer::Serializer;
use pile::Pile;
use refusal::Refusal::{
    BufferShort, CellsWait, Closed, FirstByte, FrameOrParity, NotStarted, PacketLength,
    PartSuperFrame, PileUnfit, Started, UnknownConstellation, UnknownGuard, UnknownMode,
    UnknownRate,
};
use settings::Constellation;
use stage::Stage;
use std::process::Abort;

// A byte is a cell here.
const ANSWERS: [(Call, Answer); 43] = [
    (Call::Packet(188, 0x47), Err(NotStarted)),
    (Call::Cells(1), Err(NotStarted)),
    (Call::Close, Err(NotStarted)),
    (Call::Tps(1, 67), Err(NotStarted)),
    (Call::Start([2, 3, 5, 4]), Err(UnknownMode)),
    (Call::Start([1, 3, 5, 4]), Err(UnknownConstellation)),
    (Call::Start([1, 2, 5, 4]), Err(UnknownRate)),
    (Call::Start([1, 2, 4, 4]), Err(UnknownGuard)),
    (Call::Packet(188, 0x47), Err(NotStarted)),
    (Call::Start(KNOWN), Ok(0)),
    (Call::Start(KNOWN), Err(Started)),
    (Call::Start([2, 3, 5, 4]), Err(Started)),
    (Call::Tps(0, 67), Err(FrameOrParity)),
    (Call::Tps(5, 66), Err(FrameOrParity)),
    (Call::Tps(4, 66), Err(BufferShort)),
    (Call::Tps(4, 67), Ok(0)),
    (Call::Packet(187, 0x47), Err(PacketLength)),
    (Call::Packet(189, 0x48), Err(PacketLength)),
    (Call::Packet(188, 0x48), Err(FirstByte)),
    (Call::Cells(1), Ok(0)),
    (Call::Packet(188, 0x47), Ok(0)),
    (Call::Packet(187, 0x47), Err(PacketLength)),
    (Call::Packet(188, 0x48), Err(FirstByte)),
    (Call::Packet(188, 0x47), Err(CellsWait)),
    (Call::Close, Err(PartSuperFrame)),
    (Call::Cells(0), Ok(0)),
    (Call::Cells(1), Ok(1)),
    (Call::Cells(100), Ok(100)),
    (Call::Packet(188, 0x47), Err(CellsWait)),
    (Call::Cells(200), Ok(87)),
    (Call::Cells(200), Ok(0)),
    (Call::Packets(250), Ok(0)),
    (Call::Close, Err(PartSuperFrame)),
    (Call::Packet(188, 0x47), Ok(0)),
    (Call::Close, Err(CellsWait)),
    (Call::Cells(188), Ok(188)),
    (Call::Close, Ok(0)),
    (Call::Packet(187, 0x47), Err(Closed)),
    (Call::Close, Err(Closed)),
    (Call::Start(KNOWN), Err(Started)),
    (Call::Tps(1, 68), Ok(0)),
    (Call::Cells(2000), Ok(2000)),
    (Call::Cells(1), Ok(1)),
];

#[test]
fn calls(rt: HostRuntime) {
    check_line(
        &rt,
        Pile::new(EnergyDispersal::new(), EnergyDispersal::new()),
        &ANSWERS,
    );
}

// No packet is a multiple of a super-frame too.
const EMPTY: [(Call, Answer); 3] = [
    (Call::Start(KNOWN), Ok(0)),
    (Call::Close, Ok(0)),
    (Call::Close, Err(Closed)),
];

#[test]
fn close_of_nothing(rt: HostRuntime) {
    check_line(&rt, EnergyDispersal::new(), &EMPTY);
}

// One pile takes bits. In the other a byte doesn't fit the lower stage, so it takes nothing.
const UNFIT: [(Call, Answer); 4] = [
    (Call::Start([0, 0, 0, 4]), Err(UnknownGuard)),
    (Call::Start(KNOWN), Err(PileUnfit)),
    (Call::Start(KNOWN), Err(PileUnfit)),
    (Call::Packet(188, 0x47), Err(NotStarted)),
];

#[test]
fn pile_that_takes_no_bytes(rt: HostRuntime) {
    check_line(&rt, BitInterleaver::of(Constellation::Qpsk), &UNFIT);
    check_line(
        &rt,
        Pile::new(EnergyDispersal::new(), Serializer::new()),
        &[(Call::Start(KNOWN), Ok(0))],
    );
    check_line(
        &rt,
        Pile::new(
            EnergyDispersal::new(),
            BitInterleaver::of(Constellation::Qpsk),
        ),
        &UNFIT,
    );
}

// A packet is 1504 bits, a block 252 bits and 126 words: five blocks and 244 bits, and with the next packet's six.
const WORDS: [(Call, Answer); 7] = [
    (Call::Start(KNOWN), Ok(0)),
    (Call::Packet(188, 0x47), Ok(0)),
    (Call::Cells(2000), Ok(630)),
    (Call::Packet(188, 0x47), Ok(0)),
    (Call::Cells(700), Ok(700)),
    (Call::Packet(188, 0x47), Err(CellsWait)),
    (Call::Cells(700), Ok(56)),
];

#[test]
fn words_of_whole_blocks(rt: HostRuntime) {
    check_line(
        &rt,
        Pile::new(Serializer::new(), BitInterleaver::of(Constellation::Qpsk)),
        &WORDS,
    );
}

// The cells of one packet into a longer buffer.
fn check_cells<P: Stage + Drop>(rt: &impl Abort, pile: P, bytes: &[u8], cells: &[u8]) {
    let mut line = Line::new(pile);
    let mut buffer = [UNTOUCHED; 200];
    assert!(rt; line.start(&codes(KNOWN)).is_ok());
    assert!(rt; line.packet(bytes).is_ok());
    assert!(rt; line.cells(&mut buffer).is_ok());
    assert!(rt; buffer.starts_with(cells));
    check_rest(rt, &buffer, 188);
}

// What one dispersal combines, a second one takes off again.
#[test]
fn cells_are_the_bytes(rt: HostRuntime) {
    check_cells(
        &rt,
        Pile::new(EnergyDispersal::new(), EnergyDispersal::new()),
        &packet(),
        &packet(),
    );
}

// The first outputs of the register: docs/rules/outer-stages.md.
#[test]
fn cells_of_zeros(rt: HostRuntime) {
    let mut bytes = [0; 188];
    bytes[0] = 0x47;
    check_cells(
        &rt,
        EnergyDispersal::new(),
        &bytes,
        &[0xB8, 0x03, 0xF6, 0x08, 0x34],
    );
}
