// The numbers by which the outside knows the refusals of line and receiver: docs/rules/settings.md.
use refusal::Refusal;

const NUMBERS: [(Refusal, u8); 16] = [
    (Refusal::UnknownMode, 11),
    (Refusal::UnknownConstellation, 12),
    (Refusal::UnknownRate, 13),
    (Refusal::UnknownGuard, 14),
    (Refusal::PacketLength, 15),
    (Refusal::BufferShort, 16),
    (Refusal::FrameOrParity, 17),
    (Refusal::UnitTooLarge, 21),
    (Refusal::SomethingWaits, 22),
    (Refusal::NotStarted, 30),
    (Refusal::CellsWait, 31),
    (Refusal::FirstByte, 32),
    (Refusal::PartSuperFrame, 33),
    (Refusal::Closed, 34),
    (Refusal::Started, 35),
    (Refusal::PileUnfit, 36),
];

#[test]
fn numbers(rt: HostRuntime) {
    for (refusal, number) in &NUMBERS {
        assert_eq!(rt; refusal.number(), *number);
    }
}
