// The calls of a line, over any pile.
use super::packets::{LONG, UNTOUCHED, check_rest, codes};
use line::Line;
use refusal::Refusal;
use stage::Stage;
use std::process::Abort;

// Longer than the buffer of most calls, so that a write past it shows.
const ROOM: usize = 2000;

// A value and no closure, since one table is tried over piles of several types.
#[derive(Clone, Copy)]
pub enum Call {
    // With the codes of mode, constellation, rate and guard.
    Start([u8; 4]),
    // Of so many bytes of one kind.
    Packet(usize, u8),
    // Into so many bytes.
    Cells(usize),
    Close,
    // Of a frame, into so many bytes.
    Tps(u8, usize),
    // So many packets, with 188 cells taken after each.
    Packets(u32),
}

// The count of what was written where the call counts, else 0.
pub type Answer = Result<usize, Refusal>;

fn cells<P: Stage>(rt: &impl Abort, line: &mut Line<P>, buffer: &mut [u8], room: usize) -> Answer {
    let room = room.min(buffer.len());
    let answer = line.cells(&mut buffer[..room]);
    check_rest(rt, buffer, answer.unwrap_or(0));
    answer
}

fn tps<P: Stage>(
    rt: &impl Abort,
    line: &Line<P>,
    frame: u8,
    buffer: &mut [u8],
    room: usize,
) -> Result<(), Refusal> {
    let room = room.min(buffer.len());
    let answer = line.tps(frame, &mut buffer[..room]);
    check_rest(rt, buffer, if answer.is_ok() { 67 } else { 0 });
    answer
}

// A packet of the bytes at the front.
fn offer<P: Stage>(line: &mut Line<P>, bytes: &[u8], length: usize) -> Result<(), Refusal> {
    line.packet(&bytes[..length.min(bytes.len())])
}

fn packets<P: Stage>(rt: &impl Abort, line: &mut Line<P>, bytes: &[u8], count: u32) {
    for _ in 0..count {
        assert!(rt; line.packet(bytes).is_ok());
        assert_eq!(rt; cells(rt, line, &mut [UNTOUCHED; 188], 188), Ok(188));
    }
}

impl Call {
    fn make<P: Stage>(self, rt: &impl Abort, line: &mut Line<P>) -> Answer {
        match self {
            Call::Start(numbers) => line.start(&codes(numbers))?,
            Call::Packet(length, first) => offer(line, &[first; LONG], length)?,
            Call::Cells(room) => return cells(rt, line, &mut [UNTOUCHED; ROOM], room),
            Call::Close => line.close()?,
            Call::Tps(frame, room) => tps(rt, line, frame, &mut [UNTOUCHED; ROOM], room)?,
            Call::Packets(count) => packets(rt, line, &[0x47; 188], count),
        }
        Ok(0)
    }
}

// Makes the calls one after the other on a new line.
pub(crate) fn check_line<P: Stage + Drop>(rt: &impl Abort, pile: P, calls: &[(Call, Answer)]) {
    let mut line = Line::new(pile);
    for (call, answer) in calls {
        assert_eq!(rt; call.make(rt, &mut line), *answer);
    }
}
