// The calls of a receiver, over any pile.
use super::packets::{LONG, UNTOUCHED, check_rest, codes, packet};
use receiver::{Missed, Receiver};
use stage::Stage;
use std::process::Abort;

// A value and no closure, since one table is tried over piles of several types. The few lines that are as a line's would be longer as a trait.
#[derive(Clone, Copy)]
pub enum Call {
    // With the codes of mode, constellation, rate and guard.
    Start([u8; 4]),
    Hear(u8),
    // Into so many bytes.
    Collect(usize),
    // So many bytes from a place of a packet, which are cells.
    HearFrom(usize, usize),
}

// The count of what was collected where the call collects, else 0.
pub type Answer = Result<usize, Missed>;

// A packet that is collected has to be the one heard.
fn collect<P: Stage>(
    rt: &impl Abort,
    receiver: &mut Receiver<P>,
    buffer: &mut [u8],
    room: usize,
) -> Answer {
    let room = room.min(buffer.len());
    let answer = receiver.collect(&mut buffer[..room]);
    check_rest(rt, buffer, answer.unwrap_or(0));
    assert!(rt; answer != Ok(188) || buffer.starts_with(&packet()));
    answer
}

fn hear_from<P: Stage>(rt: &impl Abort, receiver: &mut Receiver<P>, from: usize, to: usize) {
    for cell in packet().iter().take(to).skip(from) {
        assert!(rt; receiver.hear(*cell).is_ok());
    }
}

impl Call {
    fn make<P: Stage>(self, rt: &impl Abort, receiver: &mut Receiver<P>) -> Answer {
        match self {
            Call::Start(numbers) => receiver.start(&codes(numbers))?,
            Call::Hear(cell) => receiver.hear(cell)?,
            Call::Collect(room) => return collect(rt, receiver, &mut [UNTOUCHED; LONG], room),
            Call::HearFrom(from, to) => hear_from(rt, receiver, from, to),
        }
        Ok(0)
    }
}

// Makes the calls one after the other on a new receiver.
pub(crate) fn check_receiver<P: Stage + Drop>(rt: &impl Abort, pile: P, calls: &[(Call, Answer)]) {
    let mut receiver = Receiver::new(pile);
    for (call, answer) in calls {
        assert_eq!(rt; call.make(rt, &mut receiver), *answer);
    }
}
