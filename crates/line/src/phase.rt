// A line's phase, with its frame once it is started, and the calls, which are matched together in one place (`admit`).
use super::frame::Frame;

#[derive(Clone, Copy)]
pub enum Phase {
    Idle,
    Open(Frame),
    Closing(Frame),
}

#[derive(Clone, Copy)]
pub enum Call {
    Start,
    Packet,
    Cells,
    Close,
    Tps,
}
