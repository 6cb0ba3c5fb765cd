// A broadcast of two super-frames of made packets and the closing one, heard back, over any pile.
use super::listener::Listener;
use super::report::Report;
use super::trial::Trial;
use line::Line;
use receiver::Receiver;
use relay::{Sink, Stop};
use samples::expected::Expected;
use samples::{Digest, Generator, Returns};
use settings::Settings;
use stage::Stage;

// A sample by its number, with the digests that it has to have.
#[derive(Clone, Copy)]
pub struct Broadcast {
    pub number: u8,
    pub expected: Expected,
}

pub(crate) fn started<P: Stage + Drop>(settings: &Settings, sending: P) -> Result<Line<P>, Stop> {
    let mut line = Line::new(sending);
    line.start(&settings.codes())?;
    Ok(line)
}

fn listening<P: Stage + Drop>(
    settings: &Settings,
    receiving: P,
    returns: Returns,
) -> Result<Listener<P>, Stop> {
    let mut receiver = Receiver::new(receiving);
    receiver.start(&settings.codes())?;
    Ok(Listener::new(receiver, returns))
}

// Made packets, over a line that is started.
pub(crate) fn send<P: Stage, S: Sink>(
    line: &mut Line<P>,
    seed: u32,
    packets: u32,
    sink: &mut S,
) -> Result<(), Stop> {
    let mut generator = Generator::new(seed);
    for _ in 0..packets {
        relay::send(line, &generator.packet(), sink)?;
    }
    Ok(())
}

// The digest of the signalling blocks of frames 1 to 4.
fn signalling<P: Stage>(line: &Line<P>) -> Result<u64, Stop> {
    let mut digest = Digest::new();
    let mut block = [0; 67];
    for frame in 1..=4u8 {
        line.tps(frame, &mut block)?;
        digest.add(&block);
    }
    Ok(digest.value)
}

// Each sample has a seed of its own.
impl Trial for Broadcast {
    fn over<P: Stage + Drop>(
        &self,
        report: &mut Report,
        settings: &Settings,
        sending: P,
        receiving: P,
    ) -> Result<(), Stop> {
        let seed = u32::from(self.number) + 1;
        let sent = settings.packets().saturating_mul(2);
        let mut line = started(settings, sending)?;
        let mut listener = listening(settings, receiving, Returns::new(seed, sent))?;
        send(&mut line, seed, sent, &mut listener)?;
        relay::close(&mut line, &mut listener)?;
        listener.ears.collect()?;
        let cells = listener.digest.value;
        let back = u64::from(listener.ears.sink.returns.back);
        let signalling = signalling(&line)?;
        report.number("cells", settings, cells, self.expected.cells)?;
        report.number("packets back", settings, back, u64::from(sent))?;
        report.number("signalling", settings, signalling, self.expected.tps)
    }
}
