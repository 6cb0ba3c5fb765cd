// The jobs.
use super::comparison::Comparison;
use super::text::{Ended, Received, Returned, Sent};
use super::work::Work;
use super::{files, sending};
use chart::{Mark, chart as write_chart};
use line::Line;
use receiver::{Missed, Receiver};
use relay::{Ears, Sink, Stop};
use settings::{Mode, Settings};
use stage::Stage;
use std::io::{BufWriter, Read, Write};
use tps::write_block;

const PACKETS: &str = "a file of packets, 188 bytes each";

const CELLS: &str = "a file of cells, one byte each";

// The files that a broadcast goes from and to.
#[derive(Clone, Copy)]
pub struct Sending<'a> {
    pub packets: &'a str,
    pub cells: &'a str,
}

#[derive(Clone, Copy)]
pub struct Receiving<'a> {
    pub cells: &'a str,
    pub packets: &'a str,
}

#[derive(Clone, Copy)]
pub struct ReturnTrip<'a> {
    pub packets: &'a str,
}

impl Work for Sending<'_> {
    fn over<P: Stage + Drop>(
        &self,
        rt: &HostRuntime,
        settings: &Settings,
        sending: P,
        _receiving: P,
    ) -> Result<(), Stop> {
        let mut input = files::open(rt, self.packets, PACKETS)?;
        let packets = files::packets(rt, self.packets, settings)?;
        let mut line = Line::new(sending);
        line.start(&settings.codes())?;
        let mut output = files::create(rt, self.cells)?;
        let cells = sending::send(rt, &mut line, packets, &mut input, &mut output)?;
        output.flush()?;
        let closing = settings.packets();
        print!(rt;
            "{}",
            Sent {
                packets,
                closing,
                cells
            }
        )?;
        Ok(())
    }
}

// Hears a file of cells, a piece at a time. Only the input knows where it ends, so the loop has no measure.
fn hear_all<R: Read, S: Sink, P: Stage>(
    rt: &impl Eprint,
    input: &mut R,
    ears: &mut Ears<P, S>,
) -> Result<(), Stop> {
    let mut piece = [0; 8192];
    for turn in 0..u64::MAX {
        let count = input.read(&mut piece)?;
        if count == 0 || ears.missed.is_some() {
            break;
        }
        ears.put(&piece[..count])?;
        if turn % 1_000 == 999 {
            let cells = ears.cells;
            let packets = ears.packets;
            eprintln!(rt; "{cells} cells, {packets} packets")?;
        }
    }
    if ears.missed.is_none() {
        ears.collect()?;
    }
    Ok(())
}

// What ended the hearing, if something did.
fn tell_missed(rt: &HostRuntime, missed: Option<Missed>) -> Result<(), Stop> {
    if let Some(missed) = missed {
        print!(rt; "{}", Ended(missed))?;
    }
    Ok(())
}

impl Work for Receiving<'_> {
    fn over<P: Stage + Drop>(
        &self,
        rt: &HostRuntime,
        settings: &Settings,
        _sending: P,
        receiving: P,
    ) -> Result<(), Stop> {
        let mut input = files::open(rt, self.cells, CELLS)?;
        let mut receiver = Receiver::new(receiving);
        receiver.start(&settings.codes())?;
        let output = files::create(rt, self.packets)?;
        let mut ears = Ears::new(receiver, output);
        hear_all(rt, &mut input, &mut ears)?;
        ears.sink.flush()?;
        let cells = ears.cells;
        let packets = ears.packets;
        print!(rt; "{}", Received { cells, packets })?;
        tell_missed(rt, ears.missed)
    }
}

impl Work for ReturnTrip<'_> {
    fn over<P: Stage + Drop>(
        &self,
        rt: &HostRuntime,
        settings: &Settings,
        sending: P,
        receiving: P,
    ) -> Result<(), Stop> {
        let mut input = files::open(rt, self.packets, PACKETS)?;
        let packets = files::packets(rt, self.packets, settings)?;
        let codes = settings.codes();
        let mut line = Line::new(sending);
        line.start(&codes)?;
        let mut receiver = Receiver::new(receiving);
        receiver.start(&codes)?;
        let original = files::open(rt, self.packets, PACKETS)?;
        let mut ears = Ears::new(receiver, Comparison::new(original, packets));
        let cells = sending::send(rt, &mut line, packets, &mut input, &mut ears)?;
        if ears.missed.is_none() {
            ears.collect()?;
        }
        let returned = ears.packets;
        print!(rt;
            "{}",
            Returned {
                packets,
                cells,
                returned
            }
        )?;
        tell_missed(rt, ears.missed)?;
        print!(rt; "{}", ears.sink.verdict())?;
        Ok(())
    }
}

pub(crate) fn tps(rt: &HostRuntime, settings: &Settings) -> Result<(), Stop> {
    let mut block = [0; 67];
    for frame in 1..=4u8 {
        write_block(settings, frame, &mut block)?;
        for bit in &block {
            rt.print(*bit)?;
        }
        rt.println("")?;
    }
    Ok(())
}

fn number(rt: &HostRuntime, word: &str) -> Result<u8, Stop> {
    let Ok(number) = word.parse::<u8>() else {
        let text = format!(in rt.alloc();
            "{word}: no number from 0 to 255; give mode and parity as 0 or 1"
        )?;
        return Err(Stop::Wrong(text));
    };
    Ok(number)
}

pub(crate) fn chart(rt: &HostRuntime, mode: &str, parity: &str) -> Result<(), Stop> {
    let code = number(rt, mode)?;
    let parity = number(rt, parity)?;
    let mut marks = [Mark {
        before: 0,
        after: 0,
    }; 6048];
    write_chart(code, parity, &mut marks)?;
    let words = Mode::try_from(code)?.symbol_cells() as usize;
    let mut output = BufWriter::new(rt.alloc(), rt.stdout())?;
    for Mark { before, after } in marks.iter().take(words) {
        writeln!(output, "{before} {after}")?;
    }
    output.flush()?;
    Ok(())
}
