// Sends a stream of packets and the closing super-frame, and puts every cell into a sink.
use line::Line;
use relay::{Sink, Stop};
use stage::Stage;
use std::io::Read;

// Over a line that is started; answers the number of cells.
pub(crate) fn send<P: Stage, R: Read, S: Sink>(
    rt: &impl Eprint,
    line: &mut Line<P>,
    packets: u64,
    input: &mut R,
    sink: &mut S,
) -> Result<u64, Stop> {
    let mut packet = [0; 188];
    let mut cells: u64 = 0;
    for sent in 1..=packets {
        input.read_exact(&mut packet)?;
        cells = cells.saturating_add(relay::send(line, &packet, sink)?);
        if sent % 10_000 == 0 {
            eprintln!(rt; "{sent} of {packets} packets")?;
        }
    }
    Ok(cells.saturating_add(relay::close(line, sink)?))
}
