// The example of EN 300 744, annex C: which input bits stand in which cells of an even symbol.
//
// An input bit is told by the digits of its number. Each digit takes a symbol of its own, from interleavers that are new, the highest digit first.
use super::report::Report;
use inner_interleaver::bit_interleaver::BitInterleaver;
use inner_interleaver::symbol_interleaver::SymbolInterleaver;
use relay::Stop;
use samples::annex_c;
use samples::annex_c::Printed;
use settings::{Constellation, Mode};
use stage::Stage;
use std::alloc::{AllocError, Global};

// Puts what waits after the units so far.
fn take_all<S: Stage>(stage: &mut S, units: &mut Vec<u8>) -> Result<(), AllocError> {
    while let Some(unit) = stage.send_take() {
        units.push(unit)?;
    }
    Ok(())
}

// Puts what a stage sends for some units after the units so far.
fn send<S: Stage>(stage: &mut S, units: &[u8], sent: &mut Vec<u8>) -> Result<(), AllocError> {
    for unit in units {
        let _ = stage.send_offer(*unit);
        take_all(stage, sent)?;
    }
    Ok(())
}

// Puts the cells of a symbol after those so far. Its input bits are a digit of their numbers.
fn add_symbol(heap: Global, place: u8, cells: &mut Vec<u8>) -> Result<(), AllocError> {
    let bits: Vec<u8> = (0..9072u16)
        .map(|number| annex_c::digit(number, place))
        .collect(heap)?;
    let mut words = Vec::new(heap);
    let mut interleaver = BitInterleaver::of(Constellation::Qam64);
    send(&mut interleaver, bits.as_slice(), &mut words)?;
    let mut symbols = SymbolInterleaver::of(Mode::TwoK, Constellation::Qam64);
    send(&mut symbols, words.as_slice(), cells)
}

fn check_printed(report: &mut Report, printed: &Printed, cells: &[u8]) -> Result<(), Stop> {
    let carrier = printed.carrier;
    let name = format!(in report.heap(); "annex C, carrier {carrier}")?;
    let bits = annex_c::bits(cells, annex_c::cell(carrier));
    let found = annex_c::list(report.heap(), &bits)?;
    let expected = annex_c::list(report.heap(), &printed.bits)?;
    report.text(name.as_str(), found.as_str(), expected.as_str())
}

fn check_table(report: &mut Report, cells: &[u8]) -> Result<(), Stop> {
    for printed in &annex_c::TABLE {
        check_printed(report, printed, cells)?;
    }
    Ok(())
}

pub(crate) fn check(report: &mut Report) -> Result<(), Stop> {
    let mut cells = Vec::new(report.heap());
    for place in (0..14u8).rev() {
        add_symbol(report.heap(), place, &mut cells)?;
    }
    check_table(report, cells.as_slice())
}
