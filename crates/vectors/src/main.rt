// The coder against what EN 300 744 prints and against a second implementation: a line for each check, and a last one with the counts.

#![tactic(auto)]

mod annex;
mod exchange;
mod listener;
mod packets;
mod refusals;
mod report;
mod trial;

use exchange::Broadcast;
use relay::Stop;
use report::Report;
use samples::expected::EXPECTED;
use samples::sample;
use settings::Settings;
use std::io;
use std::process::ExitCode;
use trial::run_trial;

fn broadcasts(report: &mut Report) -> Result<(), Stop> {
    for (number, expected) in (0u8..).zip(&EXPECTED) {
        let settings = Settings::try_from(&sample::codes(number))?;
        let expected = *expected;
        run_trial(report, &settings, &Broadcast { number, expected })?;
    }
    Ok(())
}

fn run(rt: &HostRuntime) -> Result<(), Stop> {
    let mut report = Report::new(rt);
    packets::check(&mut report)?;
    annex::check(&mut report)?;
    refusals::check(&mut report)?;
    broadcasts(&mut report)?;
    report.finish()
}

fn main(rt: HostRuntime) -> io::Result<ExitCode> {
    match run(&rt) {
        Ok(()) => Ok(ExitCode::SUCCESS),
        Err(stop) => {
            eprintln!(rt; "vectors: {stop}")?;
            Ok(ExitCode::FAILURE)
        }
    }
}
