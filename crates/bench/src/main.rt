// The tool of calibration benches and network crews: broadcasts in files, signalling blocks and charts.
//
// A refusal is printed and ends well. What keeps a job from being done is told on standard error.

#![tactic(auto)]

mod comparison;
mod files;
mod job;
mod jobs;
mod perform;
mod sending;
mod text;
mod work;

use job::Job;
use perform::perform;
use receiver::Missed;
use relay::Stop;
use std::process::ExitCode;
use std::{env, io};
use text::Ended;

fn run(rt: &HostRuntime) -> Result<(), Stop> {
    let words: Vec<String> = env::args(rt)?.collect(rt.alloc())?;
    let [_, name, operands @ ..] = words.as_slice() else {
        rt.print(text::HELP)?;
        return Ok(());
    };
    let Ok(job) = name.parse::<Job>() else {
        let text = format!(in rt.alloc(); "{name}: no such job; bench alone lists the jobs")?;
        return Err(Stop::Wrong(text));
    };
    perform(rt, job, operands)
}

fn main(rt: HostRuntime) -> io::Result<ExitCode> {
    match run(&rt) {
        Ok(()) => Ok(ExitCode::SUCCESS),
        Err(Stop::Refused(refusal)) => {
            print!(rt; "{}", Ended(Missed::Refused(refusal)))?;
            Ok(ExitCode::SUCCESS)
        }
        Err(stop) => {
            eprintln!(rt; "bench: {stop}")?;
            Ok(ExitCode::FAILURE)
        }
    }
}
