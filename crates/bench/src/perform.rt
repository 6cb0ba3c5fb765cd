// Each job with its operands.
use super::job::Job;
use super::jobs::{Receiving, ReturnTrip, Sending};
use super::work::{Work, over_standard};
use super::{files, jobs};
use relay::Stop;

fn broadcast<W: Work>(rt: &HostRuntime, record: &str, work: &W) -> Result<(), Stop> {
    let settings = files::settings(rt, record)?;
    over_standard(rt, &settings, work)
}

pub(crate) fn perform(rt: &HostRuntime, job: Job, operands: &[String]) -> Result<(), Stop> {
    match (job, operands) {
        (Job::Send, [record, packets, cells]) => {
            let packets = packets.as_str();
            let cells = cells.as_str();
            broadcast(rt, record.as_str(), &Sending { packets, cells })
        }
        (Job::Receive, [record, cells, packets]) => {
            let packets = packets.as_str();
            let cells = cells.as_str();
            broadcast(rt, record.as_str(), &Receiving { cells, packets })
        }
        (Job::Loop, [record, packets]) => {
            let packets = packets.as_str();
            broadcast(rt, record.as_str(), &ReturnTrip { packets })
        }
        (Job::Tps, [record]) => {
            let settings = files::settings(rt, record.as_str())?;
            jobs::tps(rt, &settings)
        }
        (Job::Chart, [mode, parity]) => jobs::chart(rt, mode.as_str(), parity.as_str()),
        (job, _) => {
            let usage = job.usage();
            let text = format!(in rt.alloc(); "wrong number of arguments; give: bench {usage}")?;
            Err(Stop::Wrong(text))
        }
    }
}
