// What the tool can be asked for: what a word names, matched once with its operands.
ghost use Rattle.bench.specs.Job.{Names};

use std::str::FromStr;

#[derive(Clone, Copy)]
pub enum Job {
    Send,
    Receive,
    Loop,
    Tps,
    Chart,
}

// A word that asks for no job.
#[derive(Clone, Copy)]
pub struct UnknownJob;

impl FromStr for Job {
    type Err = UnknownJob;

    ghost from_str_gives = { Names };

    fn from_str(word: &str) -> Result<Job, UnknownJob> {
        match word {
            "send" => Ok(Job::Send),
            "receive" => Ok(Job::Receive),
            "loop" => Ok(Job::Loop),
            "tps" => Ok(Job::Tps),
            "chart" => Ok(Job::Chart),
            _ => Err(UnknownJob),
        }
    }
}

impl Job {
    pub(crate) fn usage(self) -> &'static str {
        match self {
            Job::Send => "send RECORD PACKETS CELLS",
            Job::Receive => "receive RECORD CELLS PACKETS",
            Job::Loop => "loop RECORD PACKETS",
            Job::Tps => "tps RECORD",
            Job::Chart => "chart MODE PARITY",
        }
    }
}
