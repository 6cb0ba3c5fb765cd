// What is refused, and what only just isn't.
use super::exchange::{send, started};
use super::report::Report;
use super::trial::{Trial, run_trial};
use receiver::Receiver;
use refusal::Refusal;
use relay::Stop;
use samples::{naming, table_16};
use settings::Settings;
use stage::Stage;
use std::io;

// Words of QPSK have two bits.
#[derive(Clone, Copy)]
pub struct QpskCells;

#[derive(Clone, Copy)]
pub struct Close {
    name: &'static str,
    packets: u32,
    expected: &'static str,
}

// Super-frames are whole. The expected answers are texts, so that the number of a refusal is checked too.
const CLOSES: [Close; 3] = [
    Close {
        name: "close after 0 of 252 packets",
        packets: 0,
        expected: "accepted",
    },
    Close {
        name: "close after 251 of 252 packets",
        packets: 251,
        expected: "refused 33",
    },
    Close {
        name: "close after 252 of 252 packets",
        packets: 252,
        expected: "accepted",
    },
];

fn check_answer(
    report: &mut Report,
    name: &str,
    answer: Result<(), Refusal>,
    expected: &str,
) -> Result<(), Stop> {
    let found = naming::of_answer(report.heap(), answer)?;
    report.text(name, found.as_str(), expected)
}

impl Trial for QpskCells {
    fn over<P: Stage + Drop>(
        &self,
        report: &mut Report,
        settings: &Settings,
        _sending: P,
        receiving: P,
    ) -> Result<(), Stop> {
        let mut receiver = Receiver::new(receiving);
        receiver.start(&settings.codes())?;
        check_answer(report, "QPSK cell 3", receiver.hear(3), "accepted")?;
        check_answer(report, "QPSK cell 4", receiver.hear(4), "refused 21")
    }
}

impl Trial for Close {
    fn over<P: Stage + Drop>(
        &self,
        report: &mut Report,
        settings: &Settings,
        sending: P,
        _receiving: P,
    ) -> Result<(), Stop> {
        let mut line = started(settings, sending)?;
        send(&mut line, 1, self.packets, &mut io::sink())?;
        check_answer(report, self.name, line.close(), self.expected)
    }
}

fn check_closes(report: &mut Report, settings: &Settings) -> Result<(), Stop> {
    for close in &CLOSES {
        run_trial(report, settings, close)?;
    }
    Ok(())
}

// In 2K, QPSK, 1/2.
pub(crate) fn check(report: &mut Report) -> Result<(), Stop> {
    let settings = Settings::try_from(&table_16::codes(0, 0))?;
    run_trial(report, &settings, &QpskCells)?;
    check_closes(report, &settings)
}
