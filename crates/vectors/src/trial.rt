// What is tried over a pile is written for any pile. The standard pile is named in one function, `run_trial`.
use super::report::Report;
use relay::Stop;
use settings::Settings;
use stage::Stage;
use standard::standard;

pub trait Trial {
    fn over<P: Stage + Drop>(
        &self,
        report: &mut Report,
        settings: &Settings,
        sending: P,
        receiving: P,
    ) -> Result<(), Stop>;
}

pub(crate) fn run_trial<T: Trial>(
    report: &mut Report,
    settings: &Settings,
    trial: &T,
) -> Result<(), Stop> {
    trial.over(report, settings, standard(settings), standard(settings))
}
