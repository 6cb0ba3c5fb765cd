// Like the trait of vectors but for what is told of the work. One over both would be over that type, with the lifetime that it has.
// What is done over a pile is written for any pile. The standard pile is named in one function, `over_standard`.
use relay::Stop;
use settings::Settings;
use stage::Stage;
use standard::standard;

pub trait Work {
    fn over<P: Stage + Drop>(
        &self,
        rt: &HostRuntime,
        settings: &Settings,
        sending: P,
        receiving: P,
    ) -> Result<(), Stop>;
}

pub(crate) fn over_standard<W: Work>(
    rt: &HostRuntime,
    settings: &Settings,
    work: &W,
) -> Result<(), Stop> {
    work.over(rt, settings, standard(settings), standard(settings))
}
