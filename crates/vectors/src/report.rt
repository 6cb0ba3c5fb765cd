// Prints the checks as they are made.
use relay::Stop;
use samples::{Check, Tally, naming};
use settings::Settings;
use std::alloc::Global;

#[derive(Drop)]
pub struct Report<'a> {
    rt: &'a HostRuntime,
    tally: Tally,
}

impl<'a> Report<'a> {
    pub(crate) fn new(rt: &'a HostRuntime) -> Report<'a> {
        Report {
            rt,
            tally: Tally::new(),
        }
    }

    pub(crate) fn heap(&self) -> Global {
        self.rt.alloc()
    }

    pub(crate) fn text(&mut self, name: &str, found: &str, expected: &str) -> Result<(), Stop> {
        let check = Check {
            name,
            found,
            expected,
        };
        self.tally.count(&check);
        print!(self.rt; "{check}")?;
        Ok(())
    }

    pub(crate) fn number(
        &mut self,
        what: &str,
        settings: &Settings,
        found: u64,
        expected: u64,
    ) -> Result<(), Stop> {
        let name = naming::of(self.heap(), what, settings)?;
        let found = found.to_string(self.heap())?;
        let expected = expected.to_string(self.heap())?;
        self.text(name.as_str(), found.as_str(), expected.as_str())
    }

    pub(crate) fn finish(&self) -> Result<(), Stop> {
        print!(self.rt; "{}", self.tally)?;
        Ok(())
    }
}
