// Where units go, in order: a file, a receiver, or a comparison.
ghost use Rattle.std.specs.Prelude.{◌≡◌, Ok, OnOk};
ghost use Rattle.std.specs.Io.Buffered.{writer_contents};
ghost use Rattle.std.specs.Io.KnownBytes.{Appends};

use std::io;
use std::io::{BufWriter, Write};

pub trait Sink {
    fn put(&mut self, units: &[u8]) -> io::Result<()>;
}

impl<W: Write + Drop> Sink for BufWriter<W> {
    fn put(&mut self, units: &[u8]) -> io::Result<()>
        ensures { OnOk result (Appends (writer_contents W.contents self.old) (writer_contents W.contents self.new) units.now) }
    {
        self.write_all(units)
    }
}

// Lets the units go.
impl Sink for io::Sink {
    fn put(&mut self, _units: &[u8]) -> io::Result<()>
        ensures { result ≡ Ok tt }
    {
        Ok(())
    }
}
