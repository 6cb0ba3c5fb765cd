// Files, with messages that say what to give.
ghost use Rattle.std.specs.Prelude.{◌≡◌};
ghost use Rattle.bench.specs.Files.{whole_packets};

use relay::Stop;
use settings::Settings;
use std::fs::File;
use std::io::{BufReader, BufWriter, Read};
use std::{fs, io};

// A `match` here and below, and no `map_err`: a text wants memory, which can run out.
fn given(rt: &HostRuntime, path: &str, found: io::Result<File>, what: &str) -> Result<File, Stop> {
    match found {
        Ok(file) => Ok(file),
        Err(error) => {
            let text = format!(in rt.alloc(); "{path}: {error}; give {what}")?;
            Err(Stop::Wrong(text))
        }
    }
}

pub(crate) fn open(rt: &HostRuntime, path: &str, what: &str) -> Result<BufReader<File>, Stop> {
    let file = given(rt, path, File::open(rt, path), what)?;
    Ok(BufReader::new(rt.alloc(), file)?)
}

pub(crate) fn create(rt: &HostRuntime, path: &str) -> Result<BufWriter<File>, Stop> {
    let file = given(
        rt,
        path,
        File::create(rt, path),
        "a file that can be written",
    )?;
    Ok(BufWriter::new(rt.alloc(), file)?)
}

// One byte more than a record has is read, so that a longer file is seen to be none.
pub(crate) fn settings(rt: &HostRuntime, path: &str) -> Result<Settings, Stop> {
    let file = open(rt, path, "a settings record of 10 bytes")?;
    let mut record = Vec::new(rt.alloc());
    file.take(11).read_to_end(&mut record)?;
    Ok(Settings::try_from(record.as_slice())?)
}

// The packets in so many bytes, where they are whole super-frames.
fn whole_packets(length: u64, super_frame: u32) -> Option<u64>
    ensures { result ≡ whole_packets length super_frame }
{
    if super_frame == 0 || length % (188 * u64::from(super_frame)) != 0 {
        return None;
    }
    Some(length / 188)
}

// How many packets a file has.
pub(crate) fn packets(rt: &HostRuntime, path: &str, settings: &Settings) -> Result<u64, Stop> {
    let length = fs::metadata(rt, path)?.len();
    let super_frame = settings.packets();
    match whole_packets(length, super_frame) {
        Some(packets) => Ok(packets),
        None => {
            let text = format!(in rt.alloc();
                "{path}: {length} bytes aren't whole super-frames; give a multiple of {super_frame} packets of 188 bytes",
            )?;
            Err(Stop::Wrong(text))
        }
    }
}
