//! A source over one of std's readers.
ghost use Rattle.std.specs.Prelude.{◌≡◌, ◌-◌, ◌<◌, None};
ghost use Rattle.std.specs.Io.{ReadsAtMost};
ghost use Rattle.std.specs.Io.KnownBytes.{ReadConsumes};
ghost use Rattle.av_io.specs.Devices.{HasCause, counted, faults_after};
ghost use Rattle.av_io.specs.StdSource.{reader_of, calls_made, fault_count};

use crate::count::Count;
use crate::device::{Failed, Source};
use std::io::Read;

/// A source over a reader, as standard input. An `Err` of the reader, of whatever kind, is a fault:
/// an interrupted read too, which isn't tried again.
#[derive(Drop)]
pub struct StdSource<R: Read> {
    reader: R,
    pub(crate) made: Count,
    pub(crate) faults: Count,
}

impl<R: Read> StdSource<R> {
    /// A source that reads from `reader`, and has made no read and had no fault.
    pub fn new(reader: R) -> StdSource<R>
        ensures reader { reader_of result ≡ reader }
        ensures calls { calls_made result ≡ 0 }
        ensures faults { fault_count result ≡ 0 }
    {
        StdSource {
            reader,
            made: Count::new(),
            faults: Count::new(),
        }
    }
}

impl<R: Read> Source for StdSource<R> {
    ghost left = { λ _. None };

    ghost calls = { calls_made };

    ghost faults = { fault_count };

    ghost count_fits = { λ source. source.faults.fits };

    fn read(&mut self, into: &mut [u8]) -> Result<usize, Failed>
        ensures bound { ReadsAtMost result into.new }
        ensures cause { HasCause (fault_count self.old) (fault_count self.new) result }
        ensures calls { calls_made self.new ≡ counted (calls_made self.old) }
        ensures faults { fault_count self.new ≡ faults_after result (fault_count self.old) }

        // What the reader itself tells, if it does, moves as for any source.
        ensures reader { ReadConsumes (R.remaining (reader_of self.old))
            (R.remaining (reader_of self.new)) result into.new }
    {
        self.made.raise();
        match self.reader.read(into) {
            Ok(count) => Ok(count),
            Err(_) => {
                self.faults.raise();
                Err(Failed)
            }
        }
    }
}
