//! A sink over one of std's writers.
ghost use Rattle.std.specs.Prelude.{◌≡◌, ◌-◌, ◌<◌, None, length, IsOk, IfOk};
ghost use Rattle.std.specs.Io.{WritesAtMost};
ghost use Rattle.std.specs.Io.KnownBytes.{WriteAppends};
ghost use Rattle.av_io.specs.Devices.{HasCause, faults_after};
ghost use Rattle.av_io.specs.StdSink.{writer_of, fault_count};

use crate::count::Count;
use crate::device::{Failed, Sink};
use std::alloc::AllocError;
use std::io::Write;

/// A sink over a writer, as standard output. An `Err` of the writer, of whatever kind, is a fault,
/// and so is a write that takes nothing of a piece that isn't empty. It never flushes: give it a
/// writer that keeps no buffer, as `std::io::writer` makes.
#[derive(Drop)]
pub struct StdSink<W: Write> {
    writer: W,
    pub(crate) faults: Count,
}

impl<W: Write> StdSink<W> {
    /// A sink that writes to `writer`, and has had no fault.
    pub fn new(writer: W) -> StdSink<W>
        ensures writer { writer_of result ≡ writer }
        ensures faults { fault_count result ≡ 0 }
    {
        StdSink {
            writer,
            faults: Count::new(),
        }
    }
}

impl<W: Write> Sink for StdSink<W> {
    ghost held = { λ _. None };

    ghost faults = { fault_count };

    ghost room = { λ _. None };

    ghost count_fits = { λ sink. sink.faults.fits };

    /// Does nothing: a system has room, or its write fails.
    fn reserve(&mut self, _n: usize) -> Result<(), AllocError>
        ensures ok { IsOk result }
        ensures same { self.new ≡ self.old }
    {
        Ok(())
    }

    fn write(&mut self, piece: &[u8]) -> Result<usize, Failed>
        ensures bound { WritesAtMost result piece.now }
        ensures some { IfOk result (λ n. 0 < length piece.now → 0 < n) }
        ensures cause { HasCause (fault_count self.old) (fault_count self.new) result }
        ensures faults { fault_count self.new ≡ faults_after result (fault_count self.old) }

        // What the writer itself tells, if it does, grows as for any sink.
        ensures writer { WriteAppends (W.contents (writer_of self.old))
            (W.contents (writer_of self.new)) result piece.now }
    {
        match self.writer.write(piece) {
            Ok(count) if count > 0 || piece.is_empty() => Ok(count),
            _ => {
                self.faults.raise();
                Err(Failed)
            }
        }
    }
}
