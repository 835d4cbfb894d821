//! A source in memory that fails at listed calls.
ghost use Rattle.std.specs.Prelude.{◌≡◌, ◌<◌, ◌-◌, ◌↔◌, Some, length, min, IsErr, IfOk, Contains};
ghost use Rattle.std.specs.Io.{ReadsAtMost};
ghost use Rattle.std.specs.Io.KnownBytes.{ReadConsumes};
ghost use Rattle.av_io.specs.Devices.{HasCause, counted, faults_after};
ghost use Rattle.av_io.specs.MemSource.{bytes_left, most_bytes, calls_made, failing_calls, fault_count};

use crate::calls::Calls;
use crate::device::{Failed, Source};
use crate::feed::Feed;

/// A source in memory whose reads fail at listed calls.
#[derive(Debug, Drop)]
pub struct MemSource {
    feed: Feed,
    calls: Calls,
}

impl MemSource {
    /// A source of these bytes, which gives at most `most` of them in one call. The calls of
    /// `read` are numbered from 0, and those that `fails` lists fail. The numbers stand still at
    /// `u64::MAX`, which all later calls have too.
    pub fn new(bytes: Vec<u8>, most: usize, fails: Vec<u64>) -> MemSource
        requires { 0 < most }
        ensures left { bytes_left result ≡ bytes.items }
        ensures most { most_bytes result ≡ most }
        ensures fails { failing_calls result ≡ fails.items }
        ensures calls { calls_made result ≡ 0 }
        ensures faults { fault_count result ≡ 0 }
    {
        MemSource {
            feed: Feed::new(bytes, most),
            calls: Calls::new(fails),
        }
    }
}

impl Source for MemSource {
    ghost left = { λ source. Some (bytes_left source) };

    ghost calls = { calls_made };

    ghost faults = { fault_count };

    ghost count_fits = { λ source. source.calls.faults.fits };

    /// Fails where this call is listed, and otherwise reads as many bytes as are left, fit `into`
    /// and may come in one call.
    fn read(&mut self, into: &mut [u8]) -> Result<usize, Failed>
        ensures bound { ReadsAtMost result into.new }
        ensures bytes { ReadConsumes (Some (bytes_left self.old)) (Some (bytes_left self.new))
            result into.new }
        ensures cause { HasCause (fault_count self.old) (fault_count self.new) result }
        ensures listed { IsErr result ↔ Contains (failing_calls self.old) (calls_made self.old) }
        ensures count { IfOk result (λ n. n ≡
            min (most_bytes self.old) (min (length into.old) (length (bytes_left self.old)))) }
        ensures calls { calls_made self.new ≡ counted (calls_made self.old) }
        ensures faults { fault_count self.new ≡ faults_after result (fault_count self.old) }
        ensures fails { failing_calls self.new ≡ failing_calls self.old }
        ensures most { most_bytes self.new ≡ most_bytes self.old }
    {
        if self.calls.next_fails() {
            return Err(Failed);
        }
        Ok(self.feed.read(into))
    }
}
