//! A sink in memory that fails at listed calls.
ghost use Rattle.std.specs.Prelude.{◌≡◌, ◌<◌, ◌-◌, ◌↔◌, [], Some, length, min, max, IsErr, IfOk, OnOk, OnErr, Contains};
ghost use Rattle.std.specs.Io.{WritesAtMost};
ghost use Rattle.std.specs.Io.KnownBytes.{WriteAppends};
ghost use Rattle.av_io.specs.Devices.{HasCause, HasRoom, WriteUsesRoom, counted, faults_after};
ghost use Rattle.av_io.specs.MemSink.{bytes_held, bytes_free, most_bytes, calls_made, failing_calls, fault_count};

use crate::calls::Calls;
use crate::device::{Failed, Sink};
use crate::store::Store;
use std::alloc::{AllocError, Global};

/// A sink in memory whose writes fail at listed calls.
#[derive(Debug, Drop)]
pub struct MemSink {
    store: Store,
    calls: Calls,
}

impl MemSink {
    /// A sink that holds nothing and has no room, and takes at most `most` bytes in one call. The
    /// calls of `write` are numbered from 0, and those that `fails` lists fail. The numbers stand
    /// still at `u64::MAX`, which all later calls have too.
    pub fn new(alloc: Global, most: usize, fails: Vec<u64>) -> MemSink
        requires { 0 < most }
        ensures held { bytes_held result ≡ [] }
        ensures free { bytes_free result ≡ 0 }
        ensures most { most_bytes result ≡ most }
        ensures fails { failing_calls result ≡ fails.items }
        ensures calls { calls_made result ≡ 0 }
        ensures faults { fault_count result ≡ 0 }
    {
        MemSink {
            store: Store::new(alloc, most),
            calls: Calls::new(fails),
        }
    }

    /// The bytes taken.
    pub fn bytes(&self) -> &[u8]
        ensures { result.now ≡ bytes_held self.now }
    {
        self.store.bytes()
    }
}

impl Sink for MemSink {
    ghost held = { λ sink. Some (bytes_held sink) };

    ghost faults = { fault_count };

    ghost room = { λ sink. Some (bytes_free sink) };

    ghost count_fits = { λ sink. sink.calls.faults.fits };

    /// Makes room. It isn't counted among the calls.
    fn reserve(&mut self, n: usize) -> Result<(), AllocError>
        ensures made { OnOk result (bytes_free self.new ≡ max (bytes_free self.old) n) }
        ensures short { OnErr result (bytes_free self.new ≡ bytes_free self.old) }
        ensures needed { OnErr result (bytes_free self.old < n) }
        ensures held { bytes_held self.new ≡ bytes_held self.old }
        ensures calls { calls_made self.new ≡ calls_made self.old }
        ensures faults { fault_count self.new ≡ fault_count self.old }
        ensures fails { failing_calls self.new ≡ failing_calls self.old }
        ensures most { most_bytes self.new ≡ most_bytes self.old }
    {
        self.store.reserve(n)
    }

    /// Fails where this call is listed, and otherwise takes as many bytes as the piece has and may
    /// be taken in one call. It takes no memory.
    fn write(&mut self, piece: &[u8]) -> Result<usize, Failed>
        requires { HasRoom (Some (bytes_free self.old)) (length piece.now) }
        ensures bound { WritesAtMost result piece.now }
        ensures some { IfOk result (λ n. 0 < length piece.now → 0 < n) }
        ensures bytes { WriteAppends (Some (bytes_held self.old)) (Some (bytes_held self.new))
            result piece.now }
        ensures room { WriteUsesRoom (Some (bytes_free self.old)) (Some (bytes_free self.new))
            result }
        ensures cause { HasCause (fault_count self.old) (fault_count self.new) result }
        ensures listed { IsErr result ↔ Contains (failing_calls self.old) (calls_made self.old) }
        ensures count { IfOk result (λ n. n ≡ min (most_bytes self.old) (length piece.now)) }
        ensures calls { calls_made self.new ≡ counted (calls_made self.old) }
        ensures faults { fault_count self.new ≡ faults_after result (fault_count self.old) }
        ensures fails { failing_calls self.new ≡ failing_calls self.old }
        ensures most { most_bytes self.new ≡ most_bytes self.old }
    {
        if self.calls.next_fails() {
            return Err(Failed);
        }
        Ok(self.store.write(piece))
    }
}
