//! A sink in memory that never fails.
ghost use Rattle.std.specs.Prelude.{◌≡◌, ◌<◌, ◌≤◌, ◌-◌, [], Some, Ok, length, min, max, IsOk, OnOk, OnErr};
ghost use Rattle.std.specs.Io.{WritesAtMost};
ghost use Rattle.std.specs.Io.KnownBytes.{WriteAppends};
ghost use Rattle.std.proofs.Common.{lit≤};
ghost use Rattle.av_io.specs.Devices.{HasCause, HasRoom, WriteUsesRoom};
ghost use Rattle.av_io.specs.PlainSink.{bytes_held, bytes_free, most_bytes};

use crate::device::{Failed, Sink};
use crate::store::Store;
use std::alloc::{AllocError, Global};

/// A sink in memory that never fails.
#[derive(Debug, Drop)]
pub struct PlainSink {
    store: Store,
}

impl PlainSink {
    /// A sink that holds nothing and has no room, and takes at most `most` bytes in one call.
    pub fn new(alloc: Global, most: usize) -> PlainSink
        requires { 0 < most }
        ensures held { bytes_held result ≡ [] }
        ensures free { bytes_free result ≡ 0 }
        ensures most { most_bytes result ≡ most }
    {
        PlainSink {
            store: Store::new(alloc, most),
        }
    }

    /// The bytes taken.
    pub fn bytes(&self) -> &[u8]
        ensures { result.now ≡ bytes_held self.now }
    {
        self.store.bytes()
    }
}

impl Sink for PlainSink {
    ghost held = { λ sink. Some (bytes_held sink) };

    ghost faults = { λ _. 0 };

    ghost room = { λ sink. Some (bytes_free sink) };

    ghost count_fits = { λ _. lit≤ tt };

    fn reserve(&mut self, n: usize) -> Result<(), AllocError>
        ensures made { OnOk result (bytes_free self.new ≡ max (bytes_free self.old) n) }
        ensures short { OnErr result (bytes_free self.new ≡ bytes_free self.old) }
        ensures needed { OnErr result (bytes_free self.old < n) }
        ensures held { bytes_held self.new ≡ bytes_held self.old }
        ensures most { most_bytes self.new ≡ most_bytes self.old }
    {
        self.store.reserve(n)
    }

    /// Takes as many bytes as the piece has and may be taken in one call. It takes no memory.
    fn write(&mut self, piece: &[u8]) -> Result<usize, Failed>
        requires { HasRoom (Some (bytes_free self.old)) (length piece.now) }
        ensures count { result ≡ Ok (min (most_bytes self.old) (length piece.now)) }
        ensures never_fails { IsOk result }
        ensures bound { WritesAtMost result piece.now }
        ensures bytes { WriteAppends (Some (bytes_held self.old)) (Some (bytes_held self.new))
            result piece.now }
        ensures room { WriteUsesRoom (Some (bytes_free self.old)) (Some (bytes_free self.new))
            result }
        ensures cause { HasCause 0 0 result }
        ensures most { most_bytes self.new ≡ most_bytes self.old }
    {
        Ok(self.store.write(piece))
    }
}
