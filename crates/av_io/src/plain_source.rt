//! A source in memory that never fails.
ghost use Rattle.std.specs.Prelude.{◌≡◌, ◌<◌, ◌≤◌, ◌-◌, Some, Ok, length, min, IsOk};
ghost use Rattle.std.specs.Io.{ReadsAtMost};
ghost use Rattle.std.specs.Io.KnownBytes.{ReadConsumes};
ghost use Rattle.std.proofs.Common.{lit≤};
ghost use Rattle.av_io.specs.Devices.{HasCause, counted};
ghost use Rattle.av_io.specs.PlainSource.{bytes_left, most_bytes, calls_made};

use crate::count::Count;
use crate::device::{Failed, Source};
use crate::feed::Feed;

/// A source in memory that never fails.
#[derive(Debug, Drop)]
pub struct PlainSource {
    feed: Feed,
    made: Count,
}

impl PlainSource {
    /// A source of these bytes, which gives at most `most` of them in one call.
    pub fn new(bytes: Vec<u8>, most: usize) -> PlainSource
        requires { 0 < most }
        ensures left { bytes_left result ≡ bytes.items }
        ensures most { most_bytes result ≡ most }
        ensures calls { calls_made result ≡ 0 }
    {
        PlainSource {
            feed: Feed::new(bytes, most),
            made: Count::new(),
        }
    }
}

impl Source for PlainSource {
    ghost left = { λ source. Some (bytes_left source) };

    ghost calls = { calls_made };

    ghost faults = { λ _. 0 };

    ghost count_fits = { λ _. lit≤ tt };

    /// Reads as many bytes as are left, fit `into` and may come in one call.
    fn read(&mut self, into: &mut [u8]) -> Result<usize, Failed>
        ensures bound { ReadsAtMost result into.new }
        ensures bytes { ReadConsumes (Some (bytes_left self.old)) (Some (bytes_left self.new))
            result into.new }
        ensures cause { HasCause 0 0 result }
        ensures never_fails { IsOk result }
        ensures count { result ≡
            Ok (min (most_bytes self.old) (min (length into.old) (length (bytes_left self.old)))) }
        ensures calls { calls_made self.new ≡ counted (calls_made self.old) }
        ensures most { most_bytes self.new ≡ most_bytes self.old }
    {
        self.made.raise();
        Ok(self.feed.read(into))
    }
}
