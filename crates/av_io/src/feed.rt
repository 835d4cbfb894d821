//! Bytes in memory that come out in pieces.
ghost use Rattle.std.specs.Prelude.{◌<◌, ◌≤◌, vec_len};

/// Bytes of which those from `at` on are still to come, at most `most` in one call.
#[derive(Debug, Drop)]
pub(crate) struct Feed {
    bytes: Vec<u8>,
    at: usize,
    most: usize,
    ghost within: { at ≤ vec_len bytes },
    ghost some: { 0 < most },
}

impl Feed {
    ghost use Rattle.std.specs.Prelude.{◌≡◌, ◌<◌, ◌≤◌, [], ◌++◌, length, min, take, drop};
    ghost use Rattle.av_io.specs.Feed.{unread};

    pub(crate) fn new(bytes: Vec<u8>, most: usize) -> Feed
        requires { 0 < most }
        ensures left { unread result ≡ bytes.items }
        ensures most { result.most ≡ most }
    {
        Feed { bytes, at: 0, most }
    }

    /// Moves as many bytes as it may to the front of `into`, and says how many.
    pub(crate) fn read(&mut self, into: &mut [u8]) -> usize
        ensures bound { result ≤ length into.new }
        ensures count { result ≡
            min self.old.most (min (length into.old) (length (unread self.old))) }
        ensures bytes { unread self.old ≡ take result into.new ++ unread self.new }
        ensures end { result ≡ 0 → 0 < length into.new → unread self.new ≡ [] }
        ensures beyond { drop result into.new ≡ drop result into.old }
        ensures most { self.new.most ≡ self.old.most }
    {
        let left = self.bytes.len() - self.at;
        let count = self.most.min(into.len().min(left));
        let end = self.at + count;
        into[..count].copy_from_slice(&self.bytes[self.at..end]);
        self.at = end;
        count
    }
}
