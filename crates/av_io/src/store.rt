//! Memory that takes bytes in pieces.
ghost use Rattle.std.specs.Prelude.{◌+◌, ◌<◌, ◌≤◌, vec_len, vec_capacity};

use std::alloc::{AllocError, Global};

/// Bytes, and for how many more there is room; a call takes at most `most`.
#[derive(Debug, Drop)]
pub(crate) struct Store {
    bytes: Vec<u8>,
    room: usize,
    most: usize,
    ghost fits: { vec_len bytes + room ≤ vec_capacity bytes },
    ghost some: { 0 < most },
}

impl Store {
    ghost use Rattle.std.specs.Prelude.{◌≡◌, ◌-◌, ◌<◌, ◌≤◌, [], ◌++◌, length, min, max, take, OnOk, OnErr};

    pub(crate) fn new(alloc: Global, most: usize) -> Store
        requires { 0 < most }
        ensures held { result.bytes.items ≡ [] }
        ensures room { result.room ≡ 0 }
        ensures most { result.most ≡ most }
    {
        Store {
            bytes: Vec::new(alloc),
            room: 0,
            most,
        }
    }

    pub(crate) fn bytes(&self) -> &[u8]
        ensures { result.now ≡ self.now.bytes.items }
    {
        self.bytes.as_slice()
    }

    /// Makes room for `n` more bytes, if there is not.
    pub(crate) fn reserve(&mut self, n: usize) -> Result<(), AllocError>
        ensures ok { OnOk result (self.new.room ≡ max self.old.room n) }
        ensures err { OnErr result (self.new.room ≡ self.old.room) }
        ensures short { OnErr result (self.old.room < n) }
        ensures held { self.new.bytes.items ≡ self.old.bytes.items }
        ensures most { self.new.most ≡ self.old.most }
    {
        if self.room < n {
            self.bytes.reserve(n)?;
            self.room = n;
        }
        Ok(())
    }

    /// Takes as many bytes as it may from the front of `piece`, and says how many. It takes no
    /// memory.
    pub(crate) fn write(&mut self, piece: &[u8]) -> usize
        requires { length piece.now ≤ self.old.room }
        ensures count { result ≡ min self.old.most (length piece.now) }
        ensures held { self.new.bytes.items ≡ self.old.bytes.items ++ take result piece.now }
        ensures room { self.new.room ≡ self.old.room - result }
        ensures some { 0 < length piece.now → 0 < result }
        ensures most { self.new.most ≡ self.old.most }
    {
        let count = self.most.min(piece.len());
        self.bytes.extend_from_slice(&piece[..count]).unwrap();
        self.room -= count;
        count
    }
}
