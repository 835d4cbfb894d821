//! A text that grows at its end.
ghost use Rattle.std.specs.Prelude.{◌≡◌, [], ◌++◌, IfOk, decimal};
ghost use Rattle.std.specs.Fmt.{signed_decimal};
ghost use Rattle.av_printer.specs.Pieces.{spelt, comma_after, new_line};

use av_affine::{Seq, Text};
use itoa::Buffer;
use std::alloc::{AllocError, Global};
use std::marker::Model;

/// A text under way, which contracts see as its bytes.
#[derive(Drop)]
pub(crate) struct Writer {
    bytes: Vec<u8>,
}

impl Model for Writer {
    ghost use Rattle.std.specs.Prelude.{List, ℕ};

    ghost Value = { List ℕ };

    ghost view = { λ w. w.bytes.items };
}

impl Writer {
    pub(crate) fn new(alloc: Global) -> Writer
        ensures { result ≡ [] }
    {
        Writer {
            bytes: Vec::new(alloc),
        }
    }

    /// The text, in the memory of the writer.
    pub(crate) fn finish(self) -> Text
        ensures { result ≡ self }
    {
        let Writer { bytes } = self;
        Seq::from_vec(bytes)
    }

    pub(crate) fn alloc(&self) -> Global {
        *self.bytes.allocator()
    }

    pub(crate) fn push_bytes(&mut self, bytes: &[u8]) -> Result<(), AllocError>
        ensures { IfOk result (λ _. self.new ≡ self.old ++ bytes.now) }
    {
        self.bytes.extend_from_slice(bytes)?;
        Ok(())
    }

    pub(crate) fn push_text(&mut self, text: &Text) -> Result<(), AllocError>
        ensures { IfOk result (λ _. self.new ≡ self.old ++ text.now) }
    {
        self.push_bytes(text.as_slice())?;
        Ok(())
    }

    /// A comma, but before the first of several.
    pub(crate) fn push_comma_after(&mut self, before: usize) -> Result<(), AllocError>
        ensures { IfOk result (λ _. self.new ≡ self.old ++ spelt (comma_after before)) }
    {
        if before > 0 {
            self.push_bytes(b", ")?;
        }
        Ok(())
    }

    /// A number in decimal digits, with a `-` below 0.
    pub(crate) fn push_number(&mut self, value: i128) -> Result<(), AllocError>
        ensures { IfOk result (λ _. self.new ≡ self.old ++ signed_decimal value) }
    {
        let mut buffer = Buffer::new();
        self.push_bytes(buffer.format(value).as_bytes())?;
        Ok(())
    }

    pub(crate) fn push_digits(&mut self, value: u128) -> Result<(), AllocError>
        ensures { IfOk result (λ _. self.new ≡ self.old ++ decimal value) }
    {
        let mut buffer = Buffer::new();
        self.push_bytes(buffer.format(value).as_bytes())?;
        Ok(())
    }

    /// Ends a line, and begins one two blanks in for each region around it.
    pub(crate) fn push_line(&mut self, depth: usize) -> Result<(), AllocError>
        ensures { IfOk result (λ _. self.new ≡ self.old ++ spelt (new_line depth)) }
    {
        self.push_bytes(b"\n")?;
        for _inner in 0..depth {
            self.push_bytes(b"  ")?;
        }
        Ok(())
    }
}
