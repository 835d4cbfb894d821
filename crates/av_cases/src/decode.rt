//! Escapes in a value.

use crate::fault::Why;
use std::alloc::Global;

/// The bytes that a value stands for.
pub(crate) fn decoded(alloc: Global, value: &str) -> Result<Vec<u8>, Why> {
    let mut decoder = Decoder::new(alloc);
    for byte in value.bytes() {
        decoder.take(byte)?;
    }
    decoder.finish()
}

// What the next byte goes on.
#[derive(Clone, Copy)]
enum State {
    Plain,
    // Behind a backslash.
    Escape,
    // Behind `\x`.
    High,
    // Behind `\x` and a digit of this value.
    Low(u8),
    // Behind `\{` and the digits of this number.
    Count(usize),
}

#[derive(Drop)]
struct Decoder {
    bytes: Vec<u8>,
    // What is repeated so often, up to the `}`.
    repeated: Option<usize>,
    piece: Vec<u8>,
    state: State,
}

impl Decoder {
    fn new(alloc: Global) -> Decoder {
        Decoder {
            bytes: Vec::new(alloc),
            repeated: None,
            piece: Vec::new(alloc),
            state: State::Plain,
        }
    }

    fn take(&mut self, byte: u8) -> Result<(), Why> {
        match self.state {
            State::Plain => self.plain(byte),
            State::Escape => self.escape(byte),
            State::High => {
                self.state = State::Low(hex_value(byte)?);
                Ok(())
            }
            State::Low(high) => {
                let low = hex_value(byte)?;
                self.put(high.wrapping_mul(16) | low)
            }
            State::Count(count) => self.count(count, byte),
        }
    }

    fn plain(&mut self, byte: u8) -> Result<(), Why> {
        match (byte, self.repeated) {
            (b'\\', _) => {
                self.state = State::Escape;
                Ok(())
            }
            (b'}', Some(count)) => self.repeat(count),
            _ => self.put(byte),
        }
    }

    fn escape(&mut self, byte: u8) -> Result<(), Why> {
        match byte {
            b'n' => self.put(b'\n'),
            b't' => self.put(b'\t'),
            b'r' => self.put(b'\r'),
            b'\\' | b'}' => self.put(byte),
            b'x' => {
                self.state = State::High;
                Ok(())
            }
            b'{' if self.repeated.is_none() => {
                self.state = State::Count(0);
                Ok(())
            }
            _ => Err(Why::BadEscape),
        }
    }

    fn count(&mut self, count: usize, byte: u8) -> Result<(), Why> {
        if byte == b':' {
            self.repeated = Some(count);
            self.state = State::Plain;
            return Ok(());
        }
        if !byte.is_ascii_digit() {
            return Err(Why::BadEscape);
        }
        let digit = usize::from(byte.wrapping_sub(b'0'));
        self.state = State::Count(count.saturating_mul(10).saturating_add(digit));
        Ok(())
    }

    fn put(&mut self, byte: u8) -> Result<(), Why> {
        self.state = State::Plain;
        if self.repeated.is_some() {
            self.piece.push(byte)?;
        } else {
            self.bytes.push(byte)?;
        }
        Ok(())
    }

    fn repeat(&mut self, count: usize) -> Result<(), Why> {
        for _ in 0..count {
            self.bytes.extend_from_slice(self.piece.as_slice())?;
        }
        self.piece.clear();
        self.repeated = None;
        Ok(())
    }

    fn finish(self) -> Result<Vec<u8>, Why> {
        match (self.state, self.repeated) {
            (State::Plain, None) => Ok(self.bytes),
            _ => Err(Why::BadEscape),
        }
    }
}

// The value of a digit of base 16.
fn hex_value(byte: u8) -> Result<u8, Why> {
    match byte {
        b'0'..=b'9' => Ok(byte - b'0'),
        b'A'..=b'F' => Ok(byte - b'A' + 10),
        _ => Err(Why::BadEscape),
    }
}
