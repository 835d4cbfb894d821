//! A reader and writer that fails now and then.
ghost use Rattle.std.specs.Prelude.{length, IfOk, ◌≤◌};

use std::io;
use std::io::{ErrorKind, Read, Write};

/// Moves a byte, fails, moves nothing, and then moves a byte in each turn.
#[derive(Drop)]
pub(crate) struct Flaky {
    turn: u8,
}

impl Flaky {
    pub(crate) fn new() -> Flaky {
        Flaky { turn: 0 }
    }

    fn turns(&mut self, bytes: &[u8]) -> io::Result<usize>
        ensures { IfOk result (λ n. n ≤ length bytes.now) }
    {
        self.turn = self.turn.saturating_add(1);
        match self.turn {
            2 => Err(io::Error::from(ErrorKind::Interrupted)),
            3 => Ok(0),
            _ => Ok(bytes.len().min(1)),
        }
    }
}

impl Read for Flaky {
    fn read(&mut self, buf: &mut [u8]) -> io::Result<usize> {
        self.turns(buf)
    }
}

impl Write for Flaky {
    fn write(&mut self, buf: &[u8]) -> io::Result<usize> {
        self.turns(buf)
    }

    fn flush(&mut self) -> io::Result<()> {
        Ok(())
    }
}
