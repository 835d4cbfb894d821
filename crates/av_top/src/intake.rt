//! Reading the input.

ghost use Rattle.std.specs.Prelude.{◌≡◌, ℕ, ◌≤◌, List, length, OnOk, OnErr, IfOk, IfErr, vec_len, is_some};
ghost use Rattle.std.specs.Io.KnownBytes.{Consumes, IsAtEnd};
ghost use Rattle.av_io.specs.Devices.{ReadsFew, Rose};
ghost use Rattle.av_top.specs.Outcome.{Taken, TakenAll, TakenMany};
ghost use Rattle.av_top.specs.Intake.{IntakeStopped, IntakeEnds};

use av_io::{Source, read_full};
use std::alloc::{AllocError, Global};

/// The greatest number of bytes of an input.
pub const MOST_BYTES: usize = 1_048_576;

/// Why the input wasn't read.
#[derive(Clone, Copy, Debug, Drop, PartialEq)]
pub enum IntakeStop {
    /// A read failed.
    Fault,
    NoMemory,
}

/// An input that was read.
#[derive(Drop)]
pub enum Intake {
    /// All of it.
    Text(Vec<u8>),
    /// There is more than the greatest number of bytes.
    TooMuch,
}

/// Reads an input to its end, or until it is too much.
pub fn read_input<I: Source>(alloc: Global, input: &mut I) -> Result<Intake, IntakeStop>
    ensures ok { IfOk result (λ read. IntakeEnds read (I.left input.old) (I.left input.new)) }
    ensures count { OnOk result (I.faults input.new ≡ I.faults input.old) }
    ensures reads { ReadsFew 1048577 (I.left input.old) (I.left input.new) (I.calls input.old) (I.calls input.new) }
    ensures err { IfErr result (λ stop. IntakeStopped stop (I.left input.old) (I.left input.new) (I.faults input.old) (I.faults input.new)) }
{
    let Ok(mut buffer) = zeros(alloc, MOST_BYTES + 1) else {
        return Err(IntakeStop::NoMemory);
    };
    match read_full(input, buffer.as_mut_slice()) {
        Ok(count) => {
            if count > MOST_BYTES {
                return Ok(Intake::TooMuch);
            }
            buffer.truncate(count);
            Ok(Intake::Text(buffer))
        }
        Err(_) => Err(IntakeStop::Fault),
    }
}

// A buffer of so many bytes.
fn zeros(alloc: Global, count: usize) -> Result<Vec<u8>, AllocError>
    ensures { IfOk result (λ buffer. vec_len buffer ≡ count) }
{
    vec![in alloc; 0u8; count]
}
