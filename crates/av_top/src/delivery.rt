//! Writing texts to the output and the notes.

ghost use Rattle.std.specs.Prelude.{◌≡◌, ℕ, List, OnOk, OnErr, IfOk, IfErr};
ghost use Rattle.av_top.specs.Outcome.{Same, Noted, Delivered, Undelivered};
ghost use Rattle.av_top.specs.Delivery.{DeliveryEnds};

use av_affine::Text;
use av_io::{Sink, write_all};
use std::alloc::AllocError;

/// How a delivery ended.
#[derive(Clone, Copy, Debug, Drop, PartialEq)]
pub enum Delivery {
    Done,
    /// A write failed.
    Fault,
    /// Memory lacks; nothing was written.
    NoMemory,
}

/// Offers a line to the notes. Where a write fails, they have taken its first bytes.
pub fn note<N: Sink>(notes: &mut N, line: &[u8]) -> Result<(), AllocError>
    ensures ok { OnOk result (Noted line.now (N.held notes.old) (N.held notes.new) (N.faults notes.old) (N.faults notes.new)) }
    ensures err { OnErr result (Same (N.held notes.old) (N.held notes.new) (N.faults notes.old) (N.faults notes.new)) }
{
    notes.reserve(line.len())?;
    let _fault = write_all(notes, line);
    Ok(())
}

/// Writes a text to the output, and then a report to the notes. The room for both is reserved before
/// the first write.
pub fn deliver<O: Sink, N: Sink>(
    text: &Text,
    report: &Text,
    output: &mut O,
    notes: &mut N,
) -> Delivery
    ensures { DeliveryEnds result (O.held output.old) (O.held output.new) (O.faults output.old) (O.faults output.new) (N.held notes.old) (N.held notes.new) (N.faults notes.old) (N.faults notes.new) text.now report.now }
{
    if output.reserve(text.len()).is_err() || notes.reserve(report.len()).is_err() {
        return Delivery::NoMemory;
    }
    if write_all(output, text.as_slice()).is_err() {
        return Delivery::Fault;
    }
    match write_all(notes, report.as_slice()) {
        Ok(()) => Delivery::Done,
        Err(_) => Delivery::Fault,
    }
}
