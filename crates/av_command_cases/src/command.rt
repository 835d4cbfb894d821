//! The command over devices in memory.

use crate::settings::{digits, sink_of, source_of};
use anyhow::Result;
use av_cases::{Case, Tally, Why, all_replaced};
use av_io::MemSink;
use av_top::{Status, affvec};
use std::alloc::Global;

/// What a call of the command answered and left.
#[derive(Drop)]
pub(crate) struct Ran {
    pub(crate) status: Status,
    pub(crate) output: MemSink,
    pub(crate) notes: MemSink,
}

/// Calls the command with these words and this input over the devices of the case.
pub(crate) fn run(alloc: Global, case: &Case, words: &[String], input: &[u8]) -> Result<Ran> {
    let mut source = source_of(alloc, case, input)?;
    let mut output = sink_of(alloc, case, "output-most", "output-fails")?;
    let mut notes = sink_of(alloc, case, "notes-most", "notes-fails")?;
    let status = affvec(alloc, words, &mut source, &mut output, &mut notes);
    Ok(Ran {
        status,
        output,
        notes,
    })
}

/// Compares what the command does with what the case wants.
pub(crate) fn check(alloc: Global, case: &Case, tally: &mut Tally) -> Result<()> {
    let words = case.words(alloc, "words")?;
    let ran = run(alloc, case, words.as_slice(), case.bytes("input"))?;
    let notes = notes_of(alloc, case)?;
    tally.compare(case, "notes", notes.as_slice(), ran.notes.bytes())?;
    tally.compare(case, "output", case.bytes("output"), ran.output.bytes())?;
    status_is(alloc, case, tally, case.number("status", 0)?, ran.status)
}

/// Compares a status with the number that is wanted.
pub(crate) fn status_is(
    alloc: Global,
    case: &Case,
    tally: &mut Tally,
    want: u64,
    status: Status,
) -> Result<()> {
    let want = digits(alloc, want)?;
    let got = digits(alloc, u64::from(status.number()))?;
    tally.compare(case, "status", want.as_bytes(), got.as_bytes())?;
    Ok(())
}

// The notes that the case wants, with the place that it names.
fn notes_of(alloc: Global, case: &Case) -> Result<Vec<u8>> {
    let notes = case.bytes("notes");
    let Some(rest) = case.field("place-of") else {
        return Ok(notes.to_vec(alloc)?);
    };
    let Some(place) = memchr::memmem::find(case.bytes("input"), rest) else {
        return Err(case.fault("place-of", Why::BadValue).into());
    };
    let place = place.to_string(alloc)?;
    Ok(all_replaced(alloc, notes, b"<place>", place.as_bytes())?)
}
