//! More runs of a case: of the beginnings of its input, and of its answer.

use crate::command::{Ran, run, status_is};
use anyhow::Result;
use av_cases::{Case, Tally};
use std::alloc::Global;

/// Compares that each beginning of the input is refused at a place within it. The last byte, a line
/// end, may be missing, and nothing at all is a text.
pub(crate) fn prefixes_are_refused(alloc: Global, case: &Case, tally: &mut Tally) -> Result<()> {
    let words = case.words(alloc, "words")?;
    let input = case.bytes("input");
    for length in 1..input.len().saturating_sub(1) {
        let prefix = input.get(..length).unwrap_or(&[]);
        let ran = run(alloc, case, words.as_slice(), prefix)?;
        prefix_is_refused(alloc, case, tally, length, &ran)?;
    }
    Ok(())
}

fn prefix_is_refused(
    alloc: Global,
    case: &Case,
    tally: &mut Tally,
    length: usize,
    ran: &Ran,
) -> Result<()> {
    status_is(alloc, case, tally, 2, ran.status)?;
    tally.compare(case, "output of a beginning", b"", ran.output.bytes())?;
    let notes = ran.notes.bytes();
    let is_within = place_told(notes).is_some_and(|place| place <= length);
    if !is_within {
        let want = format!(in alloc; "a place up to {length}")?;
        tally.compare(case, "notes of a beginning", want.as_bytes(), notes)?;
    }
    Ok(())
}

// The place that the notes tell of.
fn place_told(notes: &[u8]) -> Option<usize> {
    let text = str::from_utf8(notes).ok()?;
    let rest = text.strip_prefix("affvec: text at ")?;
    let (place, _) = rest.split_once(":")?;
    place.parse::<usize>().ok()
}

/// Compares that both forms of the answer are answered as the input is.
pub(crate) fn answer_comes_back(alloc: Global, case: &Case, tally: &mut Tally) -> Result<()> {
    let named = case.words(alloc, "words")?;
    let mut generic = case.words(alloc, "words")?;
    generic.push(String::from_str(alloc, "--generic")?)?;
    let input = case.bytes("input");
    let first = run(alloc, case, named.as_slice(), input)?;
    let second = run(alloc, case, generic.as_slice(), input)?;
    for text in [first.output.bytes(), second.output.bytes()] {
        answers(
            alloc,
            case,
            tally,
            named.as_slice(),
            text,
            first.output.bytes(),
        )?;
        answers(
            alloc,
            case,
            tally,
            generic.as_slice(),
            text,
            second.output.bytes(),
        )?;
    }
    Ok(())
}

// Compares that the text has this answer.
fn answers(
    alloc: Global,
    case: &Case,
    tally: &mut Tally,
    words: &[String],
    text: &[u8],
    answer: &[u8],
) -> Result<()> {
    let ran = run(alloc, case, words, text)?;
    status_is(alloc, case, tally, 0, ran.status)?;
    tally.compare(case, "answer to an answer", answer, ran.output.bytes())?;
    Ok(())
}
