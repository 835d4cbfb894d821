//! What the devices give and take, called through the traits.

use crate::flaky::Flaky;
use crate::settings::{most_of, sink_of, source_of};
use anyhow::Result;
use av_cases::{Case, Tally, Why};
use av_io::{PlainSink, PlainSource, Sink, Source, StdSink, StdSource, read_full, write_all};
use std::alloc::{AllocError, Global};

/// The answers of a device's calls, and the bytes that came or went.
#[derive(Drop)]
struct Moved {
    answers: String,
    bytes: Vec<u8>,
}

impl Moved {
    fn new(alloc: Global) -> Moved {
        Moved {
            answers: String::new(alloc),
            bytes: Vec::new(alloc),
        }
    }

    // Adds an answer behind a blank.
    fn tell(&mut self, answer: Option<usize>) -> Result<(), AllocError> {
        if !self.answers.is_empty() {
            self.answers.push_str(" ")?;
        }
        match answer {
            Some(count) => write!(self.answers, "{count}"),
            None => self.answers.push_str("fails"),
        }
    }
}

/// Compares the answers of the case's device.
pub(crate) fn check(alloc: Global, case: &Case, tally: &mut Tally) -> Result<()> {
    let moved = moved_of(alloc, case)?;
    let answers = moved.answers.as_bytes();
    tally.compare(case, "answers", case.bytes("answers"), answers)?;
    tally.compare(case, "output", case.bytes("output"), moved.bytes.as_slice())?;
    Ok(())
}

fn moved_of(alloc: Global, case: &Case) -> Result<Moved> {
    match case.bytes("device") {
        b"plain source" => {
            let most = most_of(case, "most", 4096)?;
            let bytes = case.bytes("input").to_vec(alloc)?;
            read_from(alloc, case, &mut PlainSource::new(bytes, most))
        }
        b"failing source" => {
            let mut source = source_of(alloc, case, case.bytes("input"))?;
            read_from(alloc, case, &mut source)
        }
        b"source of the system" => read_from(alloc, case, &mut StdSource::new(Flaky::new())),
        _ => taken_of(alloc, case),
    }
}

// The same for the sinks.
fn taken_of(alloc: Global, case: &Case) -> Result<Moved> {
    match case.bytes("device") {
        b"plain sink" => {
            let mut sink = PlainSink::new(alloc, most_of(case, "output-most", 100)?);
            let mut moved = write_to(alloc, case, &mut sink)?;
            moved.bytes = sink.bytes().to_vec(alloc)?;
            Ok(moved)
        }
        b"failing sink" => {
            let mut sink = sink_of(alloc, case, "output-most", "output-fails")?;
            let mut moved = write_to(alloc, case, &mut sink)?;
            moved.bytes = sink.bytes().to_vec(alloc)?;
            Ok(moved)
        }
        b"sink of the system" => write_to(alloc, case, &mut StdSink::new(Flaky::new())),
        _ => Err(case.fault("device", Why::BadValue).into()),
    }
}

// Makes reads into so many places.
fn read_from<I: Source>(alloc: Global, case: &Case, source: &mut I) -> Result<Moved> {
    let is_whole = case.is_yes("whole")?;
    let mut moved = Moved::new(alloc);
    for places in case.numbers(alloc, "places")? {
        let mut into = vec![in alloc; 0u8; usize::try_from(places)?]?;
        let answer = if is_whole {
            read_full(source, into.as_mut_slice()).ok()
        } else {
            source.read(into.as_mut_slice()).ok()
        };
        moved.tell(answer)?;
        let read = into.get(..answer.unwrap_or(0)).unwrap_or(&[]);
        moved.bytes.extend_from_slice(read)?;
    }
    Ok(moved)
}

// Makes so many writes of what's left. Room is made before each write, which counts as no call.
fn write_to<O: Sink>(alloc: Global, case: &Case, sink: &mut O) -> Result<Moved> {
    let is_whole = case.is_yes("whole")?;
    let mut moved = Moved::new(alloc);
    let mut rest = case.bytes("input");
    for _ in 0..case.number("calls", 1)? {
        sink.reserve(rest.len())?;
        let answer = if is_whole {
            write_all(sink, rest).ok().map(|_| rest.len())
        } else {
            sink.write(rest).ok()
        };
        moved.tell(answer)?;
        rest = rest.get(answer.unwrap_or(0)..).unwrap_or(&[]);
    }
    Ok(moved)
}
