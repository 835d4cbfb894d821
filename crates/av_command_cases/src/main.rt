//! Cases of the command and of its devices, from standard input; what differs, and the count.
#![tactic(auto)]

mod again;
mod command;
mod device;
mod flaky;
mod settings;
mod state;

use anyhow::{Result, ensure};
use av_cases::{Case, Tally, cases_of};
use std::alloc::Global;
use std::io;

// The fields of a case.
const KEYS: [&str; 20] = [
    // The command: its words, its input and the source's way to give it.
    "words",
    "input",
    "most",
    "fails",
    // Its sinks' ways to take the output and the notes.
    "output-most",
    "output-fails",
    "notes-most",
    "notes-fails",
    // What it ends with.
    "status",
    "output",
    "notes",
    // The text in the input at whose place `<place>` in the notes is.
    "place-of",
    // Whether each beginning of the input is refused, and whether the answer is answered by itself.
    "prefixes",
    "again",
    // A device in place of the command, its calls and their answers.
    "device",
    "whole",
    "places",
    "calls",
    "answers",
    // A status in place of the command.
    "status-of",
];

fn main(rt: HostRuntime) -> Result<()> {
    let alloc = rt.alloc();
    let text = io::read_to_string(alloc, rt.reader())?;
    let mut tally = Tally::new(alloc);
    for case in cases_of(alloc, text.as_str(), &KEYS)?.iter() {
        tally.begin();
        check(alloc, case, &mut tally)?;
    }
    let is_clean = tally.is_clean();
    let report = tally.finish()?;
    print!(rt; "{report}")?;
    ensure!(is_clean, "some cases differ");
    Ok(())
}

fn check(alloc: Global, case: &Case, tally: &mut Tally) -> Result<()> {
    if case.field("device").is_some() {
        return device::check(alloc, case, tally);
    }
    if case.field("status-of").is_some() {
        return state::check(alloc, case, tally);
    }
    command::check(alloc, case, tally)?;
    if case.is_yes("prefixes")? {
        again::prefixes_are_refused(alloc, case, tally)?;
    }
    if case.is_yes("again")? {
        again::answer_comes_back(alloc, case, tally)?;
    }
    Ok(())
}
