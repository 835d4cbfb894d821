//! Cases of texts: what is a token, what is derived and read, what is printed, and which trees are taken.
//!
//! A case gives a text to the call that its field `do` names, and compares what the call gives, or the words
//! of why it gives nothing, with its field `gives`. Where it says `marked: yes`, the first `|` of its text is
//! taken out, and `<place>` in `gives` stands for its place.
#![tactic(auto)]

mod built;
mod call;
mod prefixes;
mod question;
mod stop;
mod texts;
mod trees;

use anyhow::{Result, ensure};
use av_cases::{Case, Tally, cases_of};
use question::{FIELDS, Question};
use std::alloc::Global;
use std::io;

fn main(rt: HostRuntime) -> Result<()> {
    let alloc = rt.alloc();
    let text = io::read_to_string(alloc, rt.reader())?;
    let mut tally = Tally::new(alloc);
    for case in cases_of(alloc, text.as_str(), &FIELDS)?.iter() {
        tally.begin();
        check(alloc, case, &mut tally)?;
    }
    let is_clean = tally.is_clean();
    let report = tally.finish()?;
    print!(rt; "{report}")?;
    ensure!(is_clean, "some cases differ");
    Ok(())
}

fn check(alloc: Global, case: &Case, tally: &mut Tally) -> Result<()> {
    let question = Question::of(alloc, case)?;
    let given = question.call.gives(alloc, question.text.as_slice())?;
    tally.compare(case, "gives", question.gives.as_slice(), given.as_bytes())?;
    Ok(())
}
