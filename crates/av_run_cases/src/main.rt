//! Cases of arithmetic, shapes, expressions and runs.
//!
//! A case's field `do` names a call, which gets the words of the field `with` or other fields that the call
//! says, and `gives` is what it gives, in words.
#![tactic(auto)]

mod arguments;
mod bits;
mod call;
mod expressions;
mod forming;
mod kinds;
mod notation;
mod places;
mod runs;
mod shapes;
mod types;
mod words;

use anyhow::{Result, ensure};
use av_cases::{Case, Tally, cases_of};
use std::alloc::Global;
use std::io;

// The fields of a case.
const FIELDS: [&str; 10] = [
    "do", "with", "input", "funcs", "args", "steps", "dims", "syms", "at", "gives",
];

fn main(rt: HostRuntime) -> Result<()> {
    let alloc = rt.alloc();
    let text = io::read_to_string(alloc, rt.reader())?;
    let mut tally = Tally::new(alloc);
    for case in cases_of(alloc, text.as_str(), &FIELDS)?.iter() {
        tally.begin();
        check(alloc, case, &mut tally)?;
    }
    let is_clean = tally.is_clean();
    let report = tally.finish()?;
    print!(rt; "{report}")?;
    ensure!(is_clean, "some cases differ");
    Ok(())
}

fn check(alloc: Global, case: &Case, tally: &mut Tally) -> Result<()> {
    let given = call::given(alloc, case)?;
    tally.compare(case, "gives", case.bytes("gives"), given.as_bytes())?;
    Ok(())
}
