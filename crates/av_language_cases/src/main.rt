//! Compares the table of operations on the page docs/LANGUAGE.md, which is read from standard input (`tools/language` copies it there),
//! with the table of the program: its first column names each operation of av_dialects once, and nothing else.
#![tactic(auto)]

mod page;

use anyhow::{Result, ensure};
use av_dialects::{ROWS, row_of};
use page::names_of;
use std::alloc::{AllocError, Global};
use std::io;

fn main(rt: HostRuntime) -> Result<()> {
    let alloc = rt.alloc();
    let text = io::read_to_string(alloc, rt.reader())?;
    let names = names_of(alloc, text.as_str())?;
    let wrong = differences(alloc, names.as_slice())?;
    print!(rt; "{wrong}")?;
    let count = ROWS.len();
    ensure!(
        wrong.is_empty(),
        "the page and the table of operations differ"
    );
    print!(rt; "{count} operations, 0 differ\n")?;
    Ok(())
}

// A line for each name that no operation has, and for each operation that isn't named once.
fn differences(alloc: Global, names: &[String]) -> Result<String, AllocError> {
    let mut lines = String::new(alloc);
    for name in names {
        if row_of(name.as_bytes()).is_none() {
            lines.push_str(format!(in alloc; "{name}: no operation of the table\n")?.as_str())?;
        }
    }
    for row in ROWS.iter() {
        let count = times(names, row.0);
        if count != 1 {
            let name = row.0;
            lines.push_str(format!(in alloc; "{name}: {count} times on the page\n")?.as_str())?;
        }
    }
    Ok(lines)
}

fn times(names: &[String], name: &str) -> usize {
    names.iter().filter(|other| other.as_str() == name).count()
}
