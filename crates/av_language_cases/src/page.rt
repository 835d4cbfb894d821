//! The names in the first column of the page's table of operations.

use std::alloc::{AllocError, Global};

const HEAD: &str = "| Operation | Own form, by an example |";

/// The names of operations, in the order of the page. A name without a dialect has that of the name before it.
pub(crate) fn names_of(alloc: Global, page: &str) -> Result<Vec<String>, AllocError> {
    let mut names = Vec::new(alloc);
    let mut inside = false;
    for line in page.lines() {
        if line.starts_with(HEAD) {
            inside = true;
        } else if inside {
            match line.strip_prefix("| `") {
                Some(rest) => push_names(alloc, &mut names, first_cell(rest))?,
                None => inside = line.starts_with("|---"),
            }
        }
    }
    Ok(names)
}

fn first_cell(line: &str) -> &str {
    match line.split_once(" |") {
        Some((cell, _)) => cell,
        None => line,
    }
}

fn push_names(alloc: Global, names: &mut Vec<String>, cell: &str) -> Result<(), AllocError> {
    for part in cell.split(", ") {
        let name = whole_name(alloc, names.as_slice(), part.trim_matches('`'))?;
        names.push(name)?;
    }
    Ok(())
}

fn whole_name(alloc: Global, before: &[String], name: &str) -> Result<String, AllocError> {
    match before.last() {
        Some(last) if !name.contains('.') => with_dialect_of(alloc, last.as_str(), name),
        _ => format!(in alloc; "{name}"),
    }
}

fn with_dialect_of(alloc: Global, other: &str, name: &str) -> Result<String, AllocError> {
    match other.split_once('.') {
        Some((dialect, _)) => format!(in alloc; "{dialect}.{name}"),
        None => format!(in alloc; "{name}"),
    }
}
