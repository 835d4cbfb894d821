//! A case as it is written, with its edits and rows.

use crate::case::{Case, Field};
use crate::fault::Why;
use crate::replace::{all_replaced, first_replaced, parted};
use std::alloc::{AllocError, Global};

// What stands for the parts of a row.
const MARKS: [&str; 6] = ["$1", "$2", "$3", "$4", "$5", "$6"];

/// What is replaced in a field, and the line that says so.
#[derive(Drop)]
pub(crate) struct Edit {
    pub(crate) line: usize,
    pub(crate) old: Vec<u8>,
    pub(crate) new: Vec<u8>,
}

/// A field as it is written.
#[derive(Drop)]
pub(crate) struct DraftField {
    pub(crate) key: String,
    pub(crate) line: usize,
    pub(crate) value: Vec<u8>,
    pub(crate) edits: Vec<Edit>,
}

/// A row, and the line that begins it.
#[derive(Drop)]
pub(crate) struct Row {
    pub(crate) line: usize,
    pub(crate) value: Vec<u8>,
}

/// A case as it is written.
#[derive(Drop)]
pub(crate) struct Draft {
    pub(crate) name: String,
    pub(crate) line: usize,
    pub(crate) fields: Vec<DraftField>,
    pub(crate) rows: Vec<Row>,
}

impl Draft {
    /// Adds the case to others, once for each of its rows. `at` becomes the line that is worked on.
    pub(crate) fn add_to(
        &self,
        alloc: Global,
        cases: &mut Vec<Case>,
        at: &mut usize,
    ) -> Result<(), Why> {
        if self.rows.is_empty() {
            cases.push(self.case_of(alloc, self.line, &[], at)?)?;
        }
        for row in self.rows.iter() {
            *at = row.line;
            let parts = parts_of(alloc, row.value.as_slice())?;
            cases.push(self.case_of(alloc, row.line, parts.as_slice(), at)?)?;
        }
        Ok(())
    }

    // The case of a row with these parts.
    fn case_of(
        &self,
        alloc: Global,
        line: usize,
        parts: &[Vec<u8>],
        at: &mut usize,
    ) -> Result<Case, Why> {
        let mut fields = Vec::new(alloc);
        for field in self.fields.iter() {
            *at = field.line;
            fields.push(Field {
                key: field.key.clone()?,
                line: field.line,
                value: field.filled(alloc, parts, at)?,
            })?;
        }
        Ok(Case {
            name: self.name.clone()?,
            line,
            fields,
        })
    }
}

impl DraftField {
    // The value of the field, edited, for a row with these parts.
    fn filled(&self, alloc: Global, parts: &[Vec<u8>], at: &mut usize) -> Result<Vec<u8>, Why> {
        let mut value = filled(alloc, self.value.as_slice(), parts)?;
        for edit in self.edits.iter() {
            *at = edit.line;
            let old = filled(alloc, edit.old.as_slice(), parts)?;
            let new = filled(alloc, edit.new.as_slice(), parts)?;
            let edited = first_replaced(alloc, value.as_slice(), old.as_slice(), new.as_slice())?;
            value = edited.ok_or(Why::NothingToEdit)?;
        }
        Ok(value)
    }
}

// The text with the parts of a row in place of their marks.
fn filled(alloc: Global, text: &[u8], parts: &[Vec<u8>]) -> Result<Vec<u8>, AllocError> {
    let mut filled = text.to_vec(alloc)?;
    for (mark, part) in MARKS.iter().zip(parts.iter()) {
        filled = all_replaced(alloc, filled.as_slice(), mark.as_bytes(), part.as_slice())?;
    }
    Ok(filled)
}

// The parts of a row: those between arrows, which stand on lines of their own in a row of lines.
fn parts_of(alloc: Global, row: &[u8]) -> Result<Vec<Vec<u8>>, Why> {
    let (arrow, all) = match row.strip_prefix(b"\n") {
        Some(lines) => (
            b"\n=>\n".as_slice(),
            lines.strip_suffix(b"\n").unwrap_or(lines),
        ),
        None => (b" => ".as_slice(), row),
    };
    let mut parts = Vec::new(alloc);
    let mut rest = all;
    for _ in MARKS {
        let Some((part, behind)) = parted(rest, arrow) else {
            parts.push(rest.to_vec(alloc)?)?;
            return Ok(parts);
        };
        parts.push(part.to_vec(alloc)?)?;
        rest = behind;
    }
    Err(Why::TooManyParts)
}
