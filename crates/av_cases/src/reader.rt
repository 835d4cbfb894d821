//! From the text of cases to the cases.

use crate::case::Case;
use crate::decode::decoded;
use crate::draft::{Draft, DraftField, Edit, Row};
use crate::fault::{CaseFault, Why};
use crate::replace::first_replaced;
use std::alloc::Global;

/// The cases of a text. `keys` are the fields that the program knows.
pub fn cases_of(alloc: Global, text: &str, keys: &[&str]) -> Result<Vec<Case>, CaseFault> {
    let mut reader = Reader::new(alloc);
    let mut number = 0usize;
    for line in text.lines() {
        number = number.saturating_add(1);
        reader.line = number;
        if let Err(why) = reader.take(line, keys) {
            return Err(CaseFault { line: number, why });
        }
    }
    reader.finish()
}

// A text by its name.
#[derive(Drop)]
struct Named {
    name: String,
    value: Vec<u8>,
}

// What the next line of a value is added to.
#[derive(Clone, Copy)]
enum Open {
    Nothing,
    Text,
    Field,
    Row,
}

#[derive(Drop)]
struct Reader {
    alloc: Global,
    line: usize,
    texts: Vec<Named>,
    drafts: Vec<Draft>,
    open: Open,
}

impl Reader {
    fn new(alloc: Global) -> Reader {
        Reader {
            alloc,
            line: 0,
            texts: Vec::new(alloc),
            drafts: Vec::new(alloc),
            open: Open::Nothing,
        }
    }

    fn take(&mut self, line: &str, keys: &[&str]) -> Result<(), Why> {
        if line.is_empty() || line.starts_with('#') {
            return Ok(());
        }
        if line == "|" {
            return self.add(b"\n");
        }
        if let Some(rest) = line.strip_prefix("| ") {
            self.add(rest.as_bytes())?;
            return self.add(b"\n");
        }
        if let Some(rest) = line.strip_prefix("! ") {
            let piece = decoded(self.alloc, rest)?;
            return self.add(piece.as_slice());
        }
        self.take_head(line, keys)
    }

    // Takes a line that begins a text, a case, a row or a field, or an edit.
    fn take_head(&mut self, line: &str, keys: &[&str]) -> Result<(), Why> {
        if let Some(name) = line.strip_prefix("text ") {
            return self.take_text(name);
        }
        if let Some(name) = line.strip_prefix("case ") {
            return self.take_case(name);
        }
        if let Some(edit) = line.strip_prefix("edit: ") {
            return self.edit(edit);
        }
        if let Some(row) = line.strip_prefix("row:") {
            return self.take_row(row);
        }
        self.take_field(line, keys)
    }

    fn take_text(&mut self, name: &str) -> Result<(), Why> {
        if self.text(name).is_some() {
            return Err(Why::RepeatedText);
        }
        self.open = Open::Text;
        let name = String::from_str(self.alloc, name)?;
        let value = Vec::new(self.alloc);
        self.texts.push(Named { name, value })?;
        Ok(())
    }

    fn take_case(&mut self, name: &str) -> Result<(), Why> {
        self.open = Open::Nothing;
        let draft = Draft {
            name: String::from_str(self.alloc, name)?,
            line: self.line,
            fields: Vec::new(self.alloc),
            rows: Vec::new(self.alloc),
        };
        self.drafts.push(draft)?;
        Ok(())
    }

    // A row that begins with an empty line is one of lines.
    fn take_row(&mut self, row: &str) -> Result<(), Why> {
        let value = if row.is_empty() {
            vec![in self.alloc; b'\n']?
        } else {
            decoded(self.alloc, without_blank(row))?
        };
        let line = self.line;
        let draft = self.drafts.last_mut().ok_or(Why::NothingAbove)?;
        draft.rows.push(Row { line, value })?;
        self.open = Open::Row;
        Ok(())
    }

    fn take_field(&mut self, line: &str, keys: &[&str]) -> Result<(), Why> {
        if let Some((key, name)) = line.split_once(" = ")
            && is_known(key, keys)
        {
            let value = self.text(name).ok_or(Why::UnknownText)?.to_vec(self.alloc)?;
            return self.put(key, value);
        }
        let (key, value) = line.split_once(":").ok_or(Why::NotALine)?;
        if !is_known(key, keys) {
            return Err(Why::UnknownKey);
        }
        let value = decoded(self.alloc, without_blank(value))?;
        self.put(key, value)
    }

    // Adds a field to the case above.
    fn put(&mut self, key: &str, value: Vec<u8>) -> Result<(), Why> {
        let draft = self.drafts.last_mut().ok_or(Why::NothingAbove)?;
        for field in draft.fields.iter() {
            if field.key.as_str() == key {
                return Err(Why::RepeatedKey);
            }
        }
        draft.fields.push(DraftField {
            key: String::from_str(self.alloc, key)?,
            line: self.line,
            value,
            edits: Vec::new(self.alloc),
        })?;
        self.open = Open::Field;
        Ok(())
    }

    // Adds to the value above.
    fn add(&mut self, piece: &[u8]) -> Result<(), Why> {
        let value = self.value_above().ok_or(Why::NothingAbove)?;
        value.extend_from_slice(piece)?;
        Ok(())
    }

    // Replaces something in the text above, or later in the field above.
    fn edit(&mut self, edit: &str) -> Result<(), Why> {
        let alloc = self.alloc;
        let line = self.line;
        let (old, new) = sides(edit).ok_or(Why::NoArrow)?;
        let old = decoded(alloc, old)?;
        let new = decoded(alloc, new)?;
        match self.open {
            Open::Text => {
                let text = self.texts.last_mut().ok_or(Why::NothingAbove)?;
                let value = text.value.as_slice();
                let edited = first_replaced(alloc, value, old.as_slice(), new.as_slice())?;
                text.value = edited.ok_or(Why::NothingToEdit)?;
            }
            Open::Field => {
                let field = self.field_above().ok_or(Why::NothingAbove)?;
                field.edits.push(Edit { line, old, new })?;
            }
            _ => return Err(Why::NothingAbove),
        }
        Ok(())
    }

    fn field_above(&mut self) -> Option<&mut DraftField> {
        self.drafts.last_mut()?.fields.last_mut()
    }

    fn value_above(&mut self) -> Option<&mut Vec<u8>> {
        match self.open {
            Open::Nothing => None,
            Open::Text => Some(&mut self.texts.last_mut()?.value),
            Open::Field => Some(&mut self.field_above()?.value),
            Open::Row => Some(&mut self.drafts.last_mut()?.rows.last_mut()?.value),
        }
    }

    // The text of this name, if there is one.
    fn text(&self, name: &str) -> Option<&[u8]> {
        for text in self.texts.iter() {
            if text.name.as_str() == name {
                return Some(text.value.as_slice());
            }
        }
        None
    }

    fn finish(self) -> Result<Vec<Case>, CaseFault> {
        let mut cases = Vec::new(self.alloc);
        let mut line = 0usize;
        for draft in self.drafts.iter() {
            line = draft.line;
            if let Err(why) = draft.add_to(self.alloc, &mut cases, &mut line) {
                return Err(CaseFault { line, why });
            }
        }
        Ok(cases)
    }
}

fn is_known(key: &str, keys: &[&str]) -> bool {
    for known in keys.iter() {
        if *known == key {
            return true;
        }
    }
    false
}

// The text without the blank that it may begin with.
fn without_blank(text: &str) -> &str {
    text.strip_prefix(" ").unwrap_or(text)
}

// What stands before and behind the arrow, if there is one.
fn sides(edit: &str) -> Option<(&str, &str)> {
    match edit.split_once(" => ") {
        Some(sides) => Some(sides),
        None => match edit.strip_suffix(" =>") {
            Some(old) => Some((old, "")),
            None => None,
        },
    }
}
