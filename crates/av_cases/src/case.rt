//! A case, and what programs ask of it.

use crate::fault::{CaseFault, Why};
use std::alloc::Global;

/// A field of a case, and the line that begins it.
#[derive(Drop)]
pub(crate) struct Field {
    pub(crate) key: String,
    pub(crate) line: usize,
    pub(crate) value: Vec<u8>,
}

/// A case: its name, the line that it begins on, and its fields.
#[derive(Drop)]
pub struct Case {
    /// The name.
    pub name: String,
    /// The line of the case or of its row, counted from 1.
    pub line: usize,
    pub(crate) fields: Vec<Field>,
}

impl Case {
    /// The value of a field, if the case has it.
    pub fn field(&self, key: &str) -> Option<&[u8]> {
        for field in self.fields.iter() {
            if field.key.as_str() == key {
                return Some(field.value.as_slice());
            }
        }
        None
    }

    /// The value of a field; nothing where the case doesn't have it.
    pub fn bytes(&self, key: &str) -> &[u8] {
        self.field(key).unwrap_or(&[])
    }

    /// The words of a field, parted by white space.
    pub fn words(&self, alloc: Global, key: &str) -> Result<Vec<String>, CaseFault> {
        match words_in(alloc, self.bytes(key)) {
            Ok(words) => Ok(words),
            Err(why) => Err(self.fault(key, why)),
        }
    }

    /// The numbers of a field, parted by white space.
    pub fn numbers(&self, alloc: Global, key: &str) -> Result<Vec<u64>, CaseFault> {
        match numbers_in(alloc, self.bytes(key)) {
            Ok(numbers) => Ok(numbers),
            Err(why) => Err(self.fault(key, why)),
        }
    }

    /// The number of a field, or another where the case doesn't have it.
    pub fn number(&self, key: &str, otherwise: u64) -> Result<u64, CaseFault> {
        match self.field(key) {
            None => Ok(otherwise),
            Some(value) => match number_in(value) {
                Ok(number) => Ok(number),
                Err(why) => Err(self.fault(key, why)),
            },
        }
    }

    /// Whether a field is `yes`. A case without it says no.
    pub fn is_yes(&self, key: &str) -> Result<bool, CaseFault> {
        match self.bytes(key) {
            b"yes" => Ok(true),
            b"" | b"no" => Ok(false),
            _ => Err(self.fault(key, Why::BadValue)),
        }
    }

    /// A fault of a field, for a program that asks more of its value.
    pub fn fault(&self, key: &str, why: Why) -> CaseFault {
        let mut line = self.line;
        for field in self.fields.iter() {
            if field.key.as_str() == key {
                line = field.line;
            }
        }
        CaseFault { line, why }
    }
}

fn words_in(alloc: Global, value: &[u8]) -> Result<Vec<String>, Why> {
    let mut words = Vec::new(alloc);
    for word in text_of(value)?.split_whitespace() {
        words.push(String::from_str(alloc, word)?)?;
    }
    Ok(words)
}

fn numbers_in(alloc: Global, value: &[u8]) -> Result<Vec<u64>, Why> {
    let mut numbers = Vec::new(alloc);
    for word in text_of(value)?.split_whitespace() {
        numbers.push(number_in(word.as_bytes())?)?;
    }
    Ok(numbers)
}

fn number_in(value: &[u8]) -> Result<u64, Why> {
    match text_of(value)?.parse::<u64>() {
        Ok(number) => Ok(number),
        Err(_) => Err(Why::BadValue),
    }
}

fn text_of(value: &[u8]) -> Result<&str, Why> {
    match str::from_utf8(value) {
        Ok(text) => Ok(text),
        Err(_) => Err(Why::BadValue),
    }
}
