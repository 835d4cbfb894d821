//! What is amiss in a text of cases.

use std::alloc::{AllocError, AllocFailed};
use std::error::Error;
use std::fmt;

/// Why a line of a text of cases isn't taken.
#[derive(Clone, Copy, Debug)]
pub enum Why {
    /// Memory lacks.
    NoMemory,
    /// The line is none of the known ones.
    NotALine,
    /// There's nothing above that the line could add to.
    NothingAbove,
    /// The field is none that the program knows.
    UnknownKey,
    /// The case has the field already.
    RepeatedKey,
    /// No text has this name.
    UnknownText,
    /// A text has this name already.
    RepeatedText,
    /// The edit has no ` => `.
    NoArrow,
    /// What the edit replaces doesn't stand there.
    NothingToEdit,
    /// Behind a backslash stands something unknown, or a repetition has no end.
    BadEscape,
    /// The row has more parts than there are marks.
    TooManyParts,
    /// The value of the field isn't what the program asks for there.
    BadValue,
}

impl fmt::Display for Why {
    fn fmt<W: fmt::Write>(&self, f: &mut fmt::Formatter<W>) -> fmt::Result {
        let words = match self {
            Why::NoMemory => "no memory",
            Why::NotALine => "not a line of cases",
            Why::NothingAbove => "nothing above to add to",
            Why::UnknownKey => "unknown field",
            Why::RepeatedKey => "a field that the case has",
            Why::UnknownText => "unknown text",
            Why::RepeatedText => "a text of this name stands above",
            Why::NoArrow => "no ` => `",
            Why::NothingToEdit => "nothing to edit",
            Why::BadEscape => "a bad escape",
            Why::TooManyParts => "too many parts",
            Why::BadValue => "a bad value",
        };
        write!(f, "{words}")
    }
}

impl Error for Why {}

impl From<AllocError> for Why {
    fn from(_error: AllocError) -> Why {
        Why::NoMemory
    }
}

impl<T: Drop> From<AllocFailed<T>> for Why {
    fn from(_error: AllocFailed<T>) -> Why {
        Why::NoMemory
    }
}

/// A line of a text of cases that isn't taken, and why.
#[derive(Clone, Copy, Debug)]
pub struct CaseFault {
    /// The line, counted from 1.
    pub line: usize,
    /// Why it isn't taken.
    pub why: Why,
}

impl fmt::Display for CaseFault {
    fn fmt<W: fmt::Write>(&self, f: &mut fmt::Formatter<W>) -> fmt::Result {
        let line = self.line;
        let why = self.why;
        write!(f, "line {line}: {why}")
    }
}

impl Error for CaseFault {}
