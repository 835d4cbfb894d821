//! Types whose names differ from those of calls in the case of their letters alone.

/// The named form of an operation: the row of the table of operations that it is written by.
#[derive(Clone, Copy, Debug, Drop, PartialEq, Eq)]
pub struct Template {
    pub operation: u8,
}
