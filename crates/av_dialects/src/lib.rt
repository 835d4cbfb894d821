//! The operations of the dialects, as one table: a row for each operation, with its name, the modes
//! that take it, its results and the parts of its named form.
//!
//! Definitions read the table too, so nothing about it is said twice.
#![tactic(auto)]

mod item;
mod laws;
mod rows;
mod table;

pub use item::{Item, Key, Lead, Mode, Part, Results, Slot, Slots, Typing, Wanted};
pub use laws::{
    each_form_writes_its_types, names_differ, parts_end_plainly, some_forms, words_differ,
};
pub use rows::{KINDS, OVERFLOW_FLAGS, PREDICATES, ROWS, Row};
pub use table::{
    form_of, mode_of, name_at, name_of, parts_of, property, results_at, results_of, row_of,
};
