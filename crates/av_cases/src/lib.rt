//! Cases of a test program: a text that a person edits, and the count of what differs.
//!
//! ```text
//! # a comment, as is an empty line
//! text add
//! | module {
//! | }
//!
//! case other words are refused
//! words: vectorize --sizes $1
//! input = add
//! edit: module => modul
//! status: 1
//! notes:
//! | affvec: usage
//! row: 0
//! row: 65
//! ```
//!
//! - `text NAME` begins a text, and `KEY = NAME` gives a case's field that text.
//! - `KEY: VALUE` gives a field the rest of the line. In it, in rows and in edits `\n`, `\t`, `\r`,
//!   `\\`, `\xFF` and `\}` are bytes, and `\{191:(}` stands for 191 times `(`.
//! - `| LINE` adds the line with its end to the text, field or row above, `! PIECE` adds what follows
//!   without a line end, with the escapes of a value.
//! - `edit: OLD => NEW` replaces the first `OLD` in the text above, or in the field above once it is
//!   whole; in order, where there are several.
//! - `row: A => B` makes the case once for each row: in its fields and edits `$1` stands for `A`, `$2` for
//!   `B`, and so up to `$6`. In a row of lines, below an empty `row:`, an arrow stands on a line of its own.
#![tactic(auto)]

mod case;
mod decode;
mod draft;
mod fault;
mod reader;
mod replace;
mod shown;
mod tally;

pub use case::Case;
pub use fault::{CaseFault, Why};
pub use reader::cases_of;
pub use replace::{all_replaced, first_replaced};
pub use tally::Tally;
