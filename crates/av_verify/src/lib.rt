//! From the tree of a text to its typed module, or the operation and the rule that refuse it.
//!
//! Operations are numbered in the order of the text, from 0: the module is 0, each function is an
//! operation, and so is each terminator. The rules are numbered from V1 to V20; a rule is asked at an
//! operation only where all rules before it hold there.
#![tactic(auto)]

mod access;
mod arith;
mod entries;
mod expressions;
mod form;
pub mod laws;
mod loops;
mod maps;
mod module;
mod names;
mod operations;
mod refusal;
mod results;
mod rows;
mod scope;
mod types;

pub use form::is_first_path;
pub use module::{Mode, verify};
pub use refusal::VerifyRefusal;
