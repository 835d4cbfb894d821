//! The tree of a list of tokens, by the rows of the format.
//!
//! The tree is made from the rows that derive the tokens, from the last one to the first.
#![tactic(auto)]

mod building;
mod reading;

pub use reading::{LIMITS, ReadRefusal, read};
