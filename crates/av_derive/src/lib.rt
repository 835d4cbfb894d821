//! From the tokens of a text to the rows of the format that derive them.
//!
//! Each token has a class, which is all that the rows tell apart. A predictive machine derives the rows
//! from the classes, with one token ahead.
#![tactic(auto)]

mod classes;
mod derivation;
mod machine;

pub use classes::{class_of, classes_of, spelling_of};
pub use derivation::{Refused, derive};
pub use machine::{Event, Limits, Stop};
