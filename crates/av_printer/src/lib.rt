//! The spelling of trees: one text for each tree and form.
//!
//! `spell` makes the whole text, and `print` delivers it: the room for all of it is reserved before the
//! first write, so want of memory leaves a sink as it was.
#![tactic(auto, using(crate::proofs::Steps::steps))]

mod attributes;
mod dictionaries;
mod entries;
mod expressions;
mod form;
mod functions;
mod generic;
mod laws;
mod loops;
mod named;
mod nodes;
mod operands;
mod parts;
mod placed_types;
mod printing;
mod properties;
mod shares;
mod slices;
mod subscripts;
mod types;
mod writer;

pub use form::Form;
pub use laws::worked_examples;
pub use named::NamedForm;
pub use nodes::spell;
pub use printing::{PrintFault, print};
