//! The values that the rows of the format make, the stack that holds them, and what several groups of
//! rows make in the same way.
#![tactic(auto)]

pub mod gifts;
pub mod joining;
mod lists;
pub mod loops;
pub mod nodes;
pub mod numbers;
pub mod puts;
pub mod spellings;
pub mod stack;
pub mod subscripts;
pub mod value;
