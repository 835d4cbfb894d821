//! The run of a module of scalar operations, with a budget of steps: exactly the run that is defined.
#![tactic(auto)]

mod bounds;
mod elements;
mod machine;
mod maps;
mod memory;
mod names;
mod operations;
mod plain;
mod running;
mod scalar;
mod words;

pub use scalar::run_scalar;
