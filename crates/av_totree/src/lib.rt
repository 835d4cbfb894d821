//! The tree of a typed module: each value named, each type written.
#![tactic(auto)]

mod constants;
mod functions;
mod kinds;
mod maps;
mod names;
mod operations;
mod properties;
mod texts;
mod types;

pub use functions::to_tree;
