//! The flat run of a module: work on vectors lane by lane, at a scale.
#![tactic(auto)]

pub mod laws;
