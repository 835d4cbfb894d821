//! What holds of modules that were elaborated, for the proofs of callers. These functions do nothing.
#![tactic(auto)]

pub mod laws;
