//! The modules of the forms that are taken, as programs of a small type: their typed modules, the trees that are printed
//! for them, what holds of these, and the trees as which they are read again.
#![tactic(auto)]

pub mod laws;
