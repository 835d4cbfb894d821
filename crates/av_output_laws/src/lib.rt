//! What is written reads again: the words of a module that is printed, in either form, have a tree, which is elaborated to
//! that module, wherever its operations stand in the text.
#![tactic(auto)]

pub mod laws;
