//! How words are read as a tree, without events, numbers of tokens or places, and the law that reading makes what is so related.
#![tactic(auto)]

pub mod laws;
