//! The tokens of a text.
//!
//! Space, tab, CR, LF and comments (`//` to the end of the line) separate tokens; at each place the
//! longest token is taken.
#![tactic(auto)]

mod class;
mod lexer;
mod step;
mod token;

pub use lexer::lex;
pub use token::{Kind, LexFault, Sign, Token};
