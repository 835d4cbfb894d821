//! The command: from its words and its input to its output, its notes and its status.
//!
//! `affvec` reads the words to a request, reads the input, works the texts out, and delivers them.
//! Only reading and delivering touch a device; all texts are made before the first write.
#![tactic(auto)]

mod answer;
mod command;
mod delivery;
mod intake;
mod report;
mod request;
mod status;

pub use command::affvec;
pub use request::Request;
pub use status::{Status, TextFault};
