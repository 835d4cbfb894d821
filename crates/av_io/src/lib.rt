//! Where the program's bytes come from and go to: sources and sinks, in memory and of the system.
//!
//! A [`Source`] gives bytes in pieces, a [`Sink`] takes them. Each counts its faults, so that a
//! caller's contract can say that a fault is reported only where one occurred. The devices in
//! memory tell all that they hold, which makes contracts about them exact; the system's tell
//! nothing.
#![tactic(auto)]

mod calls;
mod count;
mod device;
mod feed;
mod mem_sink;
mod mem_source;
mod plain_sink;
mod plain_source;
mod std_sink;
mod std_source;
mod store;
mod whole;

pub use device::{Failed, Sink, Source};
pub use mem_sink::MemSink;
pub use mem_source::MemSource;
pub use plain_sink::PlainSink;
pub use plain_source::PlainSource;
pub use std_sink::StdSink;
pub use std_source::StdSource;
pub use whole::{read_full, write_all};
