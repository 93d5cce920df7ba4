//! What the program is handed of the outside: a host of named texts, and a sink of bytes.
//!
//! Each has a meaning, told by implementations in memory and not told by files, and counts of its faults. A fault is
//! answered only where the count of that object rose, so that whoever is told of one can see its cause.
#![tactic(auto)]

mod fault;
mod file_host;
mod held;
mod host;
mod mem_host;
mod mem_sink;
mod sink;
mod spare;
mod std_sink;

pub use fault::{Failed, LoadFail};
pub use file_host::FileHost;
pub use host::Host;
pub use mem_host::MemHost;
pub use mem_sink::MemSink;
pub use sink::Sink;
pub use std_sink::StdSink;

#[cfg(test)]
mod tests;
