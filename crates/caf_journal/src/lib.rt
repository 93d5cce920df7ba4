//! The journal of a run: its entries, the choices among them, and its text, the trace.
//!
//! A trace has a line for each entry, and the text of a journal is the only one that is read as that journal.
#![tactic(auto)]

mod choice;
mod entry;
mod fault;
mod fields;
mod print;
mod read;

pub use choice::strike;
pub use entry::Entry;
pub use fault::TraceFault;
pub use print::print_trace;
pub use read::read_trace;

/// The most entries of a journal that has a trace.
pub const MAX_ENTRIES: usize = 1_000_000;
