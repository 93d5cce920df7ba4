//! A lock that hands one value from worker to worker, in turns.
//!
//! The value has a list of journal entries that only grows, and a part that stays as it is. Each worker has a [`Pass`],
//! and a pass remembers the list that it has seen: whoever takes the value gets one whose list begins with all that.
//! So what was given back under the lock is never lost.
//!
//! No proof says that a worker's turn comes: a worker that keeps the value, or loses its pass, stops all others.
#![tactic(auto)]

mod keeps;
mod lock;
mod log;
mod moves;
mod view;

pub use caf_base::Memory;
pub use caf_journal::Entry;
pub use keeps::Keeps;
pub use lock::{Pass, SeatLock};
pub use log::{Log, Pushed, push_by_two, push_in_turn};

#[cfg(test)]
mod tests;
