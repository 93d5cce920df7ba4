//! The epochs of a finish's messages: the class of a message, and an image's counts of its messages by class.
#![tactic(auto)]

mod counters;
mod epoch;

pub use caf_base::Four;
pub use counters::{Class, Counters};
pub use epoch::class;

#[cfg(test)]
mod tests;
