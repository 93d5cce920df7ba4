//! The posts of one event.
#![tactic(auto)]

mod cell;

pub use cell::EventCell;

#[cfg(test)]
mod tests;
