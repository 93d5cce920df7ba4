//! Copointers: a section that is reached by indices of its own, from 1.
#![tactic(auto)]

mod copointer;

pub use copointer::CoPtr;

#[cfg(test)]
mod tests;
