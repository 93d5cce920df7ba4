//! The sum over a team, in a tree of its ranks: each rank gathers its own part and those of its children.
#![tactic(auto)]

mod part;
mod summer;
mod tree;

pub use caf_base::Memory;
pub use part::{Given, Part};
pub use summer::Summer;
pub use tree::parent;

#[cfg(test)]
mod tests;
