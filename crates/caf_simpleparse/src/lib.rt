//! From tokens to the trees of statements without a block.
//!
//! [`simple`] reads such a statement, and [`Parts`] its parts. Each rule is a function that equals a reader of `specs/`;
//! that these readers read the forms of `caf_tree` is proved in `proofs/`.
#![tactic(auto)]

mod action;
pub mod ahead;
mod beside;
mod parts;

pub use action::simple;
pub use parts::{Parts, all_of};
