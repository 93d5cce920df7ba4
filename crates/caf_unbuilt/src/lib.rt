//! Which statements of an accepted program don't run yet.
#![tactic(auto)]

mod expression;
mod unbuilt;

pub use unbuilt::first_unbuilt;
