//! The operations that are pending. Each is found by its name at once, however many there are, and so is what the
//! implicit copies of a task still have to do at the task's own image, which a fence asks.
#![tactic(auto)]

mod access;
mod finish;
mod open;
mod operation;
mod pending;
mod tally;

pub use finish::{encloses, same_name};
pub use operation::Operation;
pub use pending::Pending;
