//! A run of a compiled program on one image, by the virtual machine.
//!
//! The journal of the run leads the source machine to the state of which the report tells.
#![tactic(auto)]

mod phase;
mod run;
mod solo;

pub use phase::Phase;
pub use run::{Run, run_alone};
