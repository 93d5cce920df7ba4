//! The source machine: what a program does, over trees.
#![tactic(auto)]

mod answer;
mod begun;
mod built;
mod choice;
mod chosen;
mod first;
mod going;
mod law;
mod leave;
mod live;
mod machine;
mod offer;
mod outcome;
mod pending;
mod report;
mod rewind;
mod runs;
mod section;
mod split;
mod state;
mod stepped;
mod still;
mod touch;

pub use built::is_built;
pub use choice::Choice;
pub use law::main_tasks_come_to_their_end;
pub use machine::{State, step};
pub use outcome::{Outcome, Touched};
pub use rewind::Saved;
pub use runs::{Certified, certify};
pub use section::Taken;
pub use state::{Image, Live};
pub use stepped::Stepped;
