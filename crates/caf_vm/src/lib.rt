//! The virtual machine: one step of a task.
#![tactic(auto)]

mod act;
mod advance;
mod calls;
mod draft;
mod end;
mod ends;
mod line;
mod listed;
mod need;
mod operations;
mod past;
mod rows;
mod settle;
mod step;
mod stop;
mod task;
mod teams;

pub use caf_base::Memory;
pub use need::blocked;
pub use past::{answer, leave, part};
pub use step::statement;
pub use task::Task;
