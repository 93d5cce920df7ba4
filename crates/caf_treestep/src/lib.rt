//! A task over trees, and its Steps: what each statement does, with the reads before it, the traps in their order, and
//! what it leaves to do. It knows no other task and no other image but by what a Step asks for.
#![tactic(auto)]

mod argument;
mod begins;
mod bounds;
mod call;
mod evaluated;
mod expressions;
mod fault;
mod law;
mod loops;
mod reading;
mod statement;
mod task;
mod task_step;
mod todo;
mod variables;
mod waits;
mod wanted;

pub use argument::Argument;
pub use bounds::Bounds;
pub use fault::Fault;
pub use law::memories_begin_placeable;
pub use loops::push_block;
pub use task::{Frame, Task, Wait};
pub use task_step::step_task;
pub use todo::{CopyOut, Target, Todo};
pub use waits::team_world;
