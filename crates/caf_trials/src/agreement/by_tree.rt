//! The task over trees, on its memory.

ghost use Rattle.caf_treestep.specs.Placeable.{IsPlaceable};

use caf_base::{Memory, Team};
use caf_memory::ImageMemory;
use caf_treestep::{Task, Todo, Wait};

/// An event of the memory gets two posts.
pub(super) fn post_tree(memory: &mut ImageMemory, object: u32, index: i64)
    requires { IsPlaceable memory.old }
    ensures { IsPlaceable memory.new }
{
    let _posted = memory.set_posts(object, index, 2);
}

/// The task goes on, with the value of a read.
pub(super) fn answer_tree(task: &mut Task, value: Option<i64>) -> Result<(), Memory> {
    task.wait = None;
    if let Some(value) = value {
        task.held.push(value)?;
    }
    Ok(())
}

/// An object of the memory gets a team.
fn set_team(memory: &mut ImageMemory, object: u32, team: Team)
    requires { IsPlaceable memory.old }
    ensures { IsPlaceable memory.new }
{
    memory.set_team(object, team);
}

/// The task goes past its split.
pub(super) fn part_tree(task: &mut Task, memory: &mut ImageMemory, team: Team)
    requires { IsPlaceable memory.old }
    ensures { IsPlaceable memory.new }
{
    if let Some(Wait::NewTeam(object)) = task.wait {
        set_team(memory, object, team);
        task.wait = None;
    }
}

/// Whether the task stands at the end of a finish.
fn stands(task: &Task) -> bool {
    task.wait.is_none() && matches!(task.frame.todo.top(), Some(Todo::Closes))
}

/// The task goes past what comes next.
fn go_past(task: &mut Task) {
    drop(task.frame.todo.pop());
}

/// The task goes past the end of a finish, if it stands there. Answers whether it did.
pub(super) fn leave_tree(task: &mut Task) -> bool {
    if stands(task) {
        go_past(task);
        return true;
    }
    false
}
