//! A task is put back to where it stood before a Step that traps once the statement is over.

ghost use Rattle.std.specs.Prelude.{◌≡◌, IfOk, None};
ghost use Rattle.caf_base.specs.After.{After};
ghost use Rattle.caf_program.specs.declared.stmt.StmtR.TheViews.{out-StmtR};
ghost use Rattle.caf_source.specs.Rewound.{IsOrderly, begins_layer, next_saved as next_kept, put_back as put_back_to, rewound, saved_of};
ghost use Rattle.caf_treestep.specs.declared.task.Task.{Task};
ghost use Rattle.caf_treestep.specs.Placeable.{IsPlaceable};
ghost use Rattle.caf_treestep.specs.Step.{step as step_of};
ghost use Rattle.caf_treestep.specs.Stood.{Leaves};

use caf_base::{Effect, FenceClear, Memory, Sequence, Stack};
use caf_memory::ImageMemory;
use caf_program::{StmtR, SubR};
use caf_treestep::{Task, Todo, Wait, step_task};
use std::alloc::Global;

/// What a Step may take off a task.
#[derive(Drop)]
pub struct Saved {
    /// What was to do next, where its last Step may begin an operation or end the task.
    pub next: Stack<Todo>,
    /// The values that were held.
    pub held: Sequence<i64>,
}

/// Whether the last Step of a statement may begin an operation.
fn may_begin(statement: &StmtR) -> bool
    ensures { result ≡ begins_layer (out-StmtR statement.now) }
{
    match statement {
        StmtR::Assign { .. } => true,
        StmtR::Aim { .. } => false,
        StmtR::Print { .. } => false,
        StmtR::If { .. } => false,
        StmtR::Do { .. } => false,
        StmtR::While { .. } => false,
        StmtR::Call { .. } => false,
        StmtR::Spawn { .. } => true,
        StmtR::Notify { .. } => true,
        StmtR::Wait { .. } => false,
        StmtR::Copy { .. } => true,
        StmtR::Cofence { .. } => false,
        StmtR::Split { .. } => false,
        StmtR::Finish { .. } => false,
    }
}

/// What is to do next, where its last Step may begin an operation or end the task.
fn next_saved(alloc: Global, task: &Task) -> Result<Stack<Todo>, Memory>
    ensures { IfOk result (λ next. next ≡ next_kept task.now.frame.todo) }
{
    let mut next = Stack::new(alloc);
    match task.frame.todo.top() {
        None => {}
        Some(Todo::Does(statement)) => {
            if may_begin(statement) {
                next.push(Todo::Does(statement.copy(alloc)?))?;
            }
        }
        Some(Todo::Turns { .. }) => {}
        Some(Todo::Closes) => {}
        Some(Todo::Returns(_)) => {}
        Some(Todo::Ends) => next.push(Todo::Ends)?,
    }
    Ok(next)
}

/// What a Step may take off a task.
fn save(alloc: Global, task: &Task) -> Result<Saved, Memory>
    ensures { IfOk result (λ saved. saved ≡ saved_of task.now) }
{
    let held = Sequence::from_slice(alloc, task.held.as_slice())?;
    let next = next_saved(alloc, task)?;
    Ok(Saved { next, held })
}

/// Puts back what a Step took off.
fn put_back(task: &mut Task, mut saved: Saved) -> Result<(), Memory>
    ensures { IfOk result (λ _. task.new ≡ put_back_to saved.next (record task.old { held = saved.held; wait = None })) }
{
    task.held = saved.held;
    task.wait = None;
    match saved.next.pop() {
        Some(next) => task.frame.todo.push(next),
        None => Ok(()),
    }
}

/// Puts a task back to where it stood before a Step.
pub(crate) fn rewind(task: &mut Task, saved: Saved) -> Result<(), Memory>
    ensures { IfOk result (λ _. task.new ≡ rewound saved task.old) }
{
    match task.wait {
        Some(Wait::Value) => {
            task.wait = None;
            Ok(())
        }
        Some(Wait::Done) => put_back(task, saved),
        Some(Wait::NewTeam(_)) => put_back(task, saved),
        None => put_back(task, saved),
    }
}

/// One Step of a task, with what it may have taken off it.
pub(crate) fn step_saved(
    alloc: Global,
    subs: &[SubR],
    clear: FenceClear,
    task: &mut Task,
    memory: &mut ImageMemory,
) -> Result<(Effect, Saved), Memory>
    requires { IsPlaceable memory.old }
    ensures step { IfOk result (λ p. Leaves p.0 (step_of subs.now clear task.old memory.old) task.new memory.new) }
    ensures orderly { IfOk result (λ p. IsOrderly p.0 p.1 task.old memory.old task.new memory.new) }
    ensures memory { IfOk result (λ _. IsPlaceable memory.new) }
{
    let saved = save(alloc, task)?;
    let effect = step_task(alloc, subs, clear, task, memory)?;
    Ok((effect, saved))
}
