//! Whether the next Step of a task blocks.

ghost use Rattle.std.specs.Prelude.{◌≡◌, ◌≤◌, ◌&&◌, length, nat_le};
ghost use Rattle.caf_program.specs.declared.stmt.StmtR.TheViews.{out-StmtR};
ghost use Rattle.caf_program.specs.Value.{count};
ghost use Rattle.caf_program.specs.View.{seen};
ghost use Rattle.caf_source.specs.Ending.{awaits_post as awaits, has_no_caller, is_next_still, is_statement_still as statement_still, is_task_still as task_still};
ghost use Rattle.caf_treestep.specs.Evaluated.{seen_in};
ghost use Rattle.caf_treestep.specs.Step.{awaited_event};

use caf_base::{FenceClear, Trap};
use caf_memory::ImageMemory;
use caf_program::{ExprR, OwnEventR, StmtR, View, eval_from};
use caf_treestep::{Task, Todo};

/// What an expression of a task sees of its image's memory.
fn view<'a>(memory: &'a ImageMemory, locals: &'a [i64], held: &'a [i64]) -> View<'a>
    ensures same { seen result ≡ seen_in memory.now locals.now held.now }
    ensures held { result.held.now ≡ held.now }
{
    View {
        objects: memory.objects(),
        cells: memory.cells(),
        locals,
        held,
        image: memory.image(),
        images: memory.images(),
        teams: memory.teams(),
    }
}

/// The index of the event that is waited for.
fn index_of(event: &OwnEventR, view: &View, memory: &ImageMemory) -> Result<i64, Trap>
    requires { count event.now.index ≤ length view.now.held.now }
    ensures { result ≡ awaited_event event.now 0 (seen view.now) memory.now }
{
    let index = eval_from(&event.index, view, &mut 0)?;
    memory.index_of(event.object, index)
}

/// Whether as many values are held as an expression holds.
fn holds_all(e: &ExprR, held: usize) -> bool
    ensures { result ≡ nat_le (count e.now) held }
{
    match e.read_count() {
        Some(count) => count <= held,
        None => false,
    }
}

/// Whether an `event_wait` that has read all that it reads waits for a post.
fn awaits_post(event: &OwnEventR, task: &Task, memory: &ImageMemory) -> bool
    ensures { result ≡ awaits event.now task.now memory.now }
{
    if !holds_all(&event.index, task.held.len()) {
        return false;
    }
    let seen = view(memory, task.frame.locals.as_slice(), task.held.as_slice());
    match index_of(event, &seen, memory) {
        Ok(index) => matches!(memory.posts(event.object, index), Ok(0)),
        Err(_) => false,
    }
}

/// Whether the next Step of a statement blocks.
fn is_statement_still(
    statement: &StmtR,
    clear: FenceClear,
    task: &Task,
    memory: &ImageMemory,
) -> bool
    ensures { result ≡ statement_still (out-StmtR statement.now) clear task.now memory.now }
{
    match statement {
        StmtR::Assign { .. } => false,
        StmtR::Aim { .. } => false,
        StmtR::Print { .. } => false,
        StmtR::If { .. } => false,
        StmtR::Do { .. } => false,
        StmtR::While { .. } => false,
        StmtR::Call { .. } => false,
        StmtR::Spawn { .. } => false,
        StmtR::Notify { .. } => false,
        StmtR::Wait { event, .. } => awaits_post(event, task, memory),
        StmtR::Copy { .. } => false,
        StmtR::Cofence { down, .. } => !clear.lets_pass(*down),
        StmtR::Split { .. } => false,
        StmtR::Finish { .. } => false,
    }
}

/// Whether the next Step of a task that waits for nothing blocks.
fn is_still(clear: FenceClear, task: &Task, memory: &ImageMemory) -> bool
    ensures { result ≡ is_next_still task.now.frame.todo clear task.now memory.now }
{
    match task.frame.todo.top() {
        None => true,
        Some(Todo::Does(statement)) => is_statement_still(statement, clear, task, memory),
        Some(Todo::Turns { .. }) => false,
        Some(Todo::Closes) => true,
        Some(Todo::Returns(_)) => task.below.is_empty(),
        Some(Todo::Ends) => false,
    }
}

/// Whether the next Step of a task blocks.
pub(crate) fn is_task_still(clear: FenceClear, task: &Task, memory: &ImageMemory) -> bool
    ensures { result ≡ task_still clear task.now memory.now }
{
    match task.wait {
        Some(_) => true,
        None => is_still(clear, task, memory),
    }
}
