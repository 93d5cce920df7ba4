ghost use Rattle.std.specs.Prelude.{◌≡◌, ◌+◌, ◌++◌, ◌≤◌, OnOk, IfOk, length};
ghost use Rattle.caf_program.specs.Value.{count};
ghost use Rattle.caf_program.specs.View.{seen};
ghost use Rattle.caf_treestep.specs.Step.{bounds_by as by, bounds_of, turns};
ghost use Rattle.caf_treestep.specs.Task.{all_of};

use crate::{Bounds, Todo};
use caf_base::{Memory, Stack, Trap, iteration_count};
use caf_program::{ExprR, LoopVariableR, StmtR, View, copy_block, eval_from};
use sqlite_items::Items;
use std::alloc::Global;

/// Puts the statements of a block before what there is to do.
pub fn push_block(todo: &mut Stack<Todo>, mut block: Items<StmtR>) -> Result<(), Memory>
    ensures { OnOk result (todo.new ≡ all_of block ++ todo.old) }
{
    while let Some(statement) = block.pop() {
        todo.push(Todo::Does(statement))?;
    }
    Ok(())
}

/// Puts what is left of a `do` before what there is to do.
pub(crate) fn push_turns(
    alloc: Global,
    todo: &mut Stack<Todo>,
    variable: LoopVariableR,
    step: i64,
    left: u128,
    body: Items<StmtR>,
) -> Result<(), Memory>
    ensures { OnOk result (todo.new ≡ turns left variable step body todo.old) }
{
    if left == 0 {
        return Ok(());
    }
    let turn = copy_block(alloc, body.as_slice())?;
    todo.push(Todo::Turns {
        variable,
        step,
        left,
        body,
    })?;
    push_block(todo, turn)
}

/// The bounds of a `do`, or trap `Step` where its step is 0.
pub(crate) fn bounds(
    first: &ExprR,
    last: &ExprR,
    step: &ExprR,
    view: &View,
    at: &mut usize,
) -> Result<Bounds, Trap>
    requires { at.old + count first.now + count last.now + count step.now ≤ length view.now.held.now }
    ensures { result ≡ bounds_of first.now last.now step.now at.old (seen view.now) }
{
    let first = eval_from(first, view, at)?;
    let last = eval_from(last, view, at)?;
    let step = eval_from(step, view, at)?;
    bounds_by(first, last, step)
}

/// The bounds by their numbers.
fn bounds_by(first: i64, last: i64, step: i64) -> Result<Bounds, Trap>
    ensures { result ≡ by first last step }
{
    if step == 0 {
        return Err(Trap::Step);
    }
    let count = iteration_count(first, last, step);
    Ok(Bounds { first, step, count })
}
