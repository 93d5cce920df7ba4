ghost use Rattle.std.specs.Prelude.{◌≡◌, ◌≤◌, ◌++◌, [], ◌∷◌, IfOk, OnOk, length, map, replicate, pos, Some, slice_get};
ghost use Rattle.std.specs.List.{flat_map};
ghost use Rattle.caf_program.specs.View.{seen};
ghost use Rattle.caf_base.specs.declared.fence.FenceClear.{FenceClear};
ghost use Rattle.caf_program.specs.declared.stmt.StmtR.TheOpen.{StmtR-F};
ghost use Rattle.caf_program.specs.declared.stmt.StmtR.TheViews.{roll-StmtR};
ghost use Rattle.caf_program.specs.Expressions.{count_all, of_actual};
ghost use Rattle.caf_treestep.specs.declared.argument.Argument.{Argument};
ghost use Rattle.caf_treestep.specs.declared.todo.Todo.TheVariants as item;
ghost use Rattle.caf_treestep.specs.Evaluated.{held_by_actual, outs_from, seen_in, arguments_of};
ghost use Rattle.caf_treestep.specs.Finds.{Finds};
ghost use Rattle.caf_treestep.specs.Step.{called as frame_called, cells_of_call, does_last, frame_of as frame_at, opened, returns_to, standing};
ghost use Rattle.caf_treestep.specs.Stood.{Leaves};
ghost use Rattle.caf_treestep.specs.Task.{all_of};

use crate::evaluated::{arguments, view};
use crate::loops::push_block;
use crate::statement::put_back;
use crate::variables::copy_out;
use crate::{Argument, CopyOut, Fault, Frame, Task, Todo};
use caf_base::{Effect, Memory, Need, Sequence, Stack, Trap};
use caf_memory::ImageMemory;
use caf_program::{ActualR, StmtR, SubR, View, copy_block};
use sqlite_items::Items;
use std::alloc::Global;
use std::mem;

/// The number of open calls of a task at which no further one is opened.
const DEPTH_LIMIT: usize = 200;

/// The cells of a subroutine's frame: its arguments, and 0 in each local.
fn cells(alloc: Global, arguments: &[Argument], locals: usize) -> Result<Sequence<i64>, Memory>
    ensures { IfOk result (λ cells. cells ≡ cells_of_call arguments.now locals) }
{
    let mut cells = Vec::new(alloc);
    for argument in arguments {
        cells.push(argument.value)?;
    }
    let zeros = vec![in alloc; 0_i64; locals]?;
    cells.extend_from_slice(zeros.as_slice())?;
    Ok(Sequence::from_vec(cells))
}

/// What is copied out at the end of a call with these arguments.
fn outs(alloc: Global, arguments: &[Argument]) -> Result<Sequence<CopyOut>, Memory>
    ensures { IfOk result (λ outs. outs ≡ outs_from 0 arguments.now) }
{
    let mut outs = Sequence::new(alloc);
    for (cell, argument) in arguments.iter().enumerate() {
        if let Some(target) = argument.out {
            let cell = u32::try_from(cell).map_err(|_| Memory)?;
            outs.push(CopyOut { cell, target })?;
        }
    }
    Ok(outs)
}

/// The frame of a call.
fn open(alloc: Global, sub: &SubR, arguments: &[Argument]) -> Result<Frame, Memory>
    ensures { IfOk result (λ frame. frame ≡ opened sub.now arguments.now) }
{
    let body = copy_block(alloc, sub.body.as_slice())?;
    let outs = outs(alloc, arguments)?;
    let mut todo = Stack::new(alloc);
    todo.push(Todo::Returns(outs))?;
    push_block(&mut todo, body)?;
    let locals = cells(alloc, arguments, sub.locals.len())?;
    Ok(Frame { locals, todo })
}

/// The frame of a call of a subroutine where so many calls are open, or trap `Depth`.
fn frame_of(
    alloc: Global,
    subs: &[SubR],
    sub: u32,
    open_calls: usize,
    arguments: &[Argument],
) -> Result<Frame, Fault>
    ensures { Finds (frame_at (slice_get subs.now sub) open_calls arguments.now) result }
{
    let Some(sub) = subs.get(sub as usize) else {
        return Err(Fault::Trap(Trap::Depth));
    };
    if open_calls >= DEPTH_LIMIT {
        return Err(Fault::Trap(Trap::Depth));
    }
    Ok(open(alloc, sub, arguments)?)
}

/// The frame of a call: its arguments are evaluated, and then its depth is tested.
#[tactic(auto, using(crate::proofs::Found::held_by_actuals))]
fn called(
    alloc: Global,
    subs: &[SubR],
    sub: u32,
    actuals: &[ActualR],
    open_calls: usize,
    view: &View,
) -> Result<Frame, Fault>
    requires { count_all (flat_map of_actual actuals.now) ≤ length view.now.held.now }
    ensures { Finds (frame_called (slice_get subs.now sub) actuals.now open_calls (seen view.now)) result }
{
    let mut at = 0;
    let arguments = arguments(alloc, actuals, view, &mut at)?;
    frame_of(alloc, subs, sub, open_calls, arguments.as_slice())
}

/// The last Step of a `call`.
pub(crate) fn step_call(
    alloc: Global,
    subs: &[SubR],
    task: &mut Task,
    memory: &ImageMemory,
    line: u32,
    sub: u32,
    actuals: Items<ActualR>,
) -> Result<Effect, Memory>
    requires { count_all (flat_map of_actual actuals) ≤ length task.old.held }
    ensures { (clear : FenceClear) → IfOk result (λ e. Leaves e (does_last subs.now clear (StmtR-F.Call line sub actuals) (standing (item.Does (roll-StmtR (StmtR-F.Call line sub actuals))) task.old memory.now)) task.new memory.now) }
{
    let seen = view(memory, task.frame.locals.as_slice(), task.held.as_slice());
    match called(
        alloc,
        subs,
        sub,
        actuals.as_slice(),
        task.below.len(),
        &seen,
    ) {
        Ok(frame) => {
            let caller = mem::replace(&mut task.frame, frame);
            task.below.push(caller)?;
            task.held = Sequence::new(alloc);
            Ok(Effect::Ran)
        }
        Err(Fault::Trap(trap)) => put_back(
            task,
            Todo::Does(StmtR::Call { line, sub, actuals }),
            trap,
        ),
        Err(Fault::Memory) => Err(Memory),
    }
}

/// The end of a called subroutine.
pub(crate) fn step_return(
    alloc: Global,
    task: &mut Task,
    memory: &mut ImageMemory,
    outs: Sequence<CopyOut>,
) -> Result<Effect, Memory>
    ensures { IfOk result (λ e. Leaves e (returns_to task.old.below outs (standing (item.Returns outs) task.old memory.old)) task.new memory.new) }
{
    let Some(mut caller) = task.below.pop() else {
        task.frame.todo.push(Todo::Returns(outs))?;
        return Ok(Effect::Blocks(Need::Finish));
    };
    copy_out(
        outs.as_slice(),
        task.frame.locals.as_slice(),
        &mut caller.locals,
        memory,
    );
    task.frame = caller;
    task.held = Sequence::new(alloc);
    Ok(Effect::Ran)
}
