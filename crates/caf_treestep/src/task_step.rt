ghost use Rattle.std.specs.Prelude.{◌≡◌, ◌≤◌, ◌++◌, [], ◌∷◌, IfNone, IfOk, length};
ghost use Rattle.caf_program.specs.declared.stmt.StmtR.TheOpen.{StmtR-F};
ghost use Rattle.caf_program.specs.declared.stmt.StmtR.TheViews.{out-StmtR};
ghost use Rattle.caf_program.specs.Expressions.{count_all, expressions as expressions_of, of_variable, reads_all};
ghost use Rattle.caf_base.specs.ImageMemory.{ImageMemory};
ghost use Rattle.caf_treestep.specs.declared.todo.Todo.TheVariants as item;
ghost use Rattle.caf_treestep.specs.Evaluated.{seen_in};
ghost use Rattle.caf_treestep.specs.Placeable.{IsPlaceable};
ghost use Rattle.caf_treestep.specs.Reading.{HoldsAll, does_unread, next_read as read_after, read_first, reads_at_once, unread_first};
ghost use Rattle.caf_treestep.specs.Step.{does_last, need_of as need_by, standing, step as step_of};
ghost use Rattle.caf_treestep.specs.Stood.{IsLastStep, Leaves};

use crate::begins::{step_coindexed, step_copy, step_notify, step_pointed, step_spawn};
use crate::call::{step_call, step_return};
use crate::evaluated::view;
use crate::expressions::expressions;
use crate::reading::next_read;
use crate::statement::{step_assign, step_do, step_if, step_print, step_turn, step_while};
use crate::waits::{step_aim, step_cofence, step_finish, step_split, step_wait};
use crate::{Task, Todo, Wait};
use caf_base::{Effect, FenceClear, Memory, Need, OpSpec, Section, Sequence, Trap};
use caf_memory::ImageMemory;
use caf_program::{ExprR, StmtR, SubR, VariableR};
use std::alloc::Global;

/// The element that a statement reads next, with the trap of its tests, or none where all are read.
fn read_of(
    alloc: Global,
    task: &Task,
    memory: &ImageMemory,
    statement: &StmtR,
) -> Result<Option<Result<Section, Trap>>, Memory>
    requires { IsPlaceable memory.now }
    ensures read { IfOk result (λ read. read ≡ read_after (reads_all (expressions_of statement.now) 0) 0 (seen_in memory.now task.now.frame.locals task.now.held) memory.now) }
    ensures held { IfOk result (λ read. IfNone read (count_all (expressions_of statement.now) ≤ length task.now.held)) }
{
    let all = expressions(alloc, statement)?;
    let seen = view(memory, task.frame.locals.as_slice(), task.held.as_slice());
    Ok(next_read(all.as_slice(), &seen, memory))
}

/// The element that a task reads next for the statement at hand, if it is at one and not all are read.
fn read_next(
    alloc: Global,
    task: &Task,
    memory: &ImageMemory,
) -> Result<Option<Result<Section, Trap>>, Memory>
    requires { IsPlaceable memory.now }
    ensures read { IfOk result (λ read. read ≡ read_first task.now.frame.todo (seen_in memory.now task.now.frame.locals task.now.held) memory.now) }
    ensures held { IfOk result (λ read. IfNone read (HoldsAll task.now.frame.todo (length task.now.held))) }
{
    match task.frame.todo.top() {
        Some(Todo::Does(statement)) => read_of(alloc, task, memory, statement),
        Some(Todo::Turns { .. }) => Ok(None),
        Some(Todo::Closes) => Ok(None),
        Some(Todo::Returns(_)) => Ok(None),
        Some(Todo::Ends) => Ok(None),
        None => Ok(None),
    }
}

/// The Step in which a task reads an element.
fn step_read(task: &mut Task, read: Result<Section, Trap>) -> Effect
    ensures { (m : ImageMemory) → Leaves result (reads_at_once read task.old m) task.new m }
{
    match read {
        Ok(section) => {
            task.wait = Some(Wait::Value);
            Effect::Begins(OpSpec::Read(section))
        }
        Err(trap) => Effect::Traps(trap),
    }
}

/// The last Step of an assignment.
fn step_assignment(
    alloc: Global,
    task: &mut Task,
    memory: &mut ImageMemory,
    line: u32,
    target: VariableR,
    value: ExprR,
) -> Result<Effect, Memory>
    requires memory { IsPlaceable memory.old }
    requires held { count_all (of_variable target ++ (value ∷ [])) ≤ length task.old.held }
    ensures { IsLastStep (StmtR-F.Assign line target value) task.old memory.old result task.new memory.new }
{
    match target {
        VariableR::Scalar(object) => {
            step_assign(alloc, task, memory, line, VariableR::Scalar(object), value)
        }
        VariableR::Local(cell) => {
            step_assign(alloc, task, memory, line, VariableR::Local(cell), value)
        }
        VariableR::Element(object, index) => {
            let target = VariableR::Element(object, index);
            step_assign(alloc, task, memory, line, target, value)
        }
        VariableR::Coindexed {
            object,
            index,
            place,
        } => step_coindexed(alloc, task, memory, line, object, index, place, value),
        VariableR::Pointed(copointer, index) => {
            step_pointed(alloc, task, memory, line, copointer, index, value)
        }
    }
}

/// The last Step of a statement that was taken off the list.
fn step_last(
    alloc: Global,
    subs: &[SubR],
    clear: FenceClear,
    task: &mut Task,
    memory: &mut ImageMemory,
    statement: StmtR,
) -> Result<Effect, Memory>
    requires memory { IsPlaceable memory.old }
    requires held { count_all (expressions_of statement) ≤ length task.old.held }
    ensures { IfOk result (λ e. Leaves e (does_last subs.now clear (out-StmtR statement) (standing (item.Does statement) task.old memory.old)) task.new memory.new) }
{
    match statement {
        StmtR::Assign {
            line,
            target,
            value,
        } => step_assignment(alloc, task, memory, line, target, value),
        StmtR::Aim {
            line,
            copointer,
            region,
        } => step_aim(alloc, task, memory, line, copointer, region),
        StmtR::Print { line, parts } => step_print(alloc, task, memory, line, parts),
        StmtR::If {
            line,
            condition,
            block,
            otherwise,
        } => step_if(alloc, task, memory, line, condition, block, otherwise),
        StmtR::Do {
            line,
            variable,
            first,
            last,
            step,
            body,
        } => step_do(alloc, task, memory, line, variable, first, last, step, body),
        StmtR::While {
            line,
            condition,
            body,
        } => step_while(alloc, task, memory, line, condition, body),
        StmtR::Call { line, sub, actuals } => {
            step_call(alloc, subs, task, memory, line, sub, actuals)
        }
        StmtR::Spawn {
            line,
            done,
            sub,
            actuals,
            place,
        } => step_spawn(alloc, task, memory, line, done, sub, actuals, place),
        StmtR::Notify { line, event } => step_notify(alloc, task, memory, line, event),
        StmtR::Wait { line, event } => step_wait(alloc, task, memory, line, event),
        StmtR::Copy {
            line,
            dest,
            source,
            events,
        } => step_copy(alloc, task, memory, line, dest, source, events),
        StmtR::Cofence { line, down } => step_cofence(alloc, clear, task, memory, line, down),
        StmtR::Split {
            line,
            team,
            colour,
            key,
            new,
        } => step_split(alloc, task, memory, line, team, colour, key, new),
        StmtR::Finish { line, team, body } => step_finish(alloc, task, memory, line, team, body),
    }
}

/// The Step of what was taken off the list, and for which nothing is to be read.
fn step_next(
    alloc: Global,
    subs: &[SubR],
    clear: FenceClear,
    task: &mut Task,
    memory: &mut ImageMemory,
    next: Todo,
) -> Result<Effect, Memory>
    requires memory { IsPlaceable memory.old }
    requires held { HoldsAll (next ∷ []) (length task.old.held) }
    ensures { IfOk result (λ e. Leaves e (does_unread subs.now clear next (standing next task.old memory.old)) task.new memory.new) }
{
    match next {
        Todo::Does(statement) => step_last(alloc, subs, clear, task, memory, statement),
        Todo::Turns {
            variable,
            step,
            left,
            body,
        } => step_turn(alloc, task, memory, variable, step, left, body),
        Todo::Closes => {
            task.frame.todo.push(Todo::Closes)?;
            Ok(Effect::Blocks(Need::Finish))
        }
        Todo::Returns(outs) => step_return(alloc, task, memory, outs),
        Todo::Ends => {
            task.held = Sequence::new(alloc);
            Ok(Effect::Ends(task.done))
        }
    }
}

/// The Step of a task that has nothing to read.
fn step_unread(
    alloc: Global,
    subs: &[SubR],
    clear: FenceClear,
    task: &mut Task,
    memory: &mut ImageMemory,
) -> Result<Effect, Memory>
    requires memory { IsPlaceable memory.old }
    requires held { HoldsAll task.old.frame.todo (length task.old.held) }
    ensures { IfOk result (λ e. Leaves e (unread_first task.old.frame.todo subs.now clear task.old memory.old) task.new memory.new) }
{
    let Some(next) = task.frame.todo.pop() else {
        return Ok(Effect::Blocks(Need::Finish));
    };
    step_next(alloc, subs, clear, task, memory, next)
}

/// What a task that waits needs.
fn need_of(wait: Wait) -> Need
    ensures { result ≡ need_by wait }
{
    match wait {
        Wait::Value => Need::Operation,
        Wait::Done => Need::Operation,
        Wait::NewTeam(_) => Need::Split,
    }
}

/// One Step of a task of a program with these subroutines, where its implicit copies are as `clear` tells: the effect, with
/// the task and its image's memory as after it. A Step that blocks or traps changes neither. After [`Memory`] neither
/// is what it was, and both are to be let go.
pub fn step_task(
    alloc: Global,
    subs: &[SubR],
    clear: FenceClear,
    task: &mut Task,
    memory: &mut ImageMemory,
) -> Result<Effect, Memory>
    requires memory { IsPlaceable memory.old }
    ensures step { IfOk result (λ e. Leaves e (step_of subs.now clear task.old memory.old) task.new memory.new) }
    ensures memory { IfOk result (λ _. IsPlaceable memory.new) }
{
    if let Some(wait) = task.wait {
        return Ok(Effect::Blocks(need_of(wait)));
    }
    match read_next(alloc, task, memory)? {
        Some(read) => Ok(step_read(task, read)),
        None => step_unread(alloc, subs, clear, task, memory),
    }
}
