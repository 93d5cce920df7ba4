//! The last Steps of the statements that begin an operation.

ghost use Rattle.std.specs.Prelude.{◌≡◌, ◌+◌, ◌≤◌, ◌++◌, [], ◌∷◌, IfOk, OnOk, length, map, sum_by};
ghost use Rattle.std.specs.List.{flat_map};
ghost use Rattle.caf_base.specs.Orders.{ship_order as order_of};
ghost use Rattle.caf_program.specs.declared.parts.VariableR.TheVariants as variable;
ghost use Rattle.caf_program.specs.declared.stmt.StmtR.TheOpen.{StmtR-F};
ghost use Rattle.caf_program.specs.Expressions.{count_all, of_actual, of_copy_event, of_done, of_event, of_section};
ghost use Rattle.caf_program.specs.Value.{count};
ghost use Rattle.caf_program.specs.View.{seen};
ghost use Rattle.caf_treestep.specs.declared.argument.Argument.{Argument};
ghost use Rattle.caf_treestep.specs.Evaluated.{held_by_actual, held_by_copy_event};
ghost use Rattle.caf_treestep.specs.Finds.{Finds};
ghost use Rattle.caf_treestep.specs.Placeable.{IsPlaceable};
ghost use Rattle.caf_treestep.specs.Step.{coindexed_write as write_at, copy as copy_of, notice as notice_of, pointed_write as write_behind, ship as ship_of, values_of};
ghost use Rattle.caf_treestep.specs.Stood.{IsLastStep};

use crate::evaluated::{arguments, view};
use crate::statement::put_back;
use crate::wanted::{copy_events, event, event_if, place, section};
use crate::{Argument, Fault, Task, Todo, Wait};
use caf_base::{Effect, EventWanted, Memory, OpSpec, Place, Sequence, Trap};
use caf_memory::ImageMemory;
use caf_program::{
    ActualR, CopyEventR, EventR, ExprR, PlaceR, SectionR, StmtR, VariableR, View, eval_from,
};
use sqlite_items::Items;
use std::alloc::Global;

/// A blocking write of an element at a place.
fn coindexed_write(
    object: u32,
    index: &ExprR,
    to: &PlaceR<ExprR>,
    value: &ExprR,
    view: &View,
    memory: &ImageMemory,
    at: &mut usize,
) -> Result<OpSpec, Trap>
    requires { at.old + count index.now + count to.now.rank + count value.now ≤ length view.now.held.now }
    ensures { result ≡ write_at object index.now to.now value.now at.old (seen view.now) memory.now }
{
    let index = eval_from(index, view, at)?;
    let to = place(to, view, at)?;
    let value = eval_from(value, view, at)?;
    let section = memory.element_section(object, index, to)?;
    Ok(OpSpec::Write(section, value))
}

/// A blocking write of an element behind a copointer.
fn pointed_write(
    copointer: u32,
    index: &ExprR,
    value: &ExprR,
    view: &View,
    memory: &ImageMemory,
    at: &mut usize,
) -> Result<OpSpec, Trap>
    requires memory { IsPlaceable memory.now }
    requires held { at.old + count index.now + count value.now ≤ length view.now.held.now }
    ensures { result ≡ write_behind copointer index.now value.now at.old (seen view.now) memory.now }
{
    let index = eval_from(index, view, at)?;
    let value = eval_from(value, view, at)?;
    let section = memory.pointed_section(copointer, index)?;
    Ok(OpSpec::Write(section, value))
}

/// The last Step of an assignment to an element at a place.
pub(crate) fn step_coindexed(
    alloc: Global,
    task: &mut Task,
    memory: &ImageMemory,
    line: u32,
    object: u32,
    index: ExprR,
    place: PlaceR<ExprR>,
    value: ExprR,
) -> Result<Effect, Memory>
    requires { count_all (index ∷ place.rank ∷ value ∷ []) ≤ length task.old.held }
    ensures { IsLastStep (StmtR-F.Assign line (variable.Coindexed object index place) value) task.old memory.now result task.new memory.now }
{
    let seen = view(memory, task.frame.locals.as_slice(), task.held.as_slice());
    match coindexed_write(object, &index, &place, &value, &seen, memory, &mut 0) {
        Ok(what) => {
            task.held = Sequence::new(alloc);
            task.wait = Some(Wait::Done);
            Ok(Effect::Begins(what))
        }
        Err(trap) => {
            let target = VariableR::Coindexed {
                object,
                index,
                place,
            };
            let statement = StmtR::Assign {
                line,
                target,
                value,
            };
            put_back(task, Todo::Does(statement), trap)
        }
    }
}

/// The last Step of an assignment to an element behind a copointer.
pub(crate) fn step_pointed(
    alloc: Global,
    task: &mut Task,
    memory: &ImageMemory,
    line: u32,
    copointer: u32,
    index: ExprR,
    value: ExprR,
) -> Result<Effect, Memory>
    requires memory { IsPlaceable memory.now }
    requires held { count_all (index ∷ value ∷ []) ≤ length task.old.held }
    ensures { IsLastStep (StmtR-F.Assign line (variable.Pointed copointer index) value) task.old memory.now result task.new memory.now }
{
    let seen = view(memory, task.frame.locals.as_slice(), task.held.as_slice());
    match pointed_write(copointer, &index, &value, &seen, memory, &mut 0) {
        Ok(what) => {
            task.held = Sequence::new(alloc);
            task.wait = Some(Wait::Done);
            Ok(Effect::Begins(what))
        }
        Err(trap) => {
            let target = VariableR::Pointed(copointer, index);
            let statement = StmtR::Assign {
                line,
                target,
                value,
            };
            put_back(task, Todo::Does(statement), trap)
        }
    }
}

/// The notice of an `event_notify`.
fn notice(
    posted: &EventR,
    view: &View,
    memory: &ImageMemory,
    at: &mut usize,
) -> Result<OpSpec, Trap>
    requires { at.old + count_all (of_event posted.now) ≤ length view.now.held.now }
    ensures { result ≡ notice_of posted.now at.old (seen view.now) memory.now }
{
    let wanted = event(posted, view, at)?;
    let found = memory.event(&wanted)?;
    Ok(OpSpec::Notice(found))
}

/// The last Step of an `event_notify`.
pub(crate) fn step_notify(
    alloc: Global,
    task: &mut Task,
    memory: &ImageMemory,
    line: u32,
    event: EventR,
) -> Result<Effect, Memory>
    requires { count_all (of_event event) ≤ length task.old.held }
    ensures { IsLastStep (StmtR-F.Notify line event) task.old memory.now result task.new memory.now }
{
    let seen = view(memory, task.frame.locals.as_slice(), task.held.as_slice());
    match notice(&event, &seen, memory, &mut 0) {
        Ok(what) => {
            task.held = Sequence::new(alloc);
            Ok(Effect::Begins(what))
        }
        Err(trap) => put_back(task, Todo::Does(StmtR::Notify { line, event }), trap),
    }
}

/// The copy of a `copy_async`.
fn copy(
    dest: &SectionR,
    source: &SectionR,
    events: &[CopyEventR],
    view: &View,
    memory: &ImageMemory,
    at: &mut usize,
) -> Result<OpSpec, Trap>
    requires memory { IsPlaceable memory.now }
    requires held { at.old + count_all (of_section dest.now) + count_all (of_section source.now) + sum_by held_by_copy_event events.now ≤ length view.now.held.now }
    ensures { result ≡ copy_of dest.now source.now events.now at.old (seen view.now) memory.now }
{
    let dest = section(dest, view, at)?;
    let source = section(source, view, at)?;
    let events = copy_events(events, view, at)?;
    let order = memory.copy_order(&dest, &source, &events)?;
    Ok(OpSpec::Copy(order))
}

/// The last Step of a `copy_async`.
#[tactic(auto, using(crate::proofs::Found::held_by_copy))]
pub(crate) fn step_copy(
    alloc: Global,
    task: &mut Task,
    memory: &ImageMemory,
    line: u32,
    dest: SectionR,
    source: SectionR,
    events: Items<CopyEventR>,
) -> Result<Effect, Memory>
    requires memory { IsPlaceable memory.now }
    requires held { count_all (of_section dest ++ of_section source ++ flat_map of_copy_event events) ≤ length task.old.held }
    ensures { IsLastStep (StmtR-F.Copy line dest source events) task.old memory.now result task.new memory.now }
{
    let seen = view(memory, task.frame.locals.as_slice(), task.held.as_slice());
    match copy(&dest, &source, events.as_slice(), &seen, memory, &mut 0) {
        Ok(what) => {
            task.held = Sequence::new(alloc);
            Ok(Effect::Begins(what))
        }
        Err(trap) => {
            let statement = StmtR::Copy {
                line,
                dest,
                source,
                events,
            };
            put_back(task, Todo::Does(statement), trap)
        }
    }
}

/// The values of arguments.
fn values(alloc: Global, arguments: &[Argument]) -> Result<Sequence<i64>, Memory>
    ensures { IfOk result (λ values. values ≡ map (λ (x : Argument). x.value) arguments.now) }
{
    let mut values = Sequence::new(alloc);
    for argument in arguments {
        values.push(argument.value)?;
    }
    Ok(values)
}

/// The values of the arguments of a ship.
fn argument_values(
    alloc: Global,
    actuals: &[ActualR],
    view: &View,
    at: &mut usize,
) -> Result<Sequence<i64>, Fault>
    requires { at.old + sum_by held_by_actual actuals.now ≤ length view.now.held.now }
    ensures value { Finds (values_of actuals.now at.old (seen view.now)) result }
    ensures at { OnOk result (at.new ≡ at.old + sum_by held_by_actual actuals.now) }
{
    let arguments = arguments(alloc, actuals, view, at)?;
    Ok(values(alloc, arguments.as_slice())?)
}

/// The tests of a ship.
fn ship_order(
    sub: u32,
    args: Sequence<i64>,
    event: Option<EventWanted>,
    to: Place,
    memory: &ImageMemory,
) -> Result<OpSpec, Trap>
    ensures { result ≡ order_of memory.now sub args event to }
{
    let done = memory.event_found(event)?;
    let target = memory.image_of(to)?;
    Ok(OpSpec::Ship {
        target,
        sub,
        args,
        done,
    })
}

/// The ship of a `spawn`.
fn ship(
    alloc: Global,
    done: &Option<EventR>,
    sub: u32,
    actuals: &[ActualR],
    to: &PlaceR<ExprR>,
    view: &View,
    memory: &ImageMemory,
    at: &mut usize,
) -> Result<OpSpec, Fault>
    requires { at.old + count_all (of_done done.now) + sum_by held_by_actual actuals.now + count to.now.rank ≤ length view.now.held.now }
    ensures { Finds (ship_of done.now sub actuals.now to.now at.old (seen view.now) memory.now) result }
{
    let event = event_if(done, view, at)?;
    let args = argument_values(alloc, actuals, view, at)?;
    let to = place(to, view, at)?;
    let what = ship_order(sub, args, event, to, memory)?;
    Ok(what)
}

/// The last Step of a `spawn`.
#[tactic(auto, using(crate::proofs::Found::held_by_ship))]
pub(crate) fn step_spawn(
    alloc: Global,
    task: &mut Task,
    memory: &ImageMemory,
    line: u32,
    done: Option<EventR>,
    sub: u32,
    actuals: Items<ActualR>,
    place: PlaceR<ExprR>,
) -> Result<Effect, Memory>
    requires { count_all (of_done done ++ flat_map of_actual actuals ++ (place.rank ∷ [])) ≤ length task.old.held }
    ensures { IsLastStep (StmtR-F.Spawn line done sub actuals place) task.old memory.now result task.new memory.now }
{
    let seen = view(memory, task.frame.locals.as_slice(), task.held.as_slice());
    match ship(
        alloc,
        &done,
        sub,
        actuals.as_slice(),
        &place,
        &seen,
        memory,
        &mut 0,
    ) {
        Ok(what) => {
            task.held = Sequence::new(alloc);
            Ok(Effect::Begins(what))
        }
        Err(Fault::Trap(trap)) => {
            let statement = StmtR::Spawn {
                line,
                done,
                sub,
                actuals,
                place,
            };
            put_back(task, Todo::Does(statement), trap)
        }
        Err(Fault::Memory) => Err(Memory),
    }
}
