//! What the instructions do that reach other images.

ghost use Rattle.std.specs.Prelude.{◌≡◌, ◌<◌, ◌≤◌, ◌^◌, length, map, List, ℤ, Result, IfOk, IsTrue, false, slice_get};
ghost use Rattle.caf_base.specs.Orders.{copy_order as copies, ship_order};
ghost use Rattle.caf_base.specs.Places.{event_of, section_of};
ghost use Rattle.caf_base.specs.ImageMemory.{ImageMemory};
ghost use Rattle.caf_base.specs.declared.operation.EventAt.{EventAt};
ghost use Rattle.caf_base.specs.declared.operation.Section.{Section};
ghost use Rattle.caf_base.specs.declared.trap.Trap.{Trap};
ghost use Rattle.caf_code.specs.Did.{Did, on_one, on_place};
ghost use Rattle.caf_code.specs.Operations.{does_ask, does_event, does_put, does_spawn, does_use, on_element};
ghost use Rattle.caf_code.specs.Shapes.{dummies_in, is_copy, is_one_section, sort_of, with_rank};
ghost use Rattle.caf_code.specs.Task.{with_stack};
ghost use Rattle.caf_code.specs.declared.instr.EventUse.TheVariants as event;
ghost use Rattle.caf_code.specs.declared.instr.SectionUse.TheVariants as purpose;
ghost use Rattle.caf_memory.specs.Placed.{CanFind, IsAimed};
ghost use Rattle.caf_vm.specs.Draft.{memory_in, task_in};
ghost use Rattle.caf_vm.specs.Left.{after_of, left_by};
ghost use Rattle.caf_vm.specs.Ready.{AllAimed, element_ready};

use crate::draft::Draft;
use crate::ends::{commit, finish, trap};
use crate::listed::{event_for, listed_copy, one_section};
use crate::{Memory, Task};
use caf_base::{
    CopyEvents, CopyOrder, Effect, EventAt, EventWanted, Need, OpSpec, Place, Section,
    SectionWanted, Sequence, Trap,
};
use caf_code::{ElementForm, Listing, PlaceForm, Role, Wait};
use caf_memory::ImageMemory;

pub fn ask(
    mut draft: Draft,
    task: &mut Task,
    memory: &mut ImageMemory,
    form: ElementForm,
) -> Result<Effect, Memory>
    requires room { draft.address < 2 ^ 63 }
    requires aimed { AllAimed memory.old }
    requires ready { element_ready form ≤ length (task_in draft task.old).frame.stack }
    ensures { IfOk result (λ e. after_of e task.new memory.new ≡ left_by (does_ask form (task_in draft task.old) (memory_in draft memory.old)) task.old memory.old) }
{
    match element(&mut draft, task, memory, form) {
        Ok(section) => {
            commit(draft, task, memory)?;
            task.skip();
            task.wait_for_value()?;
            Ok(Effect::Begins(OpSpec::Read(section)))
        }
        Err(cause) => Ok(trap(&draft, memory, cause)),
    }
}

pub fn put(
    mut draft: Draft,
    task: &mut Task,
    memory: &mut ImageMemory,
    form: ElementForm,
) -> Result<Effect, Memory>
    requires room { draft.address < 2 ^ 63 }
    requires aimed { AllAimed memory.old }
    requires ready { element_ready form < length (task_in draft task.old).frame.stack }
    ensures { IfOk result (λ e. after_of e task.new memory.new ≡ left_by (does_put form (task_in draft task.old) (memory_in draft memory.old)) task.old memory.old) }
{
    let value = draft.pop(task);
    match element(&mut draft, task, memory, form) {
        Ok(section) => {
            let effect = Effect::Begins(OpSpec::Write(section, value));
            let effect = finish(draft, task, memory, effect)?;
            task.wait_for(Wait::Written);
            Ok(effect)
        }
        Err(cause) => Ok(trap(&draft, memory, cause)),
    }
}

// The element that a form names, with the traps of its tests.
fn element(
    draft: &mut Draft,
    task: &Task,
    memory: &ImageMemory,
    form: ElementForm,
) -> Result<Section, Trap>
    requires aimed { AllAimed memory.now }
    requires ready { element_ready form ≤ length (task_in draft.old task.now).frame.stack }
    ensures pops { (go : Result Section Trap → List ℤ → Did) → on_element form (task_in draft.old task.now).frame.stack (memory_in draft.old memory.now) go ≡ go result (task_in draft.new task.now).frame.stack }
    ensures task { task_in draft.old task.now ≡ with_stack (task_in draft.old task.now).frame.stack (task_in draft.new task.now) }
    ensures address { draft.new.address ≡ draft.old.address }
    ensures writes { draft.new.writes ≡ draft.old.writes }
{
    match form {
        ElementForm::Coindexed(object, place) => {
            let place = draft.pop_place(task, place);
            let index = draft.pop(task);
            memory.element_section(object, index, place)
        }
        ElementForm::Pointed(copointer) => {
            let index = draft.pop(task);
            is_aimed(memory, copointer);
            memory.pointed_section(copointer, index)
        }
    }
}

pub fn aim(
    draft: Draft,
    task: &mut Task,
    memory: &mut ImageMemory,
    copointer: u32,
) -> Result<Effect, Memory>
    requires room { draft.address < 2 ^ 63 }
    requires aimed { AllAimed memory.old }
    requires ready { IsTrue (is_one_section (map sort_of (task_in draft task.old).frame.listed)) }
    ensures { IfOk result (λ e. after_of e task.new memory.new ≡ left_by (does_use (purpose.Aim copointer) (task_in draft task.old) (memory_in draft memory.old)) task.old memory.old) }
{
    let wanted = one_section(&draft, task);
    match section(memory, &wanted) {
        Ok(section) => {
            let effect = finish(draft, task, memory, Effect::Ran)?;
            memory.set_copointer(copointer, section);
            Ok(effect)
        }
        Err(cause) => Ok(trap(&draft, memory, cause)),
    }
}

pub fn copy(draft: Draft, task: &mut Task, memory: &mut ImageMemory) -> Result<Effect, Memory>
    requires room { draft.address < 2 ^ 63 }
    requires aimed { AllAimed memory.old }
    requires ready { IsTrue (is_copy (map sort_of (task_in draft task.old).frame.listed)) }
    ensures { IfOk result (λ e. after_of e task.new memory.new ≡ left_by (does_use purpose.Copy (task_in draft task.old) (memory_in draft memory.old)) task.old memory.old) }
{
    let (dest, source, events) = listed_copy(&draft, task);
    match copy_order(memory, &dest, &source, &events) {
        Ok(order) => finish(draft, task, memory, Effect::Begins(OpSpec::Copy(order))),
        Err(cause) => Ok(trap(&draft, memory, cause)),
    }
}

pub fn notify(
    mut draft: Draft,
    task: &mut Task,
    memory: &mut ImageMemory,
    object: u32,
    place: PlaceForm,
) -> Result<Effect, Memory>
    requires room { draft.address < 2 ^ 63 }
    requires ready { with_rank place 1 ≤ length (task_in draft task.old).frame.stack }
    ensures { IfOk result (λ e. after_of e task.new memory.new ≡ left_by (does_event (event.Notify object place) (task_in draft task.old) (memory_in draft memory.old)) task.old memory.old) }
{
    match event_at(&mut draft, task, memory, object, place) {
        Ok(event) => finish(draft, task, memory, Effect::Begins(OpSpec::Notice(event))),
        Err(cause) => Ok(trap(&draft, memory, cause)),
    }
}

// The event that stands on the operands, with the traps of its tests.
fn event_at(
    draft: &mut Draft,
    task: &Task,
    memory: &ImageMemory,
    object: u32,
    place: PlaceForm,
) -> Result<EventAt, Trap>
    requires { with_rank place 1 ≤ length (task_in draft.old task.now).frame.stack }
    ensures pops { (go : Result EventAt Trap → List ℤ → Did) → on_place place (task_in draft.old task.now).frame.stack (memory_in draft.old memory.now) (λ at below. on_one below (memory_in draft.old memory.now) (λ index rest. go (event_of (memory_in draft.old memory.now) object index at) rest)) ≡ go result (task_in draft.new task.now).frame.stack }
    ensures task { task_in draft.old task.now ≡ with_stack (task_in draft.old task.now).frame.stack (task_in draft.new task.now) }
    ensures address { draft.new.address ≡ draft.old.address }
    ensures writes { draft.new.writes ≡ draft.old.writes }
{
    let place = draft.pop_place(task, place);
    let index = draft.pop(task);
    memory.event(&EventWanted {
        object,
        index,
        place,
    })
}

pub fn wait(
    mut draft: Draft,
    task: &mut Task,
    memory: &mut ImageMemory,
    object: u32,
) -> Result<Effect, Memory>
    requires room { draft.address < 2 ^ 63 }
    requires ready { 1 ≤ length (task_in draft task.old).frame.stack }
    ensures { IfOk result (λ e. after_of e task.new memory.new ≡ left_by (does_event (event.Wait object) (task_in draft task.old) (memory_in draft memory.old)) task.old memory.old) }
{
    let index = draft.pop(task);
    match memory.posts(object, index) {
        Ok(0) => Ok(Effect::Blocks(Need::Event(object, index))),
        Ok(posts) => {
            let effect = finish(draft, task, memory, Effect::Ran)?;
            memory.set_posts(object, index, posts - 1).unwrap();
            Ok(effect)
        }
        Err(cause) => Ok(trap(&draft, memory, cause)),
    }
}

pub fn spawn(
    mut draft: Draft,
    task: &mut Task,
    memory: &mut ImageMemory,
    code: &Listing,
    sub: u32,
    place: PlaceForm,
) -> Result<Effect, Memory>
    requires room { draft.address < 2 ^ 63 }
    requires there { sub < length code.now.subs }
    requires ready { with_rank place (dummies_in (slice_get code.now.subs sub)) ≤ length (task_in draft task.old).frame.stack }
    ensures { IfOk result (λ e. after_of e task.new memory.new ≡ left_by (does_spawn code.now.subs sub place (task_in draft task.old) (memory_in draft memory.old)) task.old memory.old) }
{
    let dummies = code.subs.as_slice()[sub as usize].dummies.len();
    let done = event_for(&draft, task, Role::Done);
    let place = draft.pop_place(task, place);
    let arguments = draft.pop_many(task, dummies)?;
    match ship(memory, sub, arguments, done, place) {
        Ok(order) => finish(draft, task, memory, Effect::Begins(order)),
        Err(cause) => Ok(trap(&draft, memory, cause)),
    }
}

// A ship, with the traps of its tests.
fn ship(
    memory: &ImageMemory,
    sub: u32,
    arguments: Vec<i64>,
    event: Option<EventWanted>,
    place: Place,
) -> Result<OpSpec, Trap>
    ensures { result ≡ ship_order memory.now sub arguments.items event place }
{
    let done = memory.event_found(event)?;
    let target = memory.image_of(place)?;
    Ok(OpSpec::Ship {
        target,
        sub,
        args: Sequence::from_vec(arguments),
        done,
    })
}

// A section, with the traps of its tests.
fn section(memory: &ImageMemory, wanted: &SectionWanted) -> Result<Section, Trap>
    requires { AllAimed memory.now }
    ensures { result ≡ section_of false memory.now wanted.now }
{
    can_find(memory, *wanted);
    memory.section(false, wanted)
}

// A copy, with the traps of its tests.
fn copy_order(
    memory: &ImageMemory,
    dest: &SectionWanted,
    source: &SectionWanted,
    events: &CopyEvents,
) -> Result<CopyOrder, Trap>
    requires { AllAimed memory.now }
    ensures { result ≡ copies memory.now dest.now source.now events.now }
{
    can_find(memory, *dest);
    can_find(memory, *source);
    memory.copy_order(dest, source, events)
}

// Each index of what a copointer aims at fits.
fn is_aimed(memory: &ImageMemory, copointer: u32)
    requires { AllAimed memory.now }
    ensures { IsAimed memory.now copointer }
{
    let _aim = memory.copointer(copointer);
}

// The same of the copointer of a section, if it names one.
fn can_find(memory: &ImageMemory, wanted: SectionWanted)
    requires { AllAimed memory.now }
    ensures { CanFind memory.now wanted }
{
    if let SectionWanted::Pointed(copointer, _) = wanted {
        is_aimed(memory, copointer);
    }
}
