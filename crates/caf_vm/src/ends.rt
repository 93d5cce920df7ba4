//! What each instruction does that ends its step.
//!
//! A row makes its tests on the draft of the step, and takes it over once the step is known to go on.

ghost use Rattle.std.specs.Prelude.{◌≡◌, ◌<◌, ◌≤◌, ◌^◌, length, IfOk, OnOk};
ghost use Rattle.caf_base.specs.declared.effect.Effect.TheVariants as effect;
ghost use Rattle.caf_code.specs.Did.{stops};
ghost use Rattle.caf_code.specs.Flow.{does_again, does_enter, does_next, does_test};
ghost use Rattle.caf_code.specs.Operations.{does_cofence};
ghost use Rattle.caf_vm.specs.Draft.{memory_in, put, saved, task_in};
ghost use Rattle.caf_vm.specs.Left.{after_of, left_by};

use crate::draft::{Draft, Write};
use crate::{Memory, Task};
use caf_base::{Down, Effect, FenceClear, Need, Trap};
use caf_code::Loop;
use caf_memory::ImageMemory;

// Writes what a step has written.
fn save(memory: &mut ImageMemory, writes: &[Write])
    ensures { memory.new ≡ saved writes.now memory.old }
{
    for write in writes {
        put_one(memory, *write);
    }
}

// Makes one write, where it is within bounds.
fn put_one(memory: &mut ImageMemory, write: Write)
    ensures { memory.new ≡ put memory.old write }
{
    let _written = memory.write(write.object, write.index, write.value);
}

// Takes over what a step has done.
pub fn commit(draft: Draft, task: &mut Task, memory: &mut ImageMemory) -> Result<(), Memory>
    ensures task { OnOk result (task.new ≡ task_in draft task.old) }
    ensures memory { OnOk result (memory.new ≡ memory_in draft memory.old) }
{
    save(memory, draft.writes.as_slice());
    task.carry(draft)
}

// The step ends behind its instruction.
pub fn finish(
    draft: Draft,
    task: &mut Task,
    memory: &mut ImageMemory,
    effect: Effect,
) -> Result<Effect, Memory>
    requires { draft.address < 2 ^ 63 }
    ensures { IfOk result (λ e. after_of e task.new memory.new ≡ left_by (stops effect (task_in draft task.old).frame.stack (task_in draft task.old) (memory_in draft memory.old)) task.old memory.old) }
{
    commit(draft, task, memory)?;
    let address = task.address() + 1;
    task.stop(address);
    Ok(effect)
}

// The step stops at a trap: what it wrote stays, and the task is as it was.
pub fn trap(draft: &Draft, memory: &mut ImageMemory, trap: Trap) -> Effect
    ensures effect { result ≡ Effect.Traps trap }
    ensures memory { memory.new ≡ memory_in draft.now memory.old }
{
    save(memory, draft.writes.as_slice());
    Effect::Traps(trap)
}

pub fn next(draft: Draft, task: &mut Task, memory: &mut ImageMemory) -> Result<Effect, Memory>
    requires { draft.address < 2 ^ 63 }
    ensures { IfOk result (λ e. after_of e task.new memory.new ≡ left_by (does_next (task_in draft task.old) (memory_in draft memory.old)) task.old memory.old) }
{
    finish(draft, task, memory, Effect::Ran)
}

pub fn test(
    mut draft: Draft,
    task: &mut Task,
    memory: &mut ImageMemory,
    to: u32,
) -> Result<Effect, Memory>
    requires room { draft.address < 2 ^ 63 }
    requires ready { 1 ≤ length (task_in draft task.old).frame.stack }
    ensures { IfOk result (λ e. after_of e task.new memory.new ≡ left_by (does_test to (task_in draft task.old) (memory_in draft memory.old)) task.old memory.old) }
{
    let value = draft.pop(task);
    commit(draft, task, memory)?;
    let address = if value == 0 {
        to as usize
    } else {
        task.address() + 1
    };
    task.stop(address);
    Ok(Effect::Ran)
}

pub fn enter(
    draft: Draft,
    task: &mut Task,
    memory: &mut ImageMemory,
    to: u32,
) -> Result<Effect, Memory>
    requires room { draft.address < 2 ^ 63 }
    requires ready { 1 ≤ length (task_in draft task.old).frame.loops }
    ensures { IfOk result (λ e. after_of e task.new memory.new ≡ left_by (does_enter to (task_in draft task.old) (memory_in draft memory.old)) task.old memory.old) }
{
    let innermost = draft.innermost(task);
    commit(draft, task, memory)?;
    if innermost.iterations == 0 {
        task.close_loop();
        task.stop(to as usize);
    } else {
        let address = task.address() + 1;
        task.stop(address);
    }
    Ok(Effect::Ran)
}

pub fn again(
    draft: Draft,
    task: &mut Task,
    memory: &mut ImageMemory,
    to: u32,
) -> Result<Effect, Memory>
    requires room { draft.address < 2 ^ 63 }
    requires ready { 1 ≤ length (task_in draft task.old).frame.loops }
    ensures { IfOk result (λ e. after_of e task.new memory.new ≡ left_by (does_again to (task_in draft task.old) (memory_in draft memory.old)) task.old memory.old) }
{
    let Loop { iterations, step } = draft.innermost(task);
    commit(draft, task, memory)?;
    task.close_loop();
    if iterations <= 1 {
        let address = task.address() + 1;
        task.stop(address);
    } else {
        task.open_loop(Loop {
            iterations: iterations - 1,
            step,
        })?;
        task.stop(to as usize);
    }
    Ok(Effect::Ran)
}

pub fn cofence(
    draft: Draft,
    task: &mut Task,
    memory: &mut ImageMemory,
    down: Down,
    clear: FenceClear,
) -> Result<Effect, Memory>
    requires { draft.address < 2 ^ 63 }
    ensures { IfOk result (λ e. after_of e task.new memory.new ≡ left_by (does_cofence down clear (task_in draft task.old) (memory_in draft memory.old)) task.old memory.old) }
{
    if clear.lets_pass(down) {
        finish(draft, task, memory, Effect::Ran)
    } else {
        Ok(Effect::Blocks(Need::Cofence))
    }
}
