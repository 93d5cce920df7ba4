//! Calls and their ends.

ghost use Rattle.std.specs.Prelude.{◌≡◌, ◌<◌, ◌≤◌, [], List, length, reverse, IfOk, IsTrue, slice_get, nat_lt};
ghost use Rattle.std.specs.List.{list_all};
ghost use Rattle.caf_base.specs.ImageMemory.{ImageMemory as MemoryNow};
ghost use Rattle.caf_code.specs.Calls.{copies_out, copies_to, does_call, does_ret};
ghost use Rattle.caf_code.specs.Did.{Did};
ghost use Rattle.caf_code.specs.Shapes.{dummies_in};
ghost use Rattle.caf_code.specs.Task.{Frame as FrameNow, Task as TaskNow};
ghost use Rattle.caf_code.specs.declared.task.CopyOut.{CopyOut};
ghost use Rattle.caf_vm.specs.Calls.{CanReturn, CopiedOne, CopiedOut, HasCopied, with_cells};
ghost use Rattle.caf_vm.specs.Draft.{memory_in, task_in};
ghost use Rattle.caf_vm.specs.Left.{after_of, left_by};

use crate::draft::{CellWrite, Draft};
use crate::ends::{commit, trap};
use crate::stop::Stop;
use crate::{Memory, Task};
use caf_base::{Effect, Trap};
use caf_code::{CopyOut, CopyTarget, Listing};
use caf_memory::ImageMemory;

// How many calls may be open.
const DEPTH_LIMIT: usize = 200;

pub fn call(
    mut draft: Draft,
    task: &mut Task,
    memory: &mut ImageMemory,
    code: &Listing,
    sub: u32,
) -> Result<Effect, Memory>
    requires there { sub < length code.now.subs }
    requires ready { dummies_in (slice_get code.now.subs sub) ≤ length (task_in draft task.old).frame.stack }
    ensures { IfOk result (λ e. after_of e task.new memory.new ≡ left_by (does_call code.now.subs sub (task_in draft task.old) (memory_in draft memory.old)) task.old memory.old) }
{
    let sub = &code.subs.as_slice()[sub as usize];
    let arguments = draft.pop_many(task, sub.dummies.len())?;
    if task.open_calls() >= DEPTH_LIMIT {
        return Ok(trap(&draft, memory, Trap::Depth));
    }
    commit(draft, task, memory)?;
    task.open_call(sub, arguments.as_slice())?;
    Ok(Effect::Ran)
}

pub fn ret(mut draft: Draft, task: &mut Task, memory: &mut ImageMemory) -> Result<Effect, Memory>
    requires returns { CanReturn task.old.calls }
    requires copied { HasCopied task.old.calls task.old.frame }
    ensures { IfOk result (λ e. after_of e task.new memory.new ≡ left_by (does_ret (task_in draft task.old) (memory_in draft memory.old)) task.old memory.old) }
{
    if task.open_calls() == 0 {
        return end_task(draft, task, memory);
    }
    match copy_out(&mut draft, task, memory, task.copied_out()) {
        Ok(writes) => {
            commit(draft, task, memory)?;
            task.go_back(writes.as_slice());
            Ok(Effect::Ran)
        }
        Err(Stop::Trap(cause)) => Ok(trap(&draft, memory, cause)),
        Err(Stop::Memory) => Err(Memory),
    }
}

// The end of a shipped task.
fn end_task(draft: Draft, task: &mut Task, memory: &mut ImageMemory) -> Result<Effect, Memory>
    requires { task.old.calls ≡ [] }
    ensures { IfOk result (λ e. after_of e task.new memory.new ≡ left_by (does_ret (task_in draft task.old) (memory_in draft memory.old)) task.old memory.old) }
{
    commit(draft, task, memory)?;
    let address = task.address();
    task.stop(address);
    Ok(Effect::Ends(task.done()))
}

// Copies dummies out, from the left, and answers what is written to cells of the caller's frame.
fn copy_out(
    draft: &mut Draft,
    task: &Task,
    memory: &ImageMemory,
    outs: &[CopyOut],
) -> Result<Vec<CellWrite>, Stop>
    requires { IsTrue (list_all (λ (o : CopyOut). nat_lt o.cell (length task.now.frame.cells)) outs.now) }
    ensures copied { (f : FrameNow) (go : FrameNow → MemoryNow → Did) → CopiedOut result (copies_out outs.now (task_in draft.old task.now).frame.cells f (memory_in draft.old memory.now) go) f go (memory_in draft.new memory.now) }
    ensures task { task_in draft.new task.now ≡ task_in draft.old task.now }
{
    let mut writes = Vec::new(draft.alloc);
    for out in outs {
        let value = draft.cell(task, out.cell);
        if let Err(stop) = copy_one(draft, memory, &mut writes, out.target, value) {
            return Err(stop);
        }
    }
    Ok(writes)
}

// Copies a dummy out: to the memory, or to a cell of the caller's frame, for which the write is noted.
fn copy_one(
    draft: &mut Draft,
    memory: &ImageMemory,
    writes: &mut Vec<CellWrite>,
    target: CopyTarget,
    value: i64,
) -> Result<(), Stop>
    ensures copied { (f : FrameNow) (go : FrameNow → MemoryNow → Did) → CopiedOne result (copies_to target value (with_cells (reverse writes.old.items) f) (memory_in draft.old memory.now) go) f writes.new.items go (memory_in draft.new memory.now) }
    ensures task { (t : TaskNow) → task_in draft.new t ≡ task_in draft.old t }
{
    match target {
        CopyTarget::Scalar(object) => draft.write(memory, object, 1, value),
        CopyTarget::Element(object, index) => draft.write(memory, object, index, value),
        CopyTarget::Local(cell) => {
            if writes.push(CellWrite { cell, value }).is_err() {
                return Err(Stop::Memory);
            }
            Ok(())
        }
    }
}
