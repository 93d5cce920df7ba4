//! What a task waits for.

ghost use Rattle.std.specs.Prelude.{◌≡◌, true, length, IfOk, if◌then◌else◌};
ghost use Rattle.caf_base.specs.Fence.{passes};
ghost use Rattle.caf_base.specs.declared.fence.FenceClear.{FenceClear};
ghost use Rattle.caf_code.specs.Rules.{KeepsRules};
ghost use Rattle.caf_code.specs.Sound.{IsSound};
ghost use Rattle.caf_code.specs.Step.{blocked_of, does, exec, need_of as needs};
ghost use Rattle.caf_code.specs.Whole.{IsSettled, IsWhole};
ghost use Rattle.caf_vm.specs.Blocked.{may_block as may_stay, need_of_did, need_of_wait};
ghost use Rattle.caf_vm.specs.Draft.{memory_in, task_in};
ghost use Rattle.caf_vm.specs.Run.{InCode};
ghost use Rattle.caf_vm.specs.Ready.{IsReady, ends_step as ends};

use crate::advance::advance;
use crate::draft::Draft;
use crate::stop::Stop;
use crate::{Memory, Task};
use caf_base::{Down, FenceClear, Need};
use caf_code::{Code, EventUse, Instr, Listing, Wait, steps_lack_nothing};
use caf_memory::ImageMemory;

/// What the task waits for, exactly where a step of it would not go on. Neither the task nor the memory changes.
pub fn blocked(
    code: &Code,
    task: &Task,
    memory: &ImageMemory,
    clear: FenceClear,
) -> Result<Option<Need>, Memory>
    requires sound { IsSound code.now task.now memory.now }
    requires settled { IsSettled code.now task.now }
    ensures { IfOk result (λ need. need ≡ blocked_of code.now clear task.now memory.now) }
{
    match task.wait() {
        Some(wait) => Ok(Some(need_of(wait))),
        None => {
            steps_lack_nothing();
            need_in_step(code.listing(), task, memory, clear)
        }
    }
}

// What a task that doesn't wait needs, if a step of it would not go on.
fn need_in_step(
    code: &Listing,
    task: &Task,
    memory: &ImageMemory,
    clear: FenceClear,
) -> Result<Option<Need>, Memory>
    requires rules { KeepsRules code.now }
    requires objects { memory.now.objects ≡ code.now.objects }
    requires stands { InCode code.now task.now }
    requires whole { (clear : FenceClear) → IsWhole (exec code.now clear (length code.now.instrs) task.now memory.now) }
    ensures { IfOk result (λ need. need ≡ need_of_did (exec code.now clear (length code.now.instrs) task.now memory.now)) }
{
    let mut draft = Draft::new(task.alloc(), task.address());
    match advance(code, &mut draft, task, memory) {
        Ok(instr) => Ok(need_at(code, instr, &mut draft, task, memory, clear)),
        Err(Stop::Trap(_)) => Ok(None),
        Err(Stop::Memory) => Err(Memory),
    }
}

// What a task needs that waits.
pub fn need_of(wait: Wait) -> Need
    ensures { result ≡ needs wait }
{
    match wait {
        Wait::Value => Need::Operation,
        Wait::Written => Need::Operation,
        Wait::NewTeam(_) => Need::Split,
    }
}

// Whether a task may stay at an instruction.
fn may_block(instr: Instr) -> bool
    ensures { result ≡ may_stay instr }
{
    match instr {
        Instr::Event(EventUse::Wait(_)) => true,
        Instr::Event(EventUse::Notify(_, _)) => false,
        Instr::Cofence(_) => true,
        Instr::Close => true,
        Instr::Halt => true,
        _ => false,
    }
}

// What a task needs at an instruction that ends its step, if it can't go on.
fn need_at(
    code: &Listing,
    instr: Instr,
    draft: &mut Draft,
    task: &Task,
    memory: &ImageMemory,
    clear: FenceClear,
) -> Option<Need>
    requires ends { ends instr ≡ true }
    requires ready { IsReady code.now instr (task_in draft.old task.now).frame memory.now }
    ensures { result ≡ need_of_did (does code.now clear instr (task_in draft.old task.now) (memory_in draft.old memory.now)) }
{
    if !may_block(instr) {
        return None;
    }
    match instr {
        Instr::Event(EventUse::Wait(object)) => {
            let index = draft.pop(task);
            need_of_post(memory, object, index)
        }
        Instr::Event(EventUse::Notify(_, _)) => unreachable!(),
        Instr::Cofence(down) => need_of_fence(clear, down),
        Instr::Close => Some(Need::Finish),
        Instr::Halt => Some(Need::Finish),
        _ => unreachable!(),
    }
}

// What a `cofence` of a class needs, if it doesn't let the task pass.
fn need_of_fence(clear: FenceClear, down: Down) -> Option<Need>
    ensures { result ≡ (if passes down clear then None else Some Need.Cofence) }
{
    if clear.lets_pass(down) {
        None
    } else {
        Some(Need::Cofence)
    }
}

// What a `wait` of an event needs, if it has no post.
fn need_of_post(memory: &ImageMemory, object: u32, index: i64) -> Option<Need>
    ensures { result ≡ need_of_wait memory.now object index }
{
    match memory.posts(object, index) {
        Ok(0) => Some(Need::Event(object, index)),
        Ok(_) => None,
        Err(_) => None,
    }
}
