//! One step of a task.

ghost use Rattle.std.specs.Prelude.{◌≡◌, ◌<◌, ◌^◌, length, IfOk};
ghost use Rattle.caf_base.specs.declared.fence.FenceClear.{FenceClear};
ghost use Rattle.caf_code.specs.Kept.{KeepsTask};
ghost use Rattle.caf_code.specs.Rules.{KeepsRules};
ghost use Rattle.caf_code.specs.Sound.{IsSound};
ghost use Rattle.caf_code.specs.Step.{exec, runs};
ghost use Rattle.caf_code.specs.Whole.{IsSettled, IsWhole};
ghost use Rattle.caf_vm.specs.Calls.{CanReturn, HasCopied};
ghost use Rattle.caf_vm.specs.Left.{after_of, left_by};
ghost use Rattle.caf_vm.specs.Ready.{AllAimed};
ghost use Rattle.caf_vm.specs.Run.{InCode};

use crate::advance::advance;
use crate::draft::Draft;
use crate::end::end;
use crate::ends::trap;
use crate::need::need_of;
use crate::settle::settle_in;
use crate::stop::Stop;
use crate::{Memory, Task};
use caf_base::{Effect, FenceClear};
use caf_code::{Code, Listing, steps_lack_nothing, tasks_stay_sound};
use caf_memory::ImageMemory;

/// Runs one step of a task: the instructions from its address to the first that ends a step, and then every `go`. A
/// step that blocks changes nothing, and one that traps leaves the task as it was. After `Memory` nothing is promised
/// of the task and the memory. Whether the images that an operation names are members of its finish, and whether the
/// image may begin one more, isn't tested here.
pub fn statement(
    code: &Code,
    task: &mut Task,
    memory: &mut ImageMemory,
    clear: FenceClear,
) -> Result<Effect, Memory>
    requires sound { IsSound code.now task.old memory.old }
    requires settled { IsSettled code.now task.old }
    ensures runs { IfOk result (λ e. after_of e task.new memory.new ≡ runs code.now clear task.old memory.old) }
    ensures sound { IfOk result (λ e. KeepsTask e (IsSound code.now task.new memory.new)) }
    ensures settled { IfOk result (λ _. IsSettled code.now task.new) }
{
    if let Some(wait) = task.wait() {
        return Ok(Effect::Blocks(need_of(wait)));
    }
    steps_lack_nothing();
    tasks_stay_sound();
    let listing = code.listing();
    let instrs = listing.instrs.as_slice();
    prove!(task.address() < instrs.len());
    let effect = step(listing, task, memory, clear)?;
    let address = settle_in(code, task.address());
    task.go_on(address);
    Ok(effect)
}

// One step of a task that doesn't wait, before any `go` behind its end.
fn step(
    code: &Listing,
    task: &mut Task,
    memory: &mut ImageMemory,
    clear: FenceClear,
) -> Result<Effect, Memory>
    requires rules { KeepsRules code.now }
    requires objects { memory.old.objects ≡ code.now.objects }
    requires stands { InCode code.now task.old }
    requires aimed { AllAimed memory.old }
    requires returns { CanReturn task.old.calls }
    requires copied { HasCopied task.old.calls task.old.frame }
    requires whole { (clear : FenceClear) → IsWhole (exec code.now clear (length code.now.instrs) task.old memory.old) }
    ensures { IfOk result (λ e. after_of e task.new memory.new ≡ left_by (exec code.now clear (length code.now.instrs) task.old memory.old) task.old memory.old) }
{
    let mut draft = Draft::new(task.alloc(), task.address());
    match advance(code, &mut draft, task, memory) {
        Ok(instr) => end(code, instr, draft, task, memory, clear),
        Err(Stop::Trap(cause)) => Ok(trap(&draft, memory, cause)),
        Err(Stop::Memory) => Err(Memory),
    }
}
