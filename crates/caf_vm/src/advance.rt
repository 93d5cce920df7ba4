//! The way to the end of a step.

ghost use Rattle.std.specs.Prelude.{◌≡◌, ◌<◌, ◌^◌, true, length, slice_get, Some, None, IfOk, IfSome};
ghost use Rattle.caf_base.specs.declared.fence.FenceClear.{FenceClear};
ghost use Rattle.caf_code.specs.Rules.{KeepsRules};
ghost use Rattle.caf_code.specs.Step.{does_at, exec};
ghost use Rattle.caf_code.specs.Whole.{IsWhole};
ghost use Rattle.caf_vm.specs.Draft.{memory_in, task_in};
ghost use Rattle.caf_vm.specs.Ready.{IsReady, ends_step as ends};
ghost use Rattle.caf_vm.specs.Run.{InCode, Reached, StandsOn, Turned};

use crate::Task;
use crate::act::{act, ends_step};
use crate::draft::Draft;
use crate::stop::Stop;
use caf_code::{Instr, Listing};
use caf_memory::ImageMemory;

// Carries out the instructions up to the one that ends the step, and answers that one.
pub fn advance(
    code: &Listing,
    draft: &mut Draft,
    task: &Task,
    memory: &ImageMemory,
) -> Result<Instr, Stop>
    requires rules { KeepsRules code.now }
    requires objects { memory.now.objects ≡ code.now.objects }
    requires stands { InCode code.now (task_in draft.old task.now) }
    requires whole { (clear : FenceClear) → IsWhole (exec code.now clear (length code.now.instrs) (task_in draft.old task.now) (memory_in draft.old memory.now)) }
    ensures reached { (clear : FenceClear) → Reached code.now clear result (exec code.now clear (length code.now.instrs) (task_in draft.old task.now) (memory_in draft.old memory.now)) (task_in draft.new task.now) (memory_in draft.new memory.now) }
    ensures ends { IfOk result (λ i. ends i ≡ true) }
    ensures room { IfOk result (λ _. draft.new.address < 2 ^ 63) }
    ensures ready { IfOk result (λ i. IsReady code.now i (task_in draft.new task.now).frame memory.now) }
{
    for step in 0..code.instrs.len() {
        match turn(code, draft, task, memory) {
            Ok(None) => {}
            Ok(Some(instr)) => return Ok(instr),
            Err(stop) => return Err(stop),
        }
    }
    unreachable!()
}

// The instruction at the address is carried out, or answered where it ends the step.
fn turn(
    code: &Listing,
    draft: &mut Draft,
    task: &Task,
    memory: &ImageMemory,
) -> Result<Option<Instr>, Stop>
    requires rules { KeepsRules code.now }
    requires objects { memory.now.objects ≡ code.now.objects }
    requires stands { InCode code.now (task_in draft.old task.now) }
    ensures turned { (clear : FenceClear) → Turned code.now clear result (does_at code.now clear (slice_get code.now.instrs (task_in draft.old task.now).address) (task_in draft.old task.now) (memory_in draft.old memory.now)) (task_in draft.new task.now) (memory_in draft.new memory.now) }
    ensures stands { StandsOn result (InCode code.now (task_in draft.new task.now)) }
    ensures ends { IfOk result (λ found. IfSome found (λ i. ends i ≡ true)) }
    ensures room { IfOk result (λ found. IfSome found (λ _. draft.new.address < 2 ^ 63)) }
    ensures ready { IfOk result (λ found. IfSome found (λ i. IsReady code.now i (task_in draft.new task.now).frame memory.now)) }
{
    let instr = instr_at(code, draft.address);
    if ends_step(instr) {
        return Ok(Some(instr));
    }
    act(code, draft, task, memory, instr)?;
    Ok(None)
}

// The instruction at an address.
fn instr_at(code: &Listing, address: usize) -> Instr
    requires { address < length code.now.instrs }
    ensures there { slice_get code.now.instrs address ≡ Some result }
    ensures room { address < 2 ^ 63 }
{
    code.instrs.as_slice()[address]
}
