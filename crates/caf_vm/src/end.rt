//! The instructions that end a step, by their rows.

ghost use Rattle.std.specs.Prelude.{◌≡◌, ◌<◌, ◌^◌, true, IfOk};
ghost use Rattle.caf_code.specs.Step.{does};
ghost use Rattle.caf_vm.specs.Calls.{CanReturn, HasCopied};
ghost use Rattle.caf_vm.specs.Draft.{memory_in, task_in};
ghost use Rattle.caf_vm.specs.Left.{after_of, left_by};
ghost use Rattle.caf_vm.specs.Ready.{AllAimed, IsReady, ends_step as ends};

use crate::calls::{call, ret};
use crate::draft::Draft;
use crate::ends::{again, cofence, enter, next, test};
use crate::line::line;
use crate::operations::{aim, ask, copy, notify, put, spawn, wait};
use crate::teams::{enter_finish, split};
use crate::{Memory, Task};
use caf_base::{Effect, FenceClear, Need};
use caf_code::{EventUse, Instr, Listing, SectionUse};
use caf_memory::ImageMemory;

// An instruction that ends its step, or at which none goes on.
pub fn end(
    code: &Listing,
    instr: Instr,
    draft: Draft,
    task: &mut Task,
    memory: &mut ImageMemory,
    clear: FenceClear,
) -> Result<Effect, Memory>
    requires ends { ends instr ≡ true }
    requires room { draft.address < 2 ^ 63 }
    requires aimed { AllAimed memory.old }
    requires returns { CanReturn task.old.calls }
    requires copied { HasCopied task.old.calls task.old.frame }
    requires ready { IsReady code.now instr (task_in draft task.old).frame memory.old }
    ensures { IfOk result (λ e. after_of e task.new memory.new ≡ left_by (does code.now clear instr (task_in draft task.old) (memory_in draft memory.old)) task.old memory.old) }
{
    match instr {
        Instr::Next => next(draft, task, memory),
        Instr::Test(to) => test(draft, task, memory, to),
        Instr::Enter(to) => enter(draft, task, memory, to),
        Instr::Again(to) => again(draft, task, memory, to),
        Instr::Ask(form) => ask(draft, task, memory, form),
        Instr::Put(form) => put(draft, task, memory, form),
        Instr::Use(SectionUse::Aim(copointer)) => aim(draft, task, memory, copointer),
        Instr::Use(SectionUse::Copy) => copy(draft, task, memory),
        Instr::Event(EventUse::Notify(object, place)) => {
            notify(draft, task, memory, object, place)
        }
        Instr::Event(EventUse::Wait(object)) => wait(draft, task, memory, object),
        Instr::Cofence(down) => cofence(draft, task, memory, down, clear),
        Instr::Spawn(sub, place) => spawn(draft, task, memory, code, sub, place),
        Instr::Finish(name) => enter_finish(draft, task, memory, name),
        Instr::Close => Ok(Effect::Blocks(Need::Finish)),
        Instr::Split(name, new) => split(draft, task, memory, name, new),
        Instr::Call(sub) => call(draft, task, memory, code, sub),
        Instr::Ret => ret(draft, task, memory),
        Instr::Line => line(draft, task, memory),
        Instr::Halt => Ok(Effect::Blocks(Need::Finish)),
        _ => unreachable!(),
    }
}
