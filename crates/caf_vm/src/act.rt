//! The instructions by their rows.

ghost use Rattle.std.specs.Prelude.{◌≡◌, ◌<◌, ◌^◌, false};
ghost use Rattle.caf_base.specs.declared.fence.FenceClear.{FenceClear};
ghost use Rattle.caf_code.specs.Step.{does};
ghost use Rattle.caf_vm.specs.Draft.{memory_in, task_in};
ghost use Rattle.caf_vm.specs.Ready.{IsReady, ends_step as ends};
ghost use Rattle.caf_vm.specs.Went.{Went};

use crate::Task;
use crate::draft::Draft;
use crate::rows::{
    arithmetic, cell, event_at, go, held, load, logical, open_loop, out, print, push, relation,
    section, step_by, store, team,
};
use crate::stop::Stop;
use caf_code::{Instr, Listing};
use caf_memory::ImageMemory;

// Whether an instruction ends a step, or stands where none goes on.
pub fn ends_step(instr: Instr) -> bool
    ensures { result ≡ ends instr }
{
    match instr {
        Instr::Push(_) => false,
        Instr::Load(_, _) => false,
        Instr::Store(_, _) => false,
        Instr::Cell(_, _) => false,
        Instr::Held(_) => false,
        Instr::Arithmetic(_) => false,
        Instr::Relation(_) => false,
        Instr::Logical(_) => false,
        Instr::Team(_, _) => false,
        Instr::Go(_) => false,
        Instr::Loop => false,
        Instr::StepBy => false,
        Instr::Section(_) => false,
        Instr::EventAt(_, _, _) => false,
        Instr::Out(_) => false,
        Instr::Print(_) => false,
        _ => true,
    }
}

// An instruction that doesn't end its step.
pub fn act(
    code: &Listing,
    draft: &mut Draft,
    task: &Task,
    memory: &ImageMemory,
    instr: Instr,
) -> Result<(), Stop>
    requires room { draft.old.address < 2 ^ 63 }
    requires inner { ends instr ≡ false }
    requires ready { IsReady code.now instr (task_in draft.old task.now).frame memory.now }
    ensures { (clear : FenceClear) → Went result (does code.now clear instr (task_in draft.old task.now) (memory_in draft.old memory.now)) (task_in draft.new task.now) (memory_in draft.new memory.now) }
{
    match instr {
        Instr::Push(value) => push(draft, value),
        Instr::Load(reach, object) => load(draft, task, memory, reach, object),
        Instr::Store(reach, object) => store(draft, task, memory, reach, object),
        Instr::Cell(what, at) => cell(draft, task, what, at),
        Instr::Held(at) => held(draft, task, at),
        Instr::Arithmetic(word) => arithmetic(draft, task, word),
        Instr::Relation(word) => relation(draft, task, word),
        Instr::Logical(word) => logical(draft, task, word),
        Instr::Team(query, name) => team(draft, memory, query, name),
        Instr::Go(to) => {
            go(draft, to);
            Ok(())
        }
        Instr::Loop => open_loop(draft, task),
        Instr::StepBy => step_by(draft, task),
        Instr::Section(form) => section(draft, task, form),
        Instr::EventAt(object, place, role) => event_at(draft, task, object, place, role),
        Instr::Out(form) => out(draft, task, memory, form),
        Instr::Print(printed) => print(draft, task, code.texts.as_slice(), printed),
        _ => unreachable!(),
    }
}
