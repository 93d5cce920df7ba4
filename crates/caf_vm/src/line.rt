//! The end of a printed line.

ghost use Rattle.std.specs.Prelude.{◌≡◌, ◌<◌, ◌^◌, ◌++◌, IfOk, OnOk, string_bytes};
ghost use Rattle.caf_base.specs.Line.{line_of, with_blanks};
ghost use Rattle.caf_code.specs.Print.{does_line};
ghost use Rattle.caf_vm.specs.Draft.{memory_in, task_in};
ghost use Rattle.caf_vm.specs.Left.{after_of, left_by};

use crate::draft::Draft;
use crate::ends::{finish, trap};
use crate::{Memory, Task};
use caf_base::{Effect, Text};
use caf_memory::{ImageMemory, LineFault};
use std::alloc::Global;

pub fn line(draft: Draft, task: &mut Task, memory: &mut ImageMemory) -> Result<Effect, Memory>
    requires { draft.address < 2 ^ 63 }
    ensures { IfOk result (λ e. after_of e task.new memory.new ≡ left_by (does_line (task_in draft task.old) (memory_in draft memory.old)) task.old memory.old) }
{
    let line = joined(draft.alloc, task.parts(), draft.parts.as_slice())?;
    match memory.add_line(line) {
        Ok(()) => {
            let effect = finish(draft, task, memory, Effect::Ran)?;
            task.end_line();
            Ok(effect)
        }
        Err(LineFault::Trap(cause)) => Ok(trap(&draft, memory, cause)),
        Err(LineFault::Memory) => Err(Memory),
    }
}

// The line of these parts.
#[tactic(auto, using(crate::proofs::Joined::line_on))]
fn joined(alloc: Global, first: &[Text], rest: &[Text]) -> Result<Text, Memory>
    ensures { IfOk result (λ line. line ≡ line_of (first.now ++ rest.now)) }
{
    let mut line = String::new(alloc);
    push_line(&mut line, first)?;
    if first.is_empty() {
        push_line(&mut line, rest)?;
    } else {
        push_parts(&mut line, rest)?;
    }
    Ok(Text::from_string(line))
}

// Appends the line of these parts.
fn push_line(line: &mut String, parts: &[Text]) -> Result<(), Memory>
    ensures { OnOk result (string_bytes line.new ≡ string_bytes line.old ++ line_of parts.now) }
{
    if let Some((first, rest)) = parts.split_first() {
        line.push_str(first.as_str())?;
        push_parts(line, rest)?;
    }
    Ok(())
}

// Appends parts, each behind a blank.
#[tactic(auto, using(crate::proofs::Joined::part_on))]
fn push_parts(line: &mut String, parts: &[Text]) -> Result<(), Memory>
    ensures { OnOk result (string_bytes line.new ≡ string_bytes line.old ++ with_blanks parts.now) }
{
    for part in parts {
        line.push_str(" ")?;
        line.push_str(part.as_str())?;
    }
    Ok(())
}
