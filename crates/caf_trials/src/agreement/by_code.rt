//! The task of a code, on its memory.

ghost use Rattle.std.specs.Prelude.{◌≡◌, false, IfOk, OnOk};
ghost use Rattle.caf_code.specs.Sound.{IsSound, IsSoundTeam, is_close as closes, stands_at_end};
ghost use Rattle.caf_code.specs.Whole.{IsSettled};
ghost use Rattle.caf_code.specs.Kept.{ends_run};

use caf_base::{Effect, FenceClear, Memory, Need, Team};
use caf_code::{Code, Instr, Wait};
use caf_memory::ImageMemory;
use caf_vm::{Task, answer, blocked, leave, part, statement};

/// An equal task takes the place of a task.
fn renew(task: &mut Task) -> Result<(), Memory>
    ensures { OnOk result (task.new ≡ task.old) }
{
    *task = task.again()?;
    Ok(())
}

/// A Step, and before it what the task would wait for.
#[tactic(auto, using(crate::proofs::Driven::goes_on))]
fn step_asked(
    code: &Code,
    clear: FenceClear,
    task: &mut Task,
    memory: &mut ImageMemory,
) -> Result<(Option<Need>, Effect), Memory>
    requires sound { IsSound code.now task.old memory.old }
    requires settled { IsSettled code.now task.old }
    ensures sound { IfOk result (λ r. ends_run r.1 ≡ false → IsSound code.now task.new memory.new) }
    ensures settled { IfOk result (λ _. IsSettled code.now task.new) }
{
    let need = blocked(code, task, memory, clear)?;
    let effect = statement(code, task, memory, clear)?;
    Ok((need, effect))
}

/// A Step of an equal task, and before it what the task would wait for.
pub(super) fn step_code(
    code: &Code,
    clear: FenceClear,
    task: &mut Task,
    memory: &mut ImageMemory,
) -> Result<(Option<Need>, Effect), Memory>
    requires sound { IsSound code.now task.old memory.old }
    requires settled { IsSettled code.now task.old }
    ensures sound { IfOk result (λ r. ends_run r.1 ≡ false → IsSound code.now task.new memory.new) }
    ensures settled { IfOk result (λ _. IsSettled code.now task.new) }
{
    renew(task)?;
    step_asked(code, clear, task, memory)
}

/// An event of the memory gets two posts.
pub(super) fn post_code(code: &Code, task: &Task, memory: &mut ImageMemory, object: u32, index: i64)
    requires { IsSound code.now task.now memory.old }
    ensures { IsSound code.now task.now memory.new }
{
    let _posted = memory.set_posts(object, index, 2);
}

/// The task goes on behind a read, which brings this value, or a write. Answers what it brought.
pub(super) fn answer_code(
    code: &Code,
    task: &mut Task,
    memory: &ImageMemory,
    value: i64,
) -> Option<i64>
    requires sound { IsSound code.now task.old memory.now }
    requires settled { IsSettled code.now task.old }
    ensures sound { IsSound code.now task.new memory.now }
    ensures settled { IsSettled code.now task.new }
{
    let _listing = code.listing();
    match task.wait() {
        Some(Wait::Value) => {
            answer(task, Some(value));
            Some(value)
        }
        Some(Wait::Written) => {
            answer(task, None);
            None
        }
        _ => None,
    }
}

/// The task goes past its split.
pub(super) fn part_code(code: &Code, task: &mut Task, memory: &mut ImageMemory, team: Team)
    requires sound { IsSound code.now task.old memory.old }
    requires settled { IsSettled code.now task.old }
    requires team { IsSoundTeam memory.old.image memory.old.images team }
    ensures sound { IsSound code.now task.new memory.new }
    ensures settled { IsSettled code.now task.new }
{
    let _listing = code.listing();
    if let Some(Wait::NewTeam(_)) = task.wait() {
        part(task, memory, team);
    }
}

/// Whether a task stands at the end of a finish.
fn is_at_close(code: &Code, task: &Task) -> bool
    ensures { result ≡ stands_at_end code.now task.now }
{
    match task.wait() {
        Some(_) => false,
        None => is_close(code.listing().instrs.get(task.address()).copied()),
    }
}

fn is_close(instr: Option<Instr>) -> bool
    ensures { result ≡ closes instr }
{
    match instr {
        Some(Instr::Close) => true,
        _ => false,
    }
}

/// The task goes past the end of a finish, if it stands there. Answers whether it did.
pub(super) fn leave_code(code: &Code, task: &mut Task, memory: &ImageMemory) -> bool
    requires sound { IsSound code.now task.old memory.now }
    requires settled { IsSettled code.now task.old }
    ensures sound { IsSound code.now task.new memory.now }
    ensures settled { IsSettled code.now task.new }
{
    let _images = memory.images();
    if is_at_close(code, task) {
        leave(code, task);
        true
    } else {
        false
    }
}
