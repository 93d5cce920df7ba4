ghost use Rattle.std.specs.Prelude.{◌≡◌, IfOk};
ghost use Rattle.caf_code.specs.Kept.{KeepsTask};
ghost use Rattle.caf_code.specs.Sound.{IsSound};
ghost use Rattle.caf_code.specs.Step.{runs};
ghost use Rattle.caf_code.specs.Whole.{IsSettled};
ghost use Rattle.caf_solo.specs.Led.{led as led_by};
ghost use Rattle.caf_source.specs.Plain.{all_clear};

use crate::Phase;
use caf_base::{Effect, FenceClear, Four, Memory};
use caf_code::Code;
use caf_journal::Entry;
use caf_memory::ImageMemory;
use caf_vm::{Task, statement};

/// The counts of an image that neither sent nor received a message.
const NO_MESSAGE: Four = Four {
    sent: 0,
    delivered: 0,
    received: 0,
    completed: 0,
};

/// No copy is open.
const CLEAR: FenceClear = FenceClear {
    reads: true,
    writes: true,
};

/// Where a step of the main task leads, and the entry that the journal gets.
fn led(effect: Effect) -> (Phase, Entry)
    ensures { result ≡ led_by effect }
{
    match effect {
        Effect::Ran => (Phase::Running, Entry::Step(0, 0)),
        Effect::Traps(trap) => (Phase::Trapped(trap), Entry::Step(0, 0)),
        _ => (Phase::Contributed, Entry::Contribute(0, NO_MESSAGE)),
    }
}

/// A step of the main task, where no copy is open.
pub(crate) fn step(
    code: &Code,
    task: &mut Task,
    memory: &mut ImageMemory,
) -> Result<(Phase, Entry), Memory>
    requires sound { IsSound code.now task.old memory.old }
    requires settled { IsSettled code.now task.old }
    ensures led { IfOk result (λ r. r ≡ led_by (runs code.now all_clear task.old memory.old).effect) }
    ensures task { IfOk result (λ _. task.new ≡ (runs code.now all_clear task.old memory.old).task) }
    ensures memory { IfOk result (λ _. memory.new ≡ (runs code.now all_clear task.old memory.old).memory) }
    ensures sound { IfOk result (λ _. KeepsTask (runs code.now all_clear task.old memory.old).effect (IsSound code.now task.new memory.new)) }
    ensures settled { IfOk result (λ _. IsSettled code.now task.new) }
{
    let effect = statement(code, task, memory, CLEAR)?;
    Ok(led(effect))
}
