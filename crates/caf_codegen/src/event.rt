ghost use Rattle.std.specs.Prelude.{◌≡◌, ◌+◌, ◌++◌, IfOk, OnOk};
ghost use Rattle.caf_program.specs.Expressions.{count_all, of_event};
ghost use Rattle.caf_codegen.specs.StmtCode.{event_at_code, notify_code, wait_code};

use crate::emit::{gen_value, put};
use crate::place::{form_of, gen_place};
use caf_base::Memory;
use caf_code::{EventUse, Instr, Role};
use caf_program::{EventR, OwnEventR};

/// The code of a notice: the subscript of its event, the rank, and the notice, which makes the tests.
pub(crate) fn gen_notify(event: &EventR, code: &mut Vec<Instr>) -> Result<(), Memory>
    ensures { OnOk result (code.new.items ≡ code.old.items ++ notify_code event.now) }
{
    let held = gen_value(&event.own.index, 0, code)?;
    gen_place(&event.place, held, code)?;
    let form = form_of(&event.place);
    put(code, Instr::Event(EventUse::Notify(event.own.object, form)))
}

/// The code of a wait for an event of this image: its subscript, and the wait, which makes the test.
pub(crate) fn gen_wait(event: &OwnEventR, code: &mut Vec<Instr>) -> Result<(), Memory>
    ensures { OnOk result (code.new.items ≡ code.old.items ++ wait_code event.now) }
{
    gen_value(&event.index, 0, code)?;
    put(code, Instr::Event(EventUse::Wait(event.object)))
}

/// The code of an event that is listed in a role: its subscript, its rank, and the event without its tests. The place behind
/// the values that it holds is the result.
pub(crate) fn gen_event_at(
    event: &EventR,
    role: Role,
    held: u32,
    code: &mut Vec<Instr>,
) -> Result<u32, Memory>
    ensures code { OnOk result (code.new.items ≡ code.old.items ++ event_at_code event.now role held) }
    ensures next { IfOk result (λ next. next ≡ held + count_all (of_event event.now)) }
{
    let held = gen_value(&event.own.index, held, code)?;
    let next = gen_place(&event.place, held, code)?;
    let form = form_of(&event.place);
    put(code, Instr::EventAt(event.own.object, form, role))?;
    Ok(next)
}
