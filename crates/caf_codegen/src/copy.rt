ghost use Rattle.std.specs.Prelude.{◌≡◌, ◌+◌, ◌++◌, [], ◌∷◌, IfOk, OnOk};
ghost use Rattle.caf_program.specs.Expressions.{count_all};
ghost use Rattle.caf_code.specs.declared.instr.Instr.TheVariants as instr;
ghost use Rattle.caf_code.specs.declared.instr.PlaceForm.TheVariants as place;
ghost use Rattle.caf_code.specs.declared.instr.Role.TheVariants as role;
ghost use Rattle.caf_exprgen.specs.ExprCode.{expr_code};
ghost use Rattle.caf_treestep.specs.Evaluated.{held_by_copy_event};
ghost use Rattle.caf_codegen.specs.StmtCode.{copy_code, copy_event_code, copy_events_code};

use crate::emit::{gen_value, put};
use crate::event::gen_event_at;
use crate::section::gen_section;
use caf_base::Memory;
use caf_code::{Instr, PlaceForm, Role, SectionUse};
use caf_program::{CopyEventR, OwnEventR, SectionR};

/// The code of the event that a copy needs before it starts. The place behind the values that it holds is the result.
fn gen_pre(event: &OwnEventR, held: u32, code: &mut Vec<Instr>) -> Result<u32, Memory>
    ensures code { OnOk result (code.new.items ≡ code.old.items ++ (expr_code event.now.index held ++ (instr.EventAt event.now.object place.Own role.Pre ∷ []))) }
    ensures next { IfOk result (λ next. next ≡ held + count_all (event.now.index ∷ [])) }
{
    let next = gen_value(&event.index, held, code)?;
    put(
        code,
        Instr::EventAt(event.object, PlaceForm::Own, Role::Pre),
    )?;
    Ok(next)
}

/// The code of an event of a copy. The place behind the values that it holds is the result.
fn gen_copy_event(event: &CopyEventR, held: u32, code: &mut Vec<Instr>) -> Result<u32, Memory>
    ensures code { OnOk result (code.new.items ≡ code.old.items ++ copy_event_code event.now held) }
    ensures next { IfOk result (λ next. next ≡ held + held_by_copy_event event.now) }
{
    match event {
        CopyEventR::Pre(event) => gen_pre(event, held, code),
        CopyEventR::Srce(event) => gen_event_at(event, Role::Srce, held, code),
        CopyEventR::Deste(event) => gen_event_at(event, Role::Deste, held, code),
    }
}

/// The code of the events of a copy in written order.
fn gen_copy_events(events: &[CopyEventR], held: u32, code: &mut Vec<Instr>) -> Result<(), Memory>
    ensures { OnOk result (code.new.items ≡ code.old.items ++ copy_events_code events.now held) }
{
    let mut next = held;
    for event in events {
        next = gen_copy_event(event, next, code)?;
    }
    Ok(())
}

/// The code of a copy: destination, source, its events, and the copy, which makes the tests.
pub(crate) fn gen_copy(
    dest: &SectionR,
    source: &SectionR,
    events: &[CopyEventR],
    code: &mut Vec<Instr>,
) -> Result<(), Memory>
    ensures { OnOk result (code.new.items ≡ code.old.items ++ copy_code dest.now source.now events.now) }
{
    let held = gen_section(dest, 0, code)?;
    let held = gen_section(source, held, code)?;
    gen_copy_events(events, held, code)?;
    put(code, Instr::Use(SectionUse::Copy))
}
