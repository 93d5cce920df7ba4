ghost use Rattle.std.specs.Prelude.{◌≡◌, ◌+◌, ◌++◌, IfOk, OnOk, sum_by};
ghost use Rattle.caf_program.specs.Expressions.{count_all, of_done};
ghost use Rattle.caf_treestep.specs.Evaluated.{held_by_actual};
ghost use Rattle.caf_codegen.specs.StmtCode.{done_code, spawn_code, value_code, values_code};

use crate::emit::{gen_value, put};
use crate::event::gen_event_at;
use caf_base::Memory;
use caf_code::{CellUse, Instr, Reach, Role};
use caf_exprgen::place_form;
use caf_program::{ActualR, EventR, ExprR, PlaceR};

/// The code of the event for the end of a ship, if there is one. The place behind the values that it holds is the result.
fn gen_done(event: &Option<EventR>, code: &mut Vec<Instr>) -> Result<u32, Memory>
    ensures code { OnOk result (code.new.items ≡ code.old.items ++ done_code event.now 0) }
    ensures next { IfOk result (λ next. next ≡ 0 + count_all (of_done event.now)) }
{
    match event {
        None => Ok(0),
        Some(event) => gen_event_at(event, Role::Done, 0, code),
    }
}

/// The code of the value of an actual. The place behind the values that it holds is the result.
fn gen_shipped(actual: &ActualR, held: u32, code: &mut Vec<Instr>) -> Result<u32, Memory>
    ensures code { OnOk result (code.new.items ≡ code.old.items ++ value_code actual.now held) }
    ensures next { IfOk result (λ next. next ≡ held + held_by_actual actual.now) }
{
    match actual {
        ActualR::Value(e) => gen_value(e, held, code),
        ActualR::Scalar(object) => {
            put(code, Instr::Load(Reach::Scalar, *object))?;
            Ok(held)
        }
        ActualR::Local(cell) => {
            put(code, Instr::Cell(CellUse::Get, *cell))?;
            Ok(held)
        }
        ActualR::Element(object, index) => {
            let next = gen_value(index, held, code)?;
            put(code, Instr::Load(Reach::Element, *object))?;
            Ok(next)
        }
    }
}

/// The code of the values of actuals, from the left. The place behind the values that they hold is the result.
fn gen_all_shipped(actuals: &[ActualR], held: u32, code: &mut Vec<Instr>) -> Result<u32, Memory>
    ensures code { OnOk result (code.new.items ≡ code.old.items ++ values_code actuals.now held) }
    ensures next { IfOk result (λ next. next ≡ held + sum_by held_by_actual actuals.now) }
{
    let mut next = held;
    for actual in actuals {
        next = gen_shipped(actual, next, code)?;
    }
    Ok(next)
}

/// The code of a ship: its event, its values from the left, the rank, and the ship, which makes the tests.
pub(crate) fn gen_ship(
    event: &Option<EventR>,
    sub: u32,
    actuals: &[ActualR],
    place: &PlaceR<ExprR>,
    code: &mut Vec<Instr>,
) -> Result<(), Memory>
    ensures { OnOk result (code.new.items ≡ code.old.items ++ spawn_code event.now sub actuals.now place.now) }
{
    let held = gen_done(event, code)?;
    let held = gen_all_shipped(actuals, held, code)?;
    gen_value(&place.rank, held, code)?;
    put(code, Instr::Spawn(sub, place_form(place.team)))
}
