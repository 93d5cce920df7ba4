ghost use Rattle.std.specs.Prelude.{◌≡◌, ◌+◌, ◌++◌, [], ◌∷◌, OnOk, IfOk};
ghost use Rattle.caf_program.specs.Value.{count};
ghost use Rattle.caf_treestep.specs.Evaluated.{held_by_actual};
ghost use Rattle.caf_codegen.specs.StmtCode.{actual_code, actuals_code, call_code, element_code};

use crate::emit::{gen_value, put};
use caf_base::Memory;
use caf_code::{CellUse, Instr, OutForm, Reach};
use caf_program::{ActualR, ExprR};

/// The code of an element and of the place to which its dummy is copied out; both need the subscript. The place behind the
/// values that it holds is the result.
fn gen_element(object: u32, index: &ExprR, held: u32, code: &mut Vec<Instr>) -> Result<u32, Memory>
    ensures code { OnOk result (code.new.items ≡ code.old.items ++ element_code object index.now held) }
    ensures next { IfOk result (λ next. next ≡ held + count index.now) }
{
    gen_value(index, held, code)?;
    put(code, Instr::Load(Reach::Element, object))?;
    let next = gen_value(index, held, code)?;
    put(code, Instr::Out(OutForm::Element(object)))?;
    Ok(next)
}

/// The code of one actual: its value, and for a variable the place to which its dummy is copied out. The place behind the
/// values that it holds is the result.
fn gen_actual(actual: &ActualR, held: u32, code: &mut Vec<Instr>) -> Result<u32, Memory>
    ensures code { OnOk result (code.new.items ≡ code.old.items ++ actual_code actual.now held) }
    ensures next { IfOk result (λ next. next ≡ held + held_by_actual actual.now) }
{
    match actual {
        ActualR::Value(e) => gen_value(e, held, code),
        ActualR::Scalar(object) => {
            put(code, Instr::Load(Reach::Scalar, *object))?;
            put(code, Instr::Out(OutForm::Scalar(*object)))?;
            Ok(held)
        }
        ActualR::Local(cell) => {
            put(code, Instr::Cell(CellUse::Get, *cell))?;
            put(code, Instr::Out(OutForm::Local(*cell)))?;
            Ok(held)
        }
        ActualR::Element(object, index) => gen_element(*object, index, held, code),
    }
}

/// The code of a call: its actuals from the left, and then the call.
pub(crate) fn gen_call(sub: u32, actuals: &[ActualR], code: &mut Vec<Instr>) -> Result<(), Memory>
    ensures { OnOk result (code.new.items ≡ code.old.items ++ call_code sub actuals.now) }
{
    gen_actuals(actuals, code)?;
    put(code, Instr::Call(sub))
}

fn gen_actuals(actuals: &[ActualR], code: &mut Vec<Instr>) -> Result<(), Memory>
    ensures { OnOk result (code.new.items ≡ code.old.items ++ actuals_code actuals.now 0) }
{
    let mut held = 0;
    for actual in actuals {
        held = gen_actual(actual, held, code)?;
    }
    Ok(())
}
