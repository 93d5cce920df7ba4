ghost use Rattle.std.specs.Prelude.{◌≡◌, ◌++◌, OnOk};
ghost use Rattle.caf_codegen.specs.StmtCode.{assign_code};

use crate::emit::{gen_value, put};
use caf_base::Memory;
use caf_code::{CellUse, ElementForm, Instr, Reach};
use caf_exprgen::place_form;
use caf_program::{ExprR, VariableR};

/// The code of an assignment: the left subscript and rank, the right side, and the store or the beginning of a blocking
/// write, which makes the tests.
pub(crate) fn gen_assign(
    target: &VariableR,
    value: &ExprR,
    code: &mut Vec<Instr>,
) -> Result<(), Memory>
    ensures { OnOk result (code.new.items ≡ code.old.items ++ assign_code target.now value.now) }
{
    match target {
        VariableR::Scalar(object) => {
            gen_value(value, 0, code)?;
            put(code, Instr::Store(Reach::Scalar, *object))?;
            put(code, Instr::Next)
        }
        VariableR::Local(cell) => {
            gen_value(value, 0, code)?;
            put(code, Instr::Cell(CellUse::Set, *cell))?;
            put(code, Instr::Next)
        }
        VariableR::Element(object, index) => {
            let held = gen_value(index, 0, code)?;
            gen_value(value, held, code)?;
            put(code, Instr::Store(Reach::Element, *object))?;
            put(code, Instr::Next)
        }
        VariableR::Coindexed {
            object,
            index,
            place,
        } => {
            let held = gen_value(index, 0, code)?;
            let held = gen_value(&place.rank, held, code)?;
            gen_value(value, held, code)?;
            let element = ElementForm::Coindexed(*object, place_form(place.team));
            put(code, Instr::Put(element))
        }
        VariableR::Pointed(copointer, index) => {
            let held = gen_value(index, 0, code)?;
            gen_value(value, held, code)?;
            put(code, Instr::Put(ElementForm::Pointed(*copointer)))
        }
    }
}
