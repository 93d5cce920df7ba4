ghost use Rattle.std.specs.Prelude.{◌≡◌, ◌+◌, ◌++◌, IfOk, OnOk};
ghost use Rattle.caf_program.specs.Expressions.{count_all, of_place};
ghost use Rattle.caf_codegen.specs.StmtCode.{place_code, place_form as form_of_place};

use crate::emit::gen_value;
use caf_base::Memory;
use caf_code::{Instr, PlaceForm};
use caf_exprgen::place_form;
use caf_program::{ExprR, PlaceR};

/// The code of a rank, if there is one. The place behind the values that it holds is the result.
pub(crate) fn gen_place(
    place: &Option<PlaceR<ExprR>>,
    held: u32,
    code: &mut Vec<Instr>,
) -> Result<u32, Memory>
    ensures code { OnOk result (code.new.items ≡ code.old.items ++ place_code place.now held) }
    ensures next { IfOk result (λ next. next ≡ held + count_all (of_place place.now)) }
{
    match place {
        None => Ok(held),
        Some(place) => gen_value(&place.rank, held, code),
    }
}

/// The place as instructions name it.
pub(crate) fn form_of(place: &Option<PlaceR<ExprR>>) -> PlaceForm
    ensures { result ≡ form_of_place place.now }
{
    match place {
        None => PlaceForm::Own,
        Some(place) => place_form(place.team),
    }
}
