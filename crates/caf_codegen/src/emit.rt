//! What the code of each statement is made with.

ghost use Rattle.std.specs.Prelude.{◌≡◌, ◌+◌, [], ◌∷◌, ◌++◌, OnOk, IfOk};
ghost use Rattle.caf_program.specs.Value.{count};
ghost use Rattle.caf_exprgen.specs.ExprCode.{expr_code};

use caf_base::Memory;
use caf_code::Instr;
use caf_exprgen::gen_expr;
use caf_program::ExprR;

/// One instruction more.
pub(crate) fn put(code: &mut Vec<Instr>, instr: Instr) -> Result<(), Memory>
    ensures { OnOk result (code.new.items ≡ code.old.items ++ instr ∷ []) }
{
    code.push(instr)?;
    Ok(())
}

/// A place as instructions name it; one that doesn't fit is as if there were no memory for so many.
pub(crate) fn place(at: usize) -> Result<u32, Memory>
    ensures { IfOk result (λ place. place ≡ at) }
{
    if at <= u32::MAX as usize {
        Ok(at as u32)
    } else {
        Err(Memory)
    }
}

/// The place behind the held values of an expression whose first one has this place.
pub(crate) fn place_behind(e: &ExprR, held: u32) -> Result<u32, Memory>
    ensures { IfOk result (λ next. next ≡ held + count e.now) }
{
    let Some(count) = e.read_count() else {
        return Err(Memory);
    };
    let Some(next) = count.checked_add(held as usize) else {
        return Err(Memory);
    };
    place(next)
}

/// The code of an expression whose first held value has this place. The place behind its held values is the result.
pub(crate) fn gen_value(e: &ExprR, held: u32, code: &mut Vec<Instr>) -> Result<u32, Memory>
    ensures code { OnOk result (code.new.items ≡ code.old.items ++ expr_code e.now held) }
    ensures next { IfOk result (λ next. next ≡ held + count e.now) }
{
    let next = place_behind(e, held)?;
    gen_expr(e, held, code)?;
    Ok(next)
}
