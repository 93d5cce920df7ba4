ghost use Rattle.std.specs.Prelude.{◌≡◌, ◌++◌, OnOk};
ghost use Rattle.caf_codegen.specs.StmtCode.{split_code};

use crate::emit::{gen_value, put};
use caf_base::Memory;
use caf_code::Instr;
use caf_exprgen::named;
use caf_program::{ExprR, TeamR};

/// The code of a split: colour, key, and the arrival, which makes the test.
pub(crate) fn gen_split(
    team: TeamR,
    colour: &ExprR,
    key: &ExprR,
    new: u32,
    code: &mut Vec<Instr>,
) -> Result<(), Memory>
    ensures { OnOk result (code.new.items ≡ code.old.items ++ split_code team colour.now key.now new) }
{
    let held = gen_value(colour, 0, code)?;
    gen_value(key, held, code)?;
    put(code, Instr::Split(named(team), new))
}
