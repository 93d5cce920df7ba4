ghost use Rattle.std.specs.Prelude.{◌≡◌, ◌+◌, ◌<◌, ◌≤◌, ◌^◌, [], ◌∷◌, ◌++◌, OnOk, OnErr};
ghost use Rattle.caf_program.specs.Value.{count};
ghost use Rattle.caf_code.specs.declared.instr.Instr.TheVariants as instr;
ghost use Rattle.caf_exprgen.specs.ExprCode.{coded, expr_code, team_name};
ghost use Rattle.caf_exprgen.specs.Leaves.{Appends};
ghost use Rattle.caf_exprgen.specs.Placed.{Begins};

use caf_base::{Memory, truth};
use caf_code::{CellUse, Instr, Reach, TeamName, TeamQuery};
use caf_program::{ExprR, TeamR, skip_held};

/// Appends the code of an expression. From whatever operand stack it leaves the value of the expression on top, or meets
/// its trap. The values that the expression reads by a place or copointer are held from the place `held` on, in
/// post-order and written order. After a refusal `out` begins with what it held.
#[tactic(auto, using(crate::proofs::Gives::coded_count, crate::proofs::Gives::appends))]
pub fn gen_expr(e: &ExprR, held: u32, out: &mut Vec<Instr>) -> Result<(), Memory>
    requires { held + count e.now ≤ 2 ^ 32 }
    ensures leaves { OnOk result (Appends e.now held out.old.items out.new.items) }
    ensures code { OnOk result (out.new.items ≡ out.old.items ++ expr_code e.now held) }
    ensures err { OnErr result (Begins out.old.items out.new.items) }
{
    let mut at = held as usize;
    gen_from(e, &mut at, out)
}

/// Appends the code of an expression whose first held value stands at `at`, which then goes past its held values.
#[tactic(auto, using(crate::proofs::Seq::append_three, crate::proofs::Seq::begins_more, crate::proofs::Seq::begins_on, crate::proofs::Gives::coded_count))]
pub(crate) fn gen_from(e: &ExprR, at: &mut usize, out: &mut Vec<Instr>) -> Result<(), Memory>
    requires { at.old + (coded e.now).count ≤ 2 ^ 32 }
    ensures code { OnOk result (out.new.items ≡ out.old.items ++ expr_code e.now at.old) }
    ensures at { OnOk result (at.new ≡ at.old + (coded e.now).count) }
    ensures err { OnErr result (Begins out.old.items out.new.items) }
{
    match e {
        ExprR::Number(number) => put(out, Instr::Push(*number)),
        ExprR::Truth(holds) => put(out, Instr::Push(truth(*holds))),
        ExprR::Scalar(object) => put(out, Instr::Load(Reach::Scalar, *object)),
        ExprR::Local(cell) => put(out, Instr::Cell(CellUse::Get, *cell)),
        ExprR::Element(object, index) => {
            gen_from(index.get(), at, out)?;
            put(out, Instr::Load(Reach::Element, *object))
        }
        ExprR::Coindexed { index, place, .. } => {
            skip_held(index.get(), at);
            skip_held(place.rank.get(), at);
            put_held(at, out)
        }
        ExprR::Pointed(_, index) => {
            skip_held(index.get(), at);
            put_held(at, out)
        }
        ExprR::Unary(operator, operand) => {
            gen_from(operand.get(), at, out)?;
            put(out, Instr::unary(*operator))
        }
        ExprR::Chain(first, rest) => {
            gen_from(first.get(), at, out)?;
            for (operator, operand) in rest.as_slice() {
                gen_from(operand, at, out)?;
                put(out, Instr::binary(*operator))?;
            }
            Ok(())
        }
        ExprR::Rank(team) => put(out, Instr::Team(TeamQuery::Rank, named(*team))),
        ExprR::Size(team) => put(out, Instr::Team(TeamQuery::Size, named(*team))),
    }
}

/// Appends the instruction for the held value at `at`, which goes past it.
fn put_held(at: &mut usize, out: &mut Vec<Instr>) -> Result<(), Memory>
    requires { at.old < 2 ^ 32 }
    ensures code { OnOk result (out.new.items ≡ out.old.items ++ instr.Held at.old ∷ []) }
    ensures at { at.new ≡ at.old + 1 }
    ensures err { OnErr result (Begins out.old.items out.new.items) }
{
    let held = *at as u32;
    *at += 1;
    put(out, Instr::Held(held))
}

/// The team as instructions name it.
pub fn named(team: TeamR) -> TeamName
    ensures { result ≡ team_name team }
{
    match team {
        TeamR::World => TeamName::World,
        TeamR::Object(object) => TeamName::Object(object),
    }
}

/// One instruction more.
#[tactic(auto, using(crate::proofs::Seq::begins_same))]
pub(crate) fn put(out: &mut Vec<Instr>, instr: Instr) -> Result<(), Memory>
    ensures ok { OnOk result (out.new.items ≡ out.old.items ++ instr ∷ []) }
    ensures err { OnErr result (Begins out.old.items out.new.items) }
{
    out.push(instr)?;
    Ok(())
}
