ghost use Rattle.std.specs.Prelude.{◌≡◌, ◌+◌, ◌≤◌, ◌^◌, [], ◌∷◌, ◌++◌, OnOk, OnErr};
ghost use Rattle.caf_program.specs.Value.{count};
ghost use Rattle.caf_exprgen.specs.ExprCode.{asked_at, asked_behind, coded, joined, reads_code, team_place};
ghost use Rattle.caf_exprgen.specs.Placed.{Begins};

use crate::expr::{gen_from, put};
use caf_base::Memory;
use caf_code::{ElementForm, Instr, PlaceForm};
use caf_program::{ExprR, TeamR};

/// Appends the code that reads the elements of other images and behind copointers that stand in an expression, in
/// post-order and written order. Each read is a step of its own, which evaluates its subscript and its rank. Their values
/// are held from the place `held` on. After a refusal `out` begins with what it held.
#[tactic(auto, using(crate::proofs::Gives::coded_count))]
pub fn gen_reads(e: &ExprR, held: u32, out: &mut Vec<Instr>) -> Result<(), Memory>
    requires { held + count e.now ≤ 2 ^ 32 }
    ensures code { OnOk result (out.new.items ≡ out.old.items ++ joined (reads_code e.now held)) }
    ensures err { OnErr result (Begins out.old.items out.new.items) }
{
    let mut at = held as usize;
    reads_from(e, &mut at, out)
}

/// Appends the reads of an expression whose first held value stands at `at`, which then goes past its held values.
#[tactic(auto, using(crate::proofs::Seq::append_three, crate::proofs::Seq::begins_same, crate::proofs::Seq::begins_more, crate::proofs::Seq::begins_on, crate::proofs::Gives::coded_count))]
fn reads_from(e: &ExprR, at: &mut usize, out: &mut Vec<Instr>) -> Result<(), Memory>
    requires { at.old + (coded e.now).count ≤ 2 ^ 32 }
    ensures code { OnOk result (out.new.items ≡ out.old.items ++ joined (reads_code e.now at.old)) }
    ensures at { OnOk result (at.new ≡ at.old + (coded e.now).count) }
    ensures err { OnErr result (Begins out.old.items out.new.items) }
{
    match e {
        ExprR::Element(_, index) => reads_from(index.get(), at, out),
        ExprR::Coindexed {
            object,
            index,
            place,
        } => {
            let first = *at;
            let index = index.get();
            let rank = place.rank.get();
            reads_from(index, at, out)?;
            reads_from(rank, at, out)?;
            *at += 1;
            ask_at(*object, place.team, index, rank, first, out)
        }
        ExprR::Pointed(copointer, index) => {
            let first = *at;
            let index = index.get();
            reads_from(index, at, out)?;
            *at += 1;
            ask_behind(*copointer, index, first, out)
        }
        ExprR::Unary(_, operand) => reads_from(operand.get(), at, out),
        ExprR::Chain(first, rest) => {
            reads_from(first.get(), at, out)?;
            for (_, operand) in rest.as_slice() {
                reads_from(operand, at, out)?;
            }
            Ok(())
        }
        _ => Ok(()),
    }
}

/// The read of an element at a place: its subscript, its rank, and the question.
#[tactic(auto, using(crate::proofs::Seq::append_three, crate::proofs::Seq::begins_more, crate::proofs::Seq::begins_on))]
fn ask_at(
    object: u32,
    team: TeamR,
    index: &ExprR,
    rank: &ExprR,
    first: usize,
    out: &mut Vec<Instr>,
) -> Result<(), Memory>
    requires { first + (coded index.now).count + (coded rank.now).count ≤ 2 ^ 32 }
    ensures code { OnOk result (out.new.items ≡ out.old.items ++ asked_at object team (coded index.now) (coded rank.now) first) }
    ensures err { OnErr result (Begins out.old.items out.new.items) }
{
    let mut held = first;
    gen_from(index, &mut held, out)?;
    gen_from(rank, &mut held, out)?;
    put(
        out,
        Instr::Ask(ElementForm::Coindexed(object, place_form(team))),
    )
}

/// The read of an element behind a copointer: its subscript, and the question.
#[tactic(auto, using(crate::proofs::Seq::append_three, crate::proofs::Seq::begins_more, crate::proofs::Seq::begins_on))]
fn ask_behind(
    copointer: u32,
    index: &ExprR,
    first: usize,
    out: &mut Vec<Instr>,
) -> Result<(), Memory>
    requires { first + (coded index.now).count ≤ 2 ^ 32 }
    ensures code { OnOk result (out.new.items ≡ out.old.items ++ asked_behind copointer (coded index.now) first) }
    ensures err { OnErr result (Begins out.old.items out.new.items) }
{
    let mut held = first;
    gen_from(index, &mut held, out)?;
    put(out, Instr::Ask(ElementForm::Pointed(copointer)))
}

/// A rank of a team as instructions name it.
pub fn place_form(team: TeamR) -> PlaceForm
    ensures { result ≡ team_place team }
{
    match team {
        TeamR::World => PlaceForm::World,
        TeamR::Object(object) => PlaceForm::Of(object),
    }
}
