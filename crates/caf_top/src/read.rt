ghost use Rattle.std.specs.Prelude.{◌<◌, ◌^◌, length};
ghost use Rattle.caf_program.specs.Accepted.{KeepsKinds};
ghost use Rattle.caf_top.specs.Reading.{IsShippable, Reads};
ghost use Rattle.caf_top.specs.Refusals.{IsWrong, MeansWrong, ShipsWrong, SpellWrong};
ghost use Rattle.caf_top.specs.Sees.{IsMeant, IsSpelled, Sees};

use crate::refusal::{Stop, of_kinds, of_ships, of_tokens, refused};
use caf_exprparse::ParseFault;
use caf_kinds::resolve;
use caf_lexer::{Token, tokens};
use caf_parser::unit;
use caf_program::{Accepted, Program};
use caf_teamcheck::check_ships;
use caf_tree::unit::Unit;
use std::alloc::Global;

fn accepted(alloc: Global, program: Program) -> Result<Accepted, Stop>
    requires { KeepsKinds program }
    ensures { Reads (IsShippable program) (ShipsWrong program) result }
{
    match check_ships(alloc, program) {
        Ok(accepted) => Ok(accepted),
        Err(fault) => Err(of_ships(alloc, &fault)),
    }
}

/// The program that a unit means.
fn meant(alloc: Global, unit: &Unit) -> Result<Accepted, Stop>
    ensures { Reads (IsMeant unit.now) (MeansWrong unit.now) result }
{
    match resolve(alloc, unit) {
        Ok(program) => accepted(alloc, program),
        Err(fault) => Err(of_kinds(alloc, &fault)),
    }
}

/// The program that tokens spell.
fn spelled(alloc: Global, tokens: &[Token]) -> Result<Accepted, Stop>
    ensures { Reads (IsSpelled tokens.now) (SpellWrong tokens.now) result }
{
    match unit(alloc, tokens) {
        Ok(unit) => meant(alloc, &unit),
        Err(ParseFault::Syntax(line)) => Err(refused(alloc, line, "syntax")),
        Err(ParseFault::Deep(line)) => Err(refused(alloc, line, "deep")),
        Err(ParseFault::Memory) => Err(Stop::Memory),
    }
}

/// The accepted program whose text this is, or the first fault.
pub(crate) fn read_program(alloc: Global, bytes: &[u8]) -> Result<Accepted, Stop>
    requires { length bytes.now < 2 ^ 32 }
    ensures { Reads (Sees bytes.now) (IsWrong bytes.now) result }
{
    match tokens(alloc, bytes) {
        Ok(tokens) => spelled(alloc, tokens.as_slice()),
        Err(fault) => Err(of_tokens(alloc, fault)),
    }
}
