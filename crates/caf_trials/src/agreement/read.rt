use caf_base::Memory;
use caf_kinds::resolve;
use caf_lexer::tokens;
use caf_parser::unit;
use caf_program::Accepted;
use caf_teamcheck::check_ships;
use caf_tree::unit::Unit;
use std::alloc::Global;
use std::process::Abort;
use std::test::Fail;

/// What the programs of the tables declare.
const DECLARED: &str = "program x
implicit none
integer, parameter :: two = 2
integer :: i, j, a(3)[*], b(0:3), c[*], big(300)[*], h(9223372036854775806:9223372036854775807)[*]
logical :: l, m(2)[*]
event :: e, d(2)[*]
team :: t, u
integer, copointer :: p(:)
logical, copointer :: q(:)
";

/// The program that has these statements and subroutines.
fn whole(alloc: Global, body: &str) -> Result<String, Memory> {
    Ok(format!(in alloc; "{DECLARED}{body}\nend program\n")?)
}

fn tree_of<R: Abort>(rt: &R, alloc: Global, text: &[u8]) -> Result<Unit, Fail> {
    assert!(rt; text.len() < 10_000);
    let tokens = tokens(alloc, text)?;
    Ok(unit(alloc, tokens.as_slice())?)
}

/// The accepted program that has these statements and subroutines.
pub(crate) fn accepted<R: Abort>(rt: &R, alloc: Global, body: &str) -> Result<Accepted, Fail> {
    let text = whole(alloc, body)?;
    let unit = tree_of(rt, alloc, text.as_bytes())?;
    let program = resolve(alloc, &unit)?;
    Ok(check_ships(alloc, program)?)
}
