ghost use Rattle.std.specs.Prelude.{◌≡◌, ◌∷◌, ◌++◌, [], IfOk, None, codes, pos};
ghost use Rattle.caf_program.specs.Accepted.{KeepsKinds};
ghost use Rattle.caf_program.specs.declared.expr.ExprR.TheVariants as expr;
ghost use Rattle.caf_program.specs.declared.expr.TeamR.TheVariants as team;
ghost use Rattle.caf_program.specs.declared.parts.ActualR.TheVariants as actual;
ghost use Rattle.caf_program.specs.declared.program.Intent.TheVariants as intent;
ghost use Rattle.caf_program.specs.declared.program.ValueKind.TheVariants as value;
ghost use Rattle.caf_program.specs.declared.stmt.StmtR.TheVariants as stmt;

use caf_base::{Kind, Memory, Object, Sequence, Text};
use caf_program::{ActualR, DummyR, ExprR, Intent, PlaceR, Program, StmtR, SubR, TeamR, ValueKind};
use caf_teamcheck::{ShipFault, check_ships};
use sqlite_items::Items;
use std::alloc::{AllocError, Global};
use std::process::Abort;
use std::test::Fail;

/// The program is accepted.
fn expect_plain<R: Abort>(rt: &R, alloc: Global, program: Program)
    requires { KeepsKinds program }
{
    let is_plain = check_ships(alloc, program).is_ok();
    assert!(rt; is_plain);
}

/// A `finish` or `team_split` on this line of a subroutine is refused.
fn expect_collective<R: Abort>(rt: &R, alloc: Global, program: Program, line: u32, name: &str)
    requires { KeepsKinds program }
{
    let fault = check_ships(alloc, program).err();
    let is_told = match &fault {
        Some(ShipFault::CollectiveInShip(at, sub)) => *at == line && sub.as_str() == name,
        _ => false,
    };
    assert!(rt; is_told);
}

/// A `spawn` on this line of a subroutine with this dummy is refused.
fn expect_inout<R: Abort>(rt: &R, alloc: Global, program: Program, line: u32, name: &str)
    requires { KeepsKinds program }
{
    let fault = check_ships(alloc, program).err();
    let is_told = match &fault {
        Some(ShipFault::InoutInShip(at, dummy)) => *at == line && dummy.as_str() == name,
        _ => false,
    };
    assert!(rt; is_told);
}

/// `spawn f(..)[1]` of the first subroutine.
fn spawn(alloc: Global, line: u32, actual: ActualR) -> Result<StmtR, AllocError>
    ensures { IfOk result (λ s. s ≡ stmt.Spawn line None 0 (actual ∷ []) (record { rank = expr.Number (pos 1); team = team.World })) }
{
    let mut actuals = Items::new(alloc);
    actuals.push(actual)?;
    let (rank, team) = (ExprR::Number(1), TeamR::World);
    Ok(StmtR::Spawn {
        line,
        done: None,
        sub: 0,
        actuals,
        place: PlaceR { rank, team },
    })
}

/// A call without arguments.
fn call(alloc: Global, line: u32, sub: u32) -> StmtR
    ensures { result ≡ stmt.Call line sub [] }
{
    let actuals = Items::new(alloc);
    StmtR::Call { line, sub, actuals }
}

/// A finish of nothing.
fn finish(alloc: Global, line: u32) -> StmtR
    ensures { result ≡ stmt.Finish line team.World [] }
{
    StmtR::Finish {
        line,
        team: TeamR::World,
        body: Items::new(alloc),
    }
}

/// A subroutine without dummies.
fn subroutine(alloc: Global, name: &str, body: Items<StmtR>) -> Result<SubR, Memory>
    ensures { IfOk result (λ f. f ≡ record { name = name.now; dummies = []; locals = []; body = body }) }
{
    Ok(SubR {
        name: Text::copy_of(alloc, name)?,
        dummies: Sequence::new(alloc),
        locals: Sequence::new(alloc),
        body,
    })
}

/// A subroutine with one dummy.
fn with_dummy(alloc: Global, intent: Intent, body: Items<StmtR>) -> Result<SubR, Memory>
    ensures { IfOk result (λ f. f ≡ record { name = codes "f"; dummies = record { name = codes "k"; kind = value.Integer; intent = intent } ∷ []; locals = []; body = body }) }
{
    let mut dummies = Sequence::new(alloc);
    dummies.push(DummyR {
        name: Text::copy_of(alloc, "k")?,
        kind: ValueKind::Integer,
        intent,
    })?;
    Ok(SubR {
        name: Text::copy_of(alloc, "f")?,
        dummies,
        locals: Sequence::new(alloc),
        body,
    })
}

/// The subroutines `f(k)`, `g` and `h`.
fn three(
    alloc: Global,
    first: Items<StmtR>,
    second: Items<StmtR>,
    third: Items<StmtR>,
) -> Result<Sequence<SubR>, Memory>
    ensures { IfOk result (λ subs. subs ≡ record { name = codes "f"; dummies = record { name = codes "k"; kind = value.Integer; intent = intent.In } ∷ []; locals = []; body = first } ∷ record { name = codes "g"; dummies = []; locals = []; body = second } ∷ record { name = codes "h"; dummies = []; locals = []; body = third } ∷ []) }
{
    let mut subs = Sequence::new(alloc);
    subs.push(with_dummy(alloc, Intent::In, first)?)?;
    subs.push(subroutine(alloc, "g", second)?)?;
    subs.push(subroutine(alloc, "h", third)?)?;
    Ok(subs)
}

fn block(alloc: Global, statement: StmtR) -> Result<Items<StmtR>, AllocError>
    ensures { IfOk result (λ block. block ≡ statement ∷ []) }
{
    let mut block = Items::new(alloc);
    block.push(statement)?;
    Ok(block)
}

/// A block with one statement more.
fn with(block: Items<StmtR>, statement: StmtR) -> Result<Items<StmtR>, AllocError>
    ensures { IfOk result (λ longer. longer ≡ block ++ statement ∷ []) }
{
    let mut block = block;
    block.push(statement)?;
    Ok(block)
}

/// The main program ships `f(7)` and enters a finish.
fn shipping(alloc: Global, subs: Sequence<SubR>) -> Result<Program, Memory>
    ensures { IfOk result (λ p. p ≡ record { objects = []; names = []; subs = subs; body = stmt.Spawn 2 None 0 (actual.Value (expr.Number (pos 7)) ∷ []) (record { rank = expr.Number (pos 1); team = team.World }) ∷ stmt.Finish 3 team.World [] ∷ [] }) }
{
    let ship = block(alloc, spawn(alloc, 2, ActualR::Value(ExprR::Number(7)))?)?;
    let body = with(ship, finish(alloc, 3))?;
    Ok(Program {
        objects: Sequence::new(alloc),
        names: Sequence::new(alloc),
        subs,
        body,
    })
}

/// `g` enters a finish, and no ship reaches it.
fn apart(alloc: Global) -> Result<Program, Memory>
    ensures { IfOk result (λ p. KeepsKinds p) }
{
    let second = block(alloc, finish(alloc, 8))?;
    let subs = three(alloc, Items::new(alloc), second, Items::new(alloc))?;
    let program = shipping(alloc, subs)?;
    Ok(program)
}

/// `f` calls `g`, which calls `h`, which enters a finish on line 11.
fn two_deep(alloc: Global) -> Result<Program, Memory>
    ensures { IfOk result (λ p. KeepsKinds p) }
{
    let first = block(alloc, call(alloc, 5, 1))?;
    let second = block(alloc, call(alloc, 8, 2))?;
    let third = block(alloc, finish(alloc, 11))?;
    let subs = three(alloc, first, second, third)?;
    let program = shipping(alloc, subs)?;
    Ok(program)
}

/// `f` calls `h`, which calls itself and `g`, which calls `h` and enters a finish on line 9.
fn in_a_circle(alloc: Global) -> Result<Program, Memory>
    ensures { IfOk result (λ p. KeepsKinds p) }
{
    let first = block(alloc, call(alloc, 5, 2))?;
    let second = with(block(alloc, call(alloc, 8, 2))?, finish(alloc, 9))?;
    let third = with(block(alloc, call(alloc, 12, 2))?, call(alloc, 13, 1))?;
    let subs = three(alloc, first, second, third)?;
    let program = shipping(alloc, subs)?;
    Ok(program)
}

/// The main program ships `f(i)`, whose dummy `k` is `intent(inout)`.
fn inout_dummy(alloc: Global) -> Result<Program, Memory>
    ensures { IfOk result (λ p. KeepsKinds p) }
{
    let variable = Object {
        kind: Kind::Integer,
        lower: 1,
        extent: 1,
        shared: false,
    };
    let mut names = Sequence::new(alloc);
    names.push(Text::copy_of(alloc, "i")?)?;
    let mut subs = Sequence::new(alloc);
    subs.push(with_dummy(alloc, Intent::InOut, Items::new(alloc))?)?;
    let mut body = Items::new(alloc);
    body.push(spawn(alloc, 3, ActualR::Scalar(0))?)?;
    Ok(Program {
        objects: Sequence::from_slice(alloc, &[variable])?,
        names,
        subs,
        body,
    })
}

#[test]
fn ships_are_plain_along_calls_and_in_their_dummies(rt: HostRuntime) -> Result<(), Fail> {
    let alloc = rt.alloc();
    expect_plain(&rt, alloc, apart(alloc)?);
    expect_collective(&rt, alloc, two_deep(alloc)?, 11, "h");
    expect_collective(&rt, alloc, in_a_circle(alloc)?, 9, "g");
    expect_inout(&rt, alloc, inout_dummy(alloc)?, 3, "k");
    Ok(())
}
