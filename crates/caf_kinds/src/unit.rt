ghost use Rattle.std.specs.Prelude.{◌≡◌, Ok, Err, IfOk, map};
ghost use Rattle.caf_program.specs.Accepted.{KeepsKinds};
ghost use Rattle.caf_declare.specs.Names.{Tells};
ghost use Rattle.caf_kinds.specs.Units.{with_subs, signature_of, named as named_meant, body_meant, declared_meant, head_meant, sub_meant, subs_meant, scope_of, main_scope as main_scope_meant, parts_meant, bodies_meant, meaning};
ghost use Rattle.caf_kinds.specs.Faults.{Answers};

use crate::fault::{KindFault, fault_of};
use crate::scope::Scope;
use crate::statement::block;
use caf_base::{Memory, Sequence, Text};
use caf_declare::{
    Around, Fault, Frame, Globals, Rule, Stop, Symbol, Table, Taken, broken, check_dummies,
    declare_frame, declare_globals, dummies, heads_of, place_behind, signature,
};
use caf_program::{DummyR, Program, StmtR, SubR};
use caf_tree::stmt::Stmt;
use caf_tree::unit::{Sub, Unit};
use sqlite_items::Items;
use std::alloc::Global;

/// The names of the main program, with those of the subroutines behind them.
fn with_sub_names(
    alloc: Global,
    subs: &[Sub],
    mut names: Table<Symbol>,
) -> Result<Table<Symbol>, Memory>
    ensures { IfOk result (λ all. all ≡ with_subs 0 subs.now names) }
{
    for at in 0..subs.len() {
        let place = place_behind(at)?;
        names.add(alloc, subs[at].name.as_str(), Symbol::Subroutine(place))?;
    }
    Ok(names)
}

/// What a subroutine takes for its dummies.
fn taken_by(alloc: Global, f: &Sub) -> Result<Items<Option<Taken>>, Memory>
    ensures { IfOk result (λ all. all ≡ signature_of f.now) }
{
    let heads = heads_of(alloc, f.declarations.as_slice())?;
    signature(alloc, &heads, f.dummies.as_slice())
}

/// What each subroutine takes for its dummies.
fn signatures(alloc: Global, subs: &[Sub]) -> Result<Sequence<Items<Option<Taken>>>, Memory>
    ensures { IfOk result (λ all. all ≡ map signature_of subs.now) }
{
    let mut all = Sequence::new(alloc);
    for f in subs {
        let taken = taken_by(alloc, f)?;
        all.push(taken)?;
    }
    Ok(all)
}

/// A subroutine's name is declared once: what it stands for is the subroutine itself.
fn check_name(
    alloc: Global,
    line: u32,
    name: &str,
    at: u32,
    main: &Table<Symbol>,
) -> Result<(), Stop>
    ensures { Tells (named_meant line name.now at main.now) result }
{
    match main.look(name) {
        Some(Symbol::Subroutine(place)) => {
            if place == at {
                Ok(())
            } else {
                Err(broken(alloc, Rule::Twice, line, name))
            }
        }
        _ => Err(broken(alloc, Rule::Twice, line, name)),
    }
}

/// The statements of a part, with no loop around them.
fn body(alloc: Global, scope: &Scope, statements: &[Stmt]) -> Result<Items<StmtR>, Stop>
    ensures { Tells (body_meant scope.now statements.now) result }
{
    block(alloc, statements, scope, &[])
}

/// What a subroutine declares.
fn declared(
    alloc: Global,
    main: &Table<Symbol>,
    heads: &Table<Option<Taken>>,
    f: &Sub,
) -> Result<(Frame, Sequence<DummyR>), Stop>
    ensures { Tells (declared_meant heads.now main.now f.now) result }
{
    let header = f.dummies.as_slice();
    check_dummies(alloc, f.line, heads, header)?;
    let around = Around {
        header,
        heads,
        main,
    };
    let frame = declare_frame(alloc, &around, f.declarations.as_slice())?;
    let dummies = dummies(alloc, f.line, heads, header)?;
    Ok((frame, dummies))
}

/// The name of a subroutine, and what it declares.
fn head(
    alloc: Global,
    main: &Table<Symbol>,
    at: u32,
    f: &Sub,
) -> Result<(Frame, Sequence<DummyR>), Stop>
    ensures { Tells (head_meant main.now at f.now) result }
{
    check_name(alloc, f.line, f.name.as_str(), at, main)?;
    let heads = heads_of(alloc, f.declarations.as_slice())?;
    declared(alloc, main, &heads, f)
}

/// A subroutine at a place.
fn sub(alloc: Global, scope: &mut Scope, at: u32, f: &Sub) -> Result<SubR, Stop>
    ensures means { Tells (sub_meant scope.old.subs scope.old.main at f.now) result }
    ensures main { scope.new.main ≡ scope.old.main }
    ensures subs { scope.new.subs ≡ scope.old.subs }
{
    let (frame, dummies) = head(alloc, &scope.main, at, f)?;
    let Frame { names, locals } = frame;
    scope.own = names;
    let body = body(alloc, scope, f.body.as_slice())?;
    let name = Text::copy_of(alloc, f.name.as_str())?;
    Ok(SubR {
        name,
        dummies,
        locals,
        body,
    })
}

/// The subroutines in order.
fn subs(alloc: Global, scope: &mut Scope, written: &[Sub]) -> Result<Sequence<SubR>, Stop>
    ensures { Tells (subs_meant scope.old.subs scope.old.main 0 written.now) result }
{
    let mut done = Sequence::new(alloc);
    for at in 0..written.len() {
        let place = place_behind(at)?;
        let f = sub(alloc, scope, place, &written[at])?;
        done.push(f)?;
    }
    Ok(done)
}

/// What the main program sees.
fn main_scope(alloc: Global, unit: &Unit, names: Table<Symbol>) -> Result<Scope, Memory>
    ensures { IfOk result (λ scope. scope ≡ scope_of unit.now names) }
{
    let main = with_sub_names(alloc, unit.subs.as_slice(), names)?;
    let subs = signatures(alloc, unit.subs.as_slice())?;
    Ok(Scope {
        own: Table::new(alloc),
        main,
        subs,
    })
}

/// The statements of the main program, and its subroutines.
fn parts(
    alloc: Global,
    unit: &Unit,
    mut scope: Scope,
) -> Result<(Items<StmtR>, Sequence<SubR>), Stop>
    ensures { Tells (parts_meant unit.now scope) result }
{
    let body = body(alloc, &scope, unit.body.as_slice())?;
    let subs = subs(alloc, &mut scope, unit.subs.as_slice())?;
    Ok((body, subs))
}

/// The program behind the declarations of the main program.
fn bodies(alloc: Global, unit: &Unit, m: Globals) -> Result<Program, Stop>
    ensures { Tells (bodies_meant unit.now (main_scope_meant unit.now m) m) result }
{
    let Globals {
        names,
        objects,
        labels,
        ..
    } = m;
    let scope = main_scope(alloc, unit, names)?;
    let (body, subs) = parts(alloc, unit, scope)?;
    Ok(Program {
        objects,
        names: labels,
        subs,
        body,
    })
}

/// The program that a unit means.
fn program(alloc: Global, unit: &Unit) -> Result<Program, Stop>
    ensures { Tells (meaning unit.now) result }
{
    let m = declare_globals(alloc, unit.declarations.as_slice())?;
    bodies(alloc, unit, m)
}

/// What a unit means keeps the rules.
fn kept(_unit: &Unit, program: Program) -> Program
    requires { meaning _unit.now ≡ Ok program }
    ensures same { result ≡ program }
    ensures kept { KeepsKinds result }
{
    program
}

/// The fault that tells of the first rule that a unit breaks.
fn refused(_unit: &Unit, fault: Fault) -> KindFault
    requires { meaning _unit.now ≡ Err fault }
    ensures { Answers (meaning _unit.now) (Err result) }
{
    fault_of(fault)
}

/// The one program that a unit means, with slots in place of names, numbered in the order of their declarations; it comes
/// exactly where the rules on names and kinds hold, and keeps them.
///
/// # Errors
///
/// A fault tells the first rule in written order that is broken, with its line and name.
pub fn resolve(alloc: Global, unit: &Unit) -> Result<Program, KindFault>
    ensures means { Answers (meaning unit.now) result }
    ensures kept { IfOk result (λ p. KeepsKinds p) }
{
    match program(alloc, unit) {
        Ok(program) => Ok(kept(unit, program)),
        Err(Stop::Broken(fault)) => Err(refused(unit, fault)),
        Err(Stop::Memory) => Err(KindFault::Memory),
    }
}
