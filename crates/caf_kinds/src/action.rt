ghost use Rattle.std.specs.Prelude.{◌≡◌, count_by};
ghost use Rattle.caf_program.specs.Rules.{is_pre as pre, is_srce as srce, is_deste as deste, once_each};
ghost use Rattle.caf_declare.specs.Names.{Tells};
ghost use Rattle.caf_kinds.specs.Statements.{key_meant, keys_meant, each_once as once_in_all, part_of as part_meant, printed_meant, all_printed, class_of as class_meant, down_of as down_meant, team_as, call_meant, spawn_meant, assigned, aims, copied, split_meant, action as action_meant};

use crate::argument::{passed, subroutine};
use crate::event::{done_event, event, own_event};
use crate::expr::{expr, operand, place, team};
use crate::scope::{Scope, look};
use crate::section::{aimed, copointer, of_kind, section};
use crate::written::target;
use caf_base::{Down, Text};
use caf_declare::{Rule, Stop, Symbol, broken};
use caf_program::{CopyEventR, ExprR, PrintR, StmtR, ValueKind};
use caf_tree::expr::{Expr, Place, Team, Variable};
use caf_tree::stmt::{Fence, FenceClass, Key, Printed, Section, Simple};
use sqlite_items::{Boxed, Items};
use std::alloc::Global;

/// An event of a copy.
fn key(alloc: Global, scope: &Scope, line: u32, key: &Key) -> Result<CopyEventR, Stop>
    ensures { Tells (key_meant scope.now line key.now) result }
{
    match key {
        Key::Pre(v) => Ok(CopyEventR::Pre(own_event(alloc, scope, line, v)?)),
        Key::Srce(v) => Ok(CopyEventR::Srce(event(alloc, scope, line, v)?)),
        Key::Deste(v) => Ok(CopyEventR::Deste(event(alloc, scope, line, v)?)),
    }
}

/// The events of a copy.
fn keys(alloc: Global, scope: &Scope, line: u32, keys: &[Key]) -> Result<Items<CopyEventR>, Stop>
    ensures { Tells (keys_meant scope.now line keys.now) result }
{
    let mut done = Items::new(alloc);
    for written in keys {
        let event = key(alloc, scope, line, written)?;
        done.push(event)?;
    }
    Ok(done)
}

fn is_pre(event: &CopyEventR) -> bool
    ensures { result ≡ pre event.now }
{
    matches!(event, CopyEventR::Pre(_))
}

fn is_srce(event: &CopyEventR) -> bool
    ensures { result ≡ srce event.now }
{
    matches!(event, CopyEventR::Srce(_))
}

fn is_deste(event: &CopyEventR) -> bool
    ensures { result ≡ deste event.now }
{
    matches!(event, CopyEventR::Deste(_))
}

/// How many events of the copy are `pre`.
fn count_pre(events: &[CopyEventR]) -> usize
    ensures { result ≡ count_by pre events.now }
{
    let mut count = 0_usize;
    for event in events {
        count += usize::from(is_pre(event));
    }
    count
}

/// How many events of the copy are `srce`.
fn count_srce(events: &[CopyEventR]) -> usize
    ensures { result ≡ count_by srce events.now }
{
    let mut count = 0_usize;
    for event in events {
        count += usize::from(is_srce(event));
    }
    count
}

/// How many events of the copy are `deste`.
fn count_deste(events: &[CopyEventR]) -> usize
    ensures { result ≡ count_by deste events.now }
{
    let mut count = 0_usize;
    for event in events {
        count += usize::from(is_deste(event));
    }
    count
}

/// Whether each kind of event stands at most once.
fn is_once_each(events: &[CopyEventR]) -> bool
    ensures { result ≡ once_each events.now }
{
    let pre = count_pre(events);
    let srce = count_srce(events);
    let deste = count_deste(events);
    pre < 2 && srce < 2 && deste < 2
}

/// Each kind of event stands at most once in a copy.
fn once(alloc: Global, line: u32, events: &[CopyEventR]) -> Result<(), Stop>
    ensures { Tells (once_in_all line events.now) result }
{
    if is_once_each(events) {
        Ok(())
    } else {
        Err(broken(alloc, Rule::WrongKind, line, "copy_async"))
    }
}

/// A value that is printed in the way of its kind.
fn part_of(kind: ValueKind, e: ExprR) -> PrintR
    ensures { result ≡ part_meant kind e }
{
    match kind {
        ValueKind::Integer => PrintR::Number(e),
        ValueKind::Logical => PrintR::Logical(e),
    }
}

/// One item of a line.
fn printed(alloc: Global, scope: &Scope, line: u32, item: &Printed) -> Result<PrintR, Stop>
    ensures { Tells (printed_meant scope.now line item.now) result }
{
    match item {
        Printed::Value(e) => {
            let (kind, e) = expr(alloc, scope, line, e)?;
            Ok(part_of(kind, e))
        }
        Printed::Text(text) => Ok(PrintR::Text(Text::copy_of(alloc, text.as_str())?)),
    }
}

/// The items of a line.
fn parts(alloc: Global, scope: &Scope, line: u32, items: &[Printed]) -> Result<Items<PrintR>, Stop>
    ensures { Tells (all_printed scope.now line items.now) result }
{
    let mut done = Items::new(alloc);
    for item in items {
        let part = printed(alloc, scope, line, item)?;
        done.push(part)?;
    }
    Ok(done)
}

fn class_of(class: FenceClass) -> Down
    ensures { result ≡ class_meant class }
{
    match class {
        FenceClass::Read => Down::Read,
        FenceClass::Write => Down::Write,
        FenceClass::Any => Down::Any,
    }
}

/// What a fence lets pass downward.
fn down_of(fences: &[Fence]) -> Down
    ensures { result ≡ down_meant fences.now }
{
    for fence in fences {
        if let Fence::Down(class) = fence {
            return class_of(*class);
        }
    }
    Down::Nothing
}

/// The object of a name that names a team.
fn team_object(alloc: Global, line: u32, name: &str, symbol: Option<Symbol>) -> Result<u32, Stop>
    ensures { Tells (team_as line name.now symbol) result }
{
    match symbol {
        None => Err(broken(alloc, Rule::Undeclared, line, name)),
        Some(Symbol::Team(object)) => Ok(object),
        Some(_) => Err(broken(alloc, Rule::WrongKind, line, name)),
    }
}

/// `target = value`.
fn assign(
    alloc: Global,
    scope: &Scope,
    line: u32,
    loops: &[Text],
    v: &Variable<Boxed<Expr>>,
    value: &Expr,
) -> Result<StmtR, Stop>
    ensures { Tells (assigned scope.now line loops.now v.now value.now) result }
{
    let (kind, target) = target(alloc, scope, line, loops, v)?;
    let value = operand(alloc, scope, line, "=", kind, value)?;
    Ok(StmtR::Assign {
        line,
        target,
        value,
    })
}

/// `copointer => section`.
fn aim(alloc: Global, scope: &Scope, line: u32, name: &str, c: &Section) -> Result<StmtR, Stop>
    ensures { Tells (aims scope.now line name.now c.now) result }
{
    let (kind, copointer) = copointer(alloc, line, name, look(scope, name))?;
    let region = aimed(alloc, scope, line, kind, c)?;
    Ok(StmtR::Aim {
        line,
        copointer,
        region,
    })
}

/// `call subroutine(argument, ..)`.
fn call(
    alloc: Global,
    scope: &Scope,
    line: u32,
    loops: &[Text],
    name: &str,
    given: &[Expr],
) -> Result<StmtR, Stop>
    ensures { Tells (call_meant scope.now line loops.now name.now given.now) result }
{
    let sub = subroutine(alloc, line, name, look(scope, name))?;
    let actuals = passed(alloc, scope, line, loops, "call", name, sub, given)?;
    Ok(StmtR::Call { line, sub, actuals })
}

/// `spawn(done) subroutine(argument, ..)[place]`.
fn spawn(
    alloc: Global,
    scope: &Scope,
    line: u32,
    loops: &[Text],
    done: &Option<Variable<Boxed<Expr>>>,
    name: &str,
    given: &[Expr],
    at: &Place<Expr>,
) -> Result<StmtR, Stop>
    ensures { Tells (spawn_meant scope.now line loops.now done.now name.now given.now at.now) result }
{
    let done = done_event(alloc, scope, line, done)?;
    let sub = subroutine(alloc, line, name, look(scope, name))?;
    let actuals = passed(alloc, scope, line, loops, "spawn", name, sub, given)?;
    let place = place(alloc, scope, line, "spawn", &at.rank, &at.team)?;
    Ok(StmtR::Spawn {
        line,
        done,
        sub,
        actuals,
        place,
    })
}

/// `copy_async(destination, source, key, ..)`.
fn copy(
    alloc: Global,
    scope: &Scope,
    line: u32,
    destination: &Section,
    source: &Section,
    written: &[Key],
) -> Result<StmtR, Stop>
    ensures { Tells (copied scope.now line destination.now source.now written.now) result }
{
    let (kind, dest) = section(alloc, scope, line, destination)?;
    let found = section(alloc, scope, line, source)?;
    let source = of_kind(alloc, line, source.name.as_str(), kind, found)?;
    let events = keys(alloc, scope, line, written)?;
    once(alloc, line, events.as_slice())?;
    Ok(StmtR::Copy {
        line,
        dest,
        source,
        events,
    })
}

/// `team_split(team, colour, key, new)`.
fn split(
    alloc: Global,
    scope: &Scope,
    line: u32,
    of: &Team,
    colour: &Expr,
    key: &Expr,
    name: &str,
) -> Result<StmtR, Stop>
    ensures { Tells (split_meant scope.now line of.now colour.now key.now name.now) result }
{
    let team = team(alloc, scope, line, of)?;
    let colour = operand(alloc, scope, line, "team_split", ValueKind::Integer, colour)?;
    let key = operand(alloc, scope, line, "team_split", ValueKind::Integer, key)?;
    let new = team_object(alloc, line, name, look(scope, name))?;
    Ok(StmtR::Split {
        line,
        team,
        colour,
        key,
        new,
    })
}

/// A statement without a block.
pub fn action(
    alloc: Global,
    scope: &Scope,
    line: u32,
    loops: &[Text],
    action: &Simple,
) -> Result<StmtR, Stop>
    ensures { Tells (action_meant scope.now line loops.now action.now) result }
{
    match action {
        Simple::Assign { target, value } => assign(alloc, scope, line, loops, target, value),
        Simple::Aim { copointer, section } => {
            aim(alloc, scope, line, copointer.as_str(), section)
        }
        Simple::Print { items } => {
            let parts = parts(alloc, scope, line, items.as_slice())?;
            Ok(StmtR::Print { line, parts })
        }
        Simple::Call {
            subroutine,
            arguments,
        } => call(
            alloc,
            scope,
            line,
            loops,
            subroutine.as_str(),
            arguments.as_slice(),
        ),
        Simple::Spawn {
            done,
            subroutine,
            arguments,
            place,
        } => spawn(
            alloc,
            scope,
            line,
            loops,
            done,
            subroutine.as_str(),
            arguments.as_slice(),
            place,
        ),
        Simple::Notify { event: v } => {
            let event = event(alloc, scope, line, v)?;
            Ok(StmtR::Notify { line, event })
        }
        Simple::Wait { event: v } => {
            let event = own_event(alloc, scope, line, v)?;
            Ok(StmtR::Wait { line, event })
        }
        Simple::Copy {
            destination,
            source,
            keys,
        } => copy(alloc, scope, line, destination, source, keys.as_slice()),
        Simple::Cofence { fences } => Ok(StmtR::Cofence {
            line,
            down: down_of(fences.as_slice()),
        }),
        Simple::Split {
            team,
            colour,
            key,
            new,
        } => split(alloc, scope, line, team, colour, key, new.as_str()),
    }
}
