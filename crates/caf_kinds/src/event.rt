ghost use Rattle.std.specs.Prelude.{◌≡◌, Some, None};
ghost use Rattle.caf_declare.specs.Names.{Tells};
ghost use Rattle.caf_kinds.specs.Names.{look};
ghost use Rattle.caf_kinds.specs.Expressions.{sense, if_said, place_said};
ghost use Rattle.caf_kinds.specs.Statements.{own_event_as, is_shared as shared_meant, place_at as place_meant_at, place_on as place_meant_on, own_event as own_event_meant, event as event_meant, done_event as done_meant};

use crate::expr::{coarray, operand, place};
use crate::scope::{Scope, look};
use caf_declare::{Rule, Stop, Symbol, broken};
use caf_program::{EventR, ExprR, OwnEventR, PlaceR, ValueKind};
use caf_tree::expr::{Expr, Team, Variable};
use caf_tree::stmt::OwnEvent;
use sqlite_items::Boxed;
use std::alloc::Global;

/// An event that is an array, with its subscript.
fn event_element(
    alloc: Global,
    scope: &Scope,
    line: u32,
    name: &str,
    index: &Expr,
) -> Result<OwnEventR, Stop>
    ensures { Tells (own_event_as line name.now (look scope.now name.now) (Some (sense scope.now line index.now))) result }
{
    match look(scope, name) {
        None => Err(broken(alloc, Rule::Undeclared, line, name)),
        Some(
            Symbol::Event {
                object,
                array: true,
                ..
            },
        ) => {
            let index = operand(alloc, scope, line, name, ValueKind::Integer, index)?;
            Ok(OwnEventR { object, index })
        }
        Some(_) => Err(broken(alloc, Rule::WrongKind, line, name)),
    }
}

/// An event that is no array.
fn event_alone(alloc: Global, scope: &Scope, line: u32, name: &str) -> Result<OwnEventR, Stop>
    ensures { Tells (own_event_as line name.now (look scope.now name.now) None) result }
{
    match look(scope, name) {
        None => Err(broken(alloc, Rule::Undeclared, line, name)),
        Some(
            Symbol::Event {
                object,
                array: false,
                ..
            },
        ) => Ok(OwnEventR {
            object,
            index: ExprR::Number(1),
        }),
        Some(_) => Err(broken(alloc, Rule::WrongKind, line, name)),
    }
}

/// An event of this image.
pub fn own_event(
    alloc: Global,
    scope: &Scope,
    line: u32,
    event: &OwnEvent,
) -> Result<OwnEventR, Stop>
    ensures { Tells (own_event_meant scope.now line event.now) result }
{
    match &event.subscript {
        None => event_alone(alloc, scope, line, event.name.as_str()),
        Some(index) => event_element(alloc, scope, line, event.name.as_str(), index),
    }
}

/// Whether what a name stands for is shared with other images.
pub fn is_shared(symbol: Option<Symbol>) -> bool
    ensures { result ≡ shared_meant symbol }
{
    match symbol {
        Some(Symbol::Scalar { shared, .. }) => shared,
        Some(Symbol::Array { shared, .. }) => shared,
        Some(Symbol::Event { shared, .. }) => shared,
        _ => false,
    }
}

/// A place on what a name stands for, which is a coarray.
pub fn place_at(
    alloc: Global,
    scope: &Scope,
    line: u32,
    name: &str,
    rank: &Expr,
    team: &Team,
) -> Result<PlaceR<ExprR>, Stop>
    ensures { Tells (place_meant_at scope.now line name.now (look scope.now name.now) (record { rank = sense scope.now line rank.now; team = team.now })) result }
{
    coarray(alloc, line, name, is_shared(look(scope, name)))?;
    place(alloc, scope, line, name, rank, team)
}

/// The place of an event, if there is one.
fn event_place(
    alloc: Global,
    scope: &Scope,
    line: u32,
    v: &Variable<Boxed<Expr>>,
) -> Result<Option<PlaceR<ExprR>>, Stop>
    ensures { Tells (place_meant_on scope.now line v.now.name (look scope.now v.now.name) (place_said scope.now line v.now.place)) result }
{
    match &v.place {
        None => Ok(None),
        Some(at) => {
            let place = place_at(alloc, scope, line, v.name.as_str(), at.rank.get(), &at.team)?;
            Ok(Some(place))
        }
    }
}

/// The object and the index of an event of an image.
fn event_own(
    alloc: Global,
    scope: &Scope,
    line: u32,
    v: &Variable<Boxed<Expr>>,
) -> Result<OwnEventR, Stop>
    ensures { Tells (own_event_as line v.now.name (look scope.now v.now.name) (if_said scope.now line v.now.subscript)) result }
{
    match &v.subscript {
        None => event_alone(alloc, scope, line, v.name.as_str()),
        Some(index) => event_element(alloc, scope, line, v.name.as_str(), index.get()),
    }
}

/// An event of an image.
pub fn event(
    alloc: Global,
    scope: &Scope,
    line: u32,
    v: &Variable<Boxed<Expr>>,
) -> Result<EventR, Stop>
    ensures { Tells (event_meant scope.now line v.now) result }
{
    let own = event_own(alloc, scope, line, v)?;
    let place = event_place(alloc, scope, line, v)?;
    Ok(EventR { own, place })
}

/// An event, if one is written.
pub fn done_event(
    alloc: Global,
    scope: &Scope,
    line: u32,
    v: &Option<Variable<Boxed<Expr>>>,
) -> Result<Option<EventR>, Stop>
    ensures { Tells (done_meant scope.now line v.now) result }
{
    match v {
        None => Ok(None),
        Some(v) => Ok(Some(event(alloc, scope, line, v)?)),
    }
}
