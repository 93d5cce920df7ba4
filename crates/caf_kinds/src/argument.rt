ghost use Rattle.std.specs.Prelude.{◌≡◌, List, ℕ, length, slice_get};
ghost use Rattle.caf_declare.specs.Names.{Tells};
ghost use Rattle.caf_kinds.specs.Statements.{lent as lent_meant, lent_of_kind as lent_of_kind_meant, lent_variable as lent_variable_meant, argument as argument_meant, arguments as arguments_meant, counted as counted_meant, dummies_at, subroutine_as, passed as passed_meant};

use crate::expr::{expr, operand};
use crate::scope::Scope;
use crate::written::target;
use caf_base::Text;
use caf_declare::{Rule, Stop, Symbol, Taken, broken, is_kind};
use caf_program::{ActualR, Intent, ValueKind, VariableR};
use caf_tree::expr::{Expr, Variable};
use sqlite_items::{Boxed, Items};
use std::alloc::Global;

/// An actual for `intent(inout)`: a scalar variable, or an array element without place.
fn lent(alloc: Global, line: u32, name: &str, variable: VariableR) -> Result<ActualR, Stop>
    ensures { Tells (lent_meant line name.now variable) result }
{
    match variable {
        VariableR::Scalar(object) => Ok(ActualR::Scalar(object)),
        VariableR::Local(cell) => Ok(ActualR::Local(cell)),
        VariableR::Element(object, index) => Ok(ActualR::Element(object, index)),
        _ => Err(broken(alloc, Rule::WrongKind, line, name)),
    }
}

/// The same, of the kind that is wanted.
fn lent_variable(
    alloc: Global,
    scope: &Scope,
    line: u32,
    loops: &[Text],
    kind: ValueKind,
    v: &Variable<Boxed<Expr>>,
) -> Result<ActualR, Stop>
    ensures { Tells (lent_variable_meant scope.now line loops.now kind v.now) result }
{
    let name = v.name.as_str();
    let (found, variable) = target(alloc, scope, line, loops, v)?;
    if is_kind(found, kind) {
        lent(alloc, line, name, variable)
    } else {
        Err(broken(alloc, Rule::WrongKind, line, name))
    }
}

/// An actual, which has the kind of its dummy. `sign` is what a fault names where the actual is no bare name.
fn argument(
    alloc: Global,
    scope: &Scope,
    line: u32,
    loops: &[Text],
    sign: &str,
    dummy: Option<Taken>,
    e: &Expr,
) -> Result<ActualR, Stop>
    ensures { Tells (argument_meant scope.now line loops.now sign.now dummy e.now) result }
{
    match (dummy, e) {
        (None, _) => {
            let (_, value) = expr(alloc, scope, line, e)?;
            Ok(ActualR::Value(value))
        }
        (
            Some(
                Taken {
                    kind,
                    intent: Intent::In,
                },
            ),
            _,
        ) => {
            let value = operand(alloc, scope, line, sign, kind, e)?;
            Ok(ActualR::Value(value))
        }
        (
            Some(
                Taken {
                    kind,
                    intent: Intent::InOut,
                },
            ),
            Expr::Variable(v),
        ) => lent_variable(alloc, scope, line, loops, kind, v),
        (Some(_), _) => Err(broken(alloc, Rule::WrongKind, line, sign)),
    }
}

/// The actuals for as many dummies.
fn arguments(
    alloc: Global,
    scope: &Scope,
    line: u32,
    loops: &[Text],
    sign: &str,
    dummies: &[Option<Taken>],
    given: &[Expr],
) -> Result<Items<ActualR>, Stop>
    requires { length given.now ≡ length dummies.now }
    ensures { Tells (arguments_meant scope.now line loops.now sign.now dummies.now given.now) result }
{
    let mut done = Items::new(alloc);
    for at in 0..given.len() {
        let actual = argument(alloc, scope, line, loops, sign, dummies[at], &given[at])?;
        done.push(actual)?;
    }
    Ok(done)
}

/// What a subroutine takes for its dummies.
fn dummies_of(scope: &Scope, sub: u32) -> &[Option<Taken>]
    ensures { result.now ≡ dummies_at scope.now sub }
{
    match scope.subs.get(sub as usize) {
        Some(dummies) => dummies.as_slice(),
        None => &[],
    }
}

/// `call` and `spawn` name a subroutine.
pub fn subroutine(alloc: Global, line: u32, name: &str, symbol: Option<Symbol>) -> Result<u32, Stop>
    ensures { Tells (subroutine_as line name.now symbol) result }
{
    match symbol {
        None => Err(broken(alloc, Rule::Undeclared, line, name)),
        Some(Symbol::Subroutine(sub)) => Ok(sub),
        Some(_) => Err(broken(alloc, Rule::WrongKind, line, name)),
    }
}

/// The actuals of a `call` or `spawn`: as many as the subroutine has dummies, each of its kind.
pub fn passed(
    alloc: Global,
    scope: &Scope,
    line: u32,
    loops: &[Text],
    sign: &str,
    name: &str,
    sub: u32,
    given: &[Expr],
) -> Result<Items<ActualR>, Stop>
    ensures { Tells (passed_meant scope.now line loops.now sign.now name.now sub given.now) result }
{
    let dummies = dummies_of(scope, sub);
    if given.len() != dummies.len() {
        return Err(broken(alloc, Rule::WrongCount, line, name));
    }
    arguments(alloc, scope, line, loops, sign, dummies, given)
}
