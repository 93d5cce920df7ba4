ghost use Rattle.std.specs.Prelude.{◌≡◌, List, ℕ};
ghost use Rattle.caf_declare.specs.Names.{Tells};
ghost use Rattle.caf_kinds.specs.Names.{look};
ghost use Rattle.caf_kinds.specs.Statements.{writable as writable_meant, free as free_meant, may_write as may_write_meant, target as target_meant, counter_as, counts};

use crate::expr::variable;
use crate::scope::{Scope, look};
use caf_base::Text;
use caf_declare::{Rule, Stop, Symbol, among, broken};
use caf_program::{LoopVariableR, ValueKind, VariableR};
use caf_tree::expr::{Expr, Variable};
use sqlite_items::Boxed;
use std::alloc::Global;

/// What is assigned is no `intent(in)` dummy.
fn writable(alloc: Global, line: u32, name: &str, symbol: Option<Symbol>) -> Result<(), Stop>
    ensures { Tells (writable_meant line name.now symbol) result }
{
    match symbol {
        Some(
            Symbol::Local {
                writable: false,
                ..
            },
        ) => Err(broken(alloc, Rule::ReadOnly, line, name)),
        _ => Ok(()),
    }
}

/// What is assigned is no variable of a loop around it in the same part.
fn free(alloc: Global, line: u32, loops: &[Text], name: &str) -> Result<(), Stop>
    ensures { Tells (free_meant line loops.now name.now) result }
{
    if among(loops, name) {
        Err(broken(alloc, Rule::DoVariable, line, name))
    } else {
        Ok(())
    }
}

/// Both.
fn may_write(
    alloc: Global,
    scope: &Scope,
    line: u32,
    loops: &[Text],
    name: &str,
) -> Result<(), Stop>
    ensures { Tells (may_write_meant line loops.now name.now (look scope.now name.now)) result }
{
    writable(alloc, line, name, look(scope, name))?;
    free(alloc, line, loops, name)
}

/// A variable that is assigned.
pub fn target(
    alloc: Global,
    scope: &Scope,
    line: u32,
    loops: &[Text],
    v: &Variable<Boxed<Expr>>,
) -> Result<(ValueKind, VariableR), Stop>
    ensures { Tells (target_meant scope.now line loops.now v.now) result }
{
    let target = variable(alloc, scope, line, v)?;
    may_write(alloc, scope, line, loops, v.name.as_str())?;
    Ok(target)
}

/// A scalar integer that may be a loop's variable.
fn counter(
    alloc: Global,
    line: u32,
    name: &str,
    symbol: Option<Symbol>,
) -> Result<LoopVariableR, Stop>
    ensures { Tells (counter_as line name.now symbol) result }
{
    match symbol {
        None => Err(broken(alloc, Rule::Undeclared, line, name)),
        Some(Symbol::Constant(_)) => Err(broken(alloc, Rule::ReadOnly, line, name)),
        Some(
            Symbol::Scalar {
                kind: ValueKind::Integer,
                object,
                ..
            },
        ) => Ok(LoopVariableR::Scalar(object)),
        Some(
            Symbol::Local {
                kind: ValueKind::Integer,
                cell,
                ..
            },
        ) => Ok(LoopVariableR::Local(cell)),
        Some(_) => Err(broken(alloc, Rule::WrongKind, line, name)),
    }
}

/// The variable of a loop.
pub fn loop_variable(
    alloc: Global,
    scope: &Scope,
    line: u32,
    loops: &[Text],
    name: &str,
) -> Result<LoopVariableR, Stop>
    ensures { Tells (counts scope.now line loops.now name.now) result }
{
    let variable = counter(alloc, line, name, look(scope, name))?;
    may_write(alloc, scope, line, loops, name)?;
    Ok(variable)
}
