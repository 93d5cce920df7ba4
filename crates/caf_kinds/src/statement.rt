ghost use Rattle.std.specs.Prelude.{◌≡◌, ◌∷◌, [], IfOk, map};
ghost use Rattle.caf_declare.specs.Names.{Tells};
ghost use Rattle.caf_kinds.specs.Statements.{block as block_meant, step_meant, statement as statement_meant};

use crate::action::action;
use crate::expr::{operand, team};
use crate::scope::Scope;
use crate::written::loop_variable;
use caf_base::{Memory, Text};
use caf_declare::Stop;
use caf_program::{ExprR, StmtR, ValueKind};
use caf_tree::expr::Expr;
use caf_tree::stmt::Stmt;
use sqlite_items::Items;
use std::alloc::Global;

/// The variables of the loops around the body of one more.
fn inside(alloc: Global, loops: &[Text], name: &str) -> Result<Items<Text>, Memory>
    ensures { IfOk result (λ all. all ≡ name.now ∷ loops.now) }
{
    let mut all = Items::new(alloc);
    all.push(Text::copy_of(alloc, name)?)?;
    for other in loops {
        all.push(Text::copy_of(alloc, other.as_str())?)?;
    }
    Ok(all)
}

/// The step of a loop, which is 1 where none is written.
fn step(alloc: Global, scope: &Scope, line: u32, e: &Option<Expr>) -> Result<ExprR, Stop>
    ensures { Tells (step_meant scope.now line e.now) result }
{
    match e {
        None => Ok(ExprR::Number(1)),
        Some(e) => operand(alloc, scope, line, "do", ValueKind::Integer, e),
    }
}

/// The statements of a block.
#[cycle(statements)]
pub fn block(
    alloc: Global,
    block: &[Stmt],
    scope: &Scope,
    loops: &[Text],
) -> Result<Items<StmtR>, Stop>
    ensures { Tells (block_meant loops.now (map (statement_meant scope.now) block.now)) result }
{
    let mut done = Items::new(alloc);
    for written in block {
        let statement = statement(alloc, written, scope, loops)?;
        done.push(statement)?;
    }
    Ok(done)
}

/// What a statement means in a part, inside the loops that are open around it.
#[cycle(statements)]
fn statement(alloc: Global, s: &Stmt, scope: &Scope, loops: &[Text]) -> Result<StmtR, Stop>
    ensures { Tells (statement_meant scope.now s.now loops.now) result }
{
    match s {
        Stmt::Simple { line, action: a } => action(alloc, scope, *line, loops, a),
        Stmt::IfLine {
            line,
            condition,
            action_line,
            action: a,
        } => {
            let condition = operand(alloc, scope, *line, "if", ValueKind::Logical, condition)?;
            let inner = action(alloc, scope, *action_line, loops, a)?;
            let mut only = Items::new(alloc);
            only.push(inner)?;
            Ok(StmtR::If {
                line: *line,
                condition,
                block: only,
                otherwise: Items::new(alloc),
            })
        }
        Stmt::If {
            line,
            condition,
            block: first,
            otherwise: second,
        } => {
            let condition = operand(alloc, scope, *line, "if", ValueKind::Logical, condition)?;
            let first = block(alloc, first.as_slice(), scope, loops)?;
            let second = block(alloc, second.as_slice(), scope, loops)?;
            Ok(StmtR::If {
                line: *line,
                condition,
                block: first,
                otherwise: second,
            })
        }
        Stmt::Do {
            line,
            variable,
            first,
            last,
            step: by,
            body,
        } => {
            let name = variable.as_str();
            let variable = loop_variable(alloc, scope, *line, loops, name)?;
            let first = operand(alloc, scope, *line, "do", ValueKind::Integer, first)?;
            let last = operand(alloc, scope, *line, "do", ValueKind::Integer, last)?;
            let step = step(alloc, scope, *line, by)?;
            let inner = inside(alloc, loops, name)?;
            let body = block(alloc, body.as_slice(), scope, inner.as_slice())?;
            Ok(StmtR::Do {
                line: *line,
                variable,
                first,
                last,
                step,
                body,
            })
        }
        Stmt::While {
            line,
            condition,
            body,
        } => {
            let condition = operand(alloc, scope, *line, "do", ValueKind::Logical, condition)?;
            let body = block(alloc, body.as_slice(), scope, loops)?;
            Ok(StmtR::While {
                line: *line,
                condition,
                body,
            })
        }
        Stmt::Finish {
            line,
            team: of,
            body,
        } => {
            let team = team(alloc, scope, *line, of)?;
            let body = block(alloc, body.as_slice(), scope, loops)?;
            Ok(StmtR::Finish {
                line: *line,
                team,
                body,
            })
        }
    }
}
