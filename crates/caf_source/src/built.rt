ghost use Rattle.std.specs.Prelude.{◌≡◌, ◌&&◌, map, nat_eq};
ghost use Rattle.caf_source.specs.Built.{all_true, are_subs_built as subs_built, is_actual_plain as actual_plain, is_block_built as block_built, is_built as statement_built, is_here as here, is_part_plain as part_plain, is_plain as plain, is_program_built as program_built};

use caf_program::{Accepted, ActualR, ExprR, PrintR, StmtR, SubR, VariableR};

/// Whether an expression reads no element of another image and none behind a copointer.
fn is_plain(e: &ExprR) -> bool
    ensures { result ≡ plain e.now }
{
    matches!(e.read_count(), Some(0))
}

/// Whether a variable is one of this image or a cell of the frame.
fn is_here(variable: &VariableR) -> bool
    ensures { result ≡ here variable.now }
{
    match variable {
        VariableR::Scalar(_) => true,
        VariableR::Local(_) => true,
        VariableR::Element(_, index) => is_plain(index),
        VariableR::Coindexed { .. } => false,
        VariableR::Pointed(..) => false,
    }
}

fn is_part_plain(part: &PrintR) -> bool
    ensures { result ≡ part_plain part.now }
{
    match part {
        PrintR::Number(e) => is_plain(e),
        PrintR::Logical(e) => is_plain(e),
        PrintR::Text(_) => true,
    }
}

fn are_parts_plain(parts: &[PrintR]) -> bool
    ensures { result ≡ all_true (map part_plain parts.now) }
{
    for part in parts {
        if !is_part_plain(part) {
            return false;
        }
    }
    true
}

fn is_actual_plain(actual: &ActualR) -> bool
    ensures { result ≡ actual_plain actual.now }
{
    match actual {
        ActualR::Value(e) => is_plain(e),
        ActualR::Scalar(_) => true,
        ActualR::Local(_) => true,
        ActualR::Element(_, index) => is_plain(index),
    }
}

fn are_actuals_plain(actuals: &[ActualR]) -> bool
    ensures { result ≡ all_true (map actual_plain actuals.now) }
{
    for actual in actuals {
        if !is_actual_plain(actual) {
            return false;
        }
    }
    true
}

#[cycle(built)]
fn is_statement_built(statement: &StmtR) -> bool
    ensures { result ≡ statement_built statement.now }
{
    match statement {
        StmtR::Assign { target, value, .. } => is_here(target) && is_plain(value),
        StmtR::Print { parts, .. } => are_parts_plain(parts.as_slice()),
        StmtR::If {
            condition,
            block,
            otherwise,
            ..
        } => is_plain(condition)
            && (is_block_built(block.as_slice()) && is_block_built(otherwise.as_slice())),
        StmtR::Do {
            first,
            last,
            step,
            body,
            ..
        } => (is_plain(first) && (is_plain(last) && is_plain(step)))
            && is_block_built(body.as_slice()),
        StmtR::While {
            condition,
            body,
            ..
        } => is_plain(condition) && is_block_built(body.as_slice()),
        StmtR::Call { actuals, .. } => are_actuals_plain(actuals.as_slice()),
        _ => false,
    }
}

#[cycle(built)]
fn is_block_built(block: &[StmtR]) -> bool
    ensures { result ≡ block_built block.now }
{
    for statement in block {
        if !is_statement_built(statement) {
            return false;
        }
    }
    true
}

fn are_subs_built(subs: &[SubR]) -> bool
    ensures { result ≡ subs_built subs.now }
{
    for sub in subs {
        if !is_block_built(sub.body.as_slice()) {
            return false;
        }
    }
    true
}

/// Whether a program holds only the forms of statements that run so far: assignment, `print`, `if`, `do`, `do while` and
/// `call`, with expressions that read no element of another image and none behind a copointer.
pub fn is_built(a: &Accepted) -> bool
    ensures { result ≡ program_built a.now }
{
    let program = a.program();
    is_block_built(program.body.as_slice()) && are_subs_built(program.subs.as_slice())
}
