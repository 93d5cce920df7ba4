ghost use Rattle.std.specs.Prelude.{◌≡◌, IsTrue, None};
ghost use Rattle.caf_source.specs.Built.{is_program_built};
ghost use Rattle.caf_unbuilt.specs.Unbuilt.{first_unbuilt as first, unbuilt_in as line_in, unbuilt_in_block as line_in_block, unbuilt_in_subs as line_in_subs, unless as unless_runs};

use crate::expression::{are_actuals_built, are_parts_built, is_variable_built, runs};
use caf_program::{Accepted, StmtR, SubR};

/// The line, unless it runs.
fn unless(runs: bool, line: u32) -> Option<u32>
    ensures { result ≡ unless_runs runs line }
{
    if runs { None } else { Some(line) }
}

#[cycle(unbuilt)]
fn unbuilt_in(statement: &StmtR) -> Option<u32>
    ensures { result ≡ line_in statement.now }
{
    match statement {
        StmtR::Assign {
            line,
            target,
            value,
        } => unless(is_variable_built(target) && runs(value), *line),
        StmtR::Print { line, parts } => unless(are_parts_built(parts.as_slice()), *line),
        StmtR::If {
            line,
            condition,
            block,
            otherwise,
        } => unless(runs(condition), *line).or(unbuilt_in_block(block.as_slice()).or(
            unbuilt_in_block(otherwise.as_slice()),
        )),
        StmtR::Do {
            line,
            first,
            last,
            step,
            body,
            ..
        } => unless(runs(first) && (runs(last) && runs(step)), *line).or(unbuilt_in_block(
            body.as_slice(),
        )),
        StmtR::While {
            line,
            condition,
            body,
        } => unless(runs(condition), *line).or(unbuilt_in_block(body.as_slice())),
        StmtR::Call { line, actuals, .. } => unless(are_actuals_built(actuals.as_slice()), *line),
        StmtR::Aim { line, .. } => Some(*line),
        StmtR::Spawn { line, .. } => Some(*line),
        StmtR::Notify { line, .. } => Some(*line),
        StmtR::Wait { line, .. } => Some(*line),
        StmtR::Copy { line, .. } => Some(*line),
        StmtR::Cofence { line, .. } => Some(*line),
        StmtR::Split { line, .. } => Some(*line),
        StmtR::Finish { line, .. } => Some(*line),
    }
}

#[cycle(unbuilt)]
fn unbuilt_in_block(block: &[StmtR]) -> Option<u32>
    ensures { result ≡ line_in_block block.now }
{
    for statement in block {
        if let Some(line) = unbuilt_in(statement) {
            return Some(line);
        }
    }
    None
}

fn unbuilt_in_subs(subs: &[SubR]) -> Option<u32>
    ensures { result ≡ line_in_subs subs.now }
{
    for sub in subs {
        if let Some(line) = unbuilt_in_block(sub.body.as_slice()) {
            return Some(line);
        }
    }
    None
}

/// The line of the first statement that itself holds what doesn't run yet. Where there is none, the program holds only
/// what `step` runs on one image.
#[tactic(auto, using(crate::proofs::Plain::program_plain))]
pub fn first_unbuilt(a: &Accepted) -> Option<u32>
    ensures line { result ≡ first a.now }
    ensures built { result ≡ None → IsTrue (is_program_built a.now) }
{
    let program = a.program();
    unbuilt_in_block(program.body.as_slice()).or(unbuilt_in_subs(program.subs.as_slice()))
}
