ghost use Rattle.std.specs.Prelude.{◌≡◌, ◌&&◌, map, nat_eq};
ghost use Rattle.caf_source.specs.Built.{all_true};
ghost use Rattle.caf_unbuilt.specs.Unbuilt.{actual_runs, is_world as world, names_no_team as free, part_runs, runs as expression_runs, variable_runs};

use caf_program::{ActualR, ExprR, PrintR, TeamR, VariableR};

fn is_world(team: TeamR) -> bool
    ensures { result ≡ world team }
{
    matches!(team, TeamR::World)
}

/// Whether no `team_rank` and no `team_size` in the expression names a team.
fn names_no_team(e: &ExprR) -> bool
    ensures { result ≡ free e.now }
{
    match e {
        ExprR::Number(_) | ExprR::Truth(_) | ExprR::Scalar(_) | ExprR::Local(_) => true,
        ExprR::Element(_, index) => names_no_team(index.get()),
        ExprR::Coindexed { index, place, .. } => {
            names_no_team(index.get()) && names_no_team(place.rank.get())
        }
        ExprR::Pointed(_, index) => names_no_team(index.get()),
        ExprR::Unary(_, operand) => names_no_team(operand.get()),
        ExprR::Chain(first, others) => {
            if !names_no_team(first.get()) {
                return false;
            }
            for (_, operand) in others.as_slice() {
                if !names_no_team(operand) {
                    return false;
                }
            }
            true
        }
        ExprR::Rank(team) => is_world(*team),
        ExprR::Size(team) => is_world(*team),
    }
}

/// Whether the expression reads this image's elements alone, and names no team.
pub(crate) fn runs(e: &ExprR) -> bool
    ensures { result ≡ expression_runs e.now }
{
    matches!(e.read_count(), Some(0)) && names_no_team(e)
}

/// Whether the variable is one of this image or a cell of the frame.
pub(crate) fn is_variable_built(variable: &VariableR) -> bool
    ensures { result ≡ variable_runs variable.now }
{
    match variable {
        VariableR::Scalar(_) => true,
        VariableR::Local(_) => true,
        VariableR::Element(_, index) => runs(index),
        VariableR::Coindexed { .. } => false,
        VariableR::Pointed(..) => false,
    }
}

fn is_part_built(part: &PrintR) -> bool
    ensures { result ≡ part_runs part.now }
{
    match part {
        PrintR::Number(e) => runs(e),
        PrintR::Logical(e) => runs(e),
        PrintR::Text(_) => true,
    }
}

pub(crate) fn are_parts_built(parts: &[PrintR]) -> bool
    ensures { result ≡ all_true (map part_runs parts.now) }
{
    for part in parts {
        if !is_part_built(part) {
            return false;
        }
    }
    true
}

fn is_actual_built(actual: &ActualR) -> bool
    ensures { result ≡ actual_runs actual.now }
{
    match actual {
        ActualR::Value(e) => runs(e),
        ActualR::Scalar(_) => true,
        ActualR::Local(_) => true,
        ActualR::Element(_, index) => runs(index),
    }
}

pub(crate) fn are_actuals_built(actuals: &[ActualR]) -> bool
    ensures { result ≡ all_true (map actual_runs actuals.now) }
{
    for actual in actuals {
        if !is_actual_built(actual) {
            return false;
        }
    }
    true
}
