//! What a choice does to the operations that are pending.

ghost use Rattle.std.specs.Prelude.{◌≡◌, IfOk, OnOk};
ghost use Rattle.caf_source.specs.Next.{pending_after, pending_touched, with_notice, without_ship as without};
ghost use Rattle.caf_source.specs.Stepping.{Makes};

use crate::Stepped;
use crate::outcome::{Outcome, Touched};
use caf_base::{Memory, OpName};
use caf_pending::{Operation, Pending};
use std::alloc::Global;

/// Takes the ship off that brought a task, if one did.
fn take_ship(pending: &mut Pending, ship: Option<OpName>)
    ensures { pending.new ≡ without ship pending.old }
{
    if let Some(name) = ship {
        pending.remove(name);
    }
}

/// Puts a notice to the others, if one was begun.
fn add_notice(pending: &mut Pending, notice: Option<Operation>) -> Result<(), Memory>
    ensures { OnOk result (pending.new ≡ with_notice notice pending.old) }
{
    match notice {
        None => Ok(()),
        Some(notice) => pending.put(notice),
    }
}

/// The pending operations after a Step.
pub(crate) fn apply_outcome(pending: &mut Pending, outcome: Outcome) -> Result<Stepped, Memory>
    ensures { IfOk result (λ stepped. Makes (pending_after outcome pending.old) pending.old pending.new stepped) }
{
    match outcome {
        Outcome::Refused => Ok(Stepped::NotEnabled),
        Outcome::Local => Ok(Stepped::Done),
        Outcome::Begun(operation) => {
            pending.put(operation)?;
            Ok(Stepped::Done)
        }
        Outcome::Ended { ship, notice } => {
            take_ship(pending, ship);
            add_notice(pending, notice)?;
            Ok(Stepped::Done)
        }
    }
}

/// The pending operations after a stage of the one of a name.
pub(crate) fn apply_touched(
    alloc: Global,
    pending: &mut Pending,
    name: OpName,
    touched: Touched,
) -> Result<Stepped, Memory>
    ensures { IfOk result (λ stepped. Makes (pending_touched touched name pending.old) pending.old pending.new stepped) }
{
    match touched {
        Touched::Refused => Ok(Stepped::NotEnabled),
        Touched::Trapped => Ok(Stepped::Done),
        Touched::Passed => {
            pending.pass(alloc, name, None);
            Ok(Stepped::Done)
        }
        Touched::Read { values, notice } => {
            pending.pass(alloc, name, Some(values));
            add_notice(pending, notice)?;
            Ok(Stepped::Done)
        }
        Touched::Completed(notice) => {
            pending.remove(name);
            add_notice(pending, notice)?;
            Ok(Stepped::Done)
        }
        Touched::Answered(_) => {
            pending.remove(name);
            Ok(Stepped::Done)
        }
    }
}
