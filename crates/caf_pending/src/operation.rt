//! One operation that is pending.

ghost use Rattle.std.specs.Prelude.{◌≡◌};
ghost use Rattle.caf_pending.specs.Pending.{passed, without_first as but_first};

use caf_base::{FinishRef, OpName, OpSpec, Sequence, Stage};
use std::alloc::Global;
use std::mem;

/// An operation that is pending.
#[derive(Drop)]
pub struct Operation {
    pub name: OpName,
    pub spec: OpSpec,
    /// The stages still to come.
    pub stages: Sequence<Stage>,
    /// The values in hand, once the source of a copy was read.
    pub values: Sequence<i64>,
    /// The finishes that enclose what began it, the innermost first.
    pub finishes: Sequence<FinishRef>,
    /// The task that began it.
    pub task: u32,
}

/// Takes the first stage off a list that isn't empty.
fn without_first(alloc: Global, stages: &mut Sequence<Stage>)
    ensures { stages.new ≡ but_first stages.old }
{
    let mut all = mem::replace(stages, Sequence::new(alloc)).into_vec();
    if !all.is_empty() {
        all.remove(0);
    }
    *stages = Sequence::from_vec(all);
}

/// A stage of an operation is over, and these values were read in it, if it read.
pub(crate) fn pass(alloc: Global, operation: &mut Operation, values: Option<Sequence<i64>>)
    ensures { operation.new ≡ passed values operation.old }
{
    without_first(alloc, &mut operation.stages);
    if let Some(values) = values {
        operation.values = values;
    }
}
