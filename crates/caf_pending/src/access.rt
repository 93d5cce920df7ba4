//! What an implicit copy still has to do at the image that began it.

ghost use Rattle.std.specs.Prelude.{◌≡◌};
ghost use Rattle.std.specs.List.{list_any};
ghost use Rattle.caf_base.specs.Operations.{is_implicit as implicit};
ghost use Rattle.caf_pending.specs.Pending.{is_start, is_store, reads_here as reads_own, writes_here as writes_own};
ghost use Rattle.caf_pending.specs.Open.{accesses_of, closed as closed_between};

use crate::Operation;
use caf_base::{OpSpec, Stage};

/// The accesses of one operation to the memory of the image that began it which a fence may have to wait for. Only an
/// implicit copy has any.
#[derive(Clone, Copy)]
pub(crate) struct Accesses {
    /// A read of its source.
    pub reads: bool,
    /// A write of its destination.
    pub writes: bool,
}

/// Whether an operation is a copy with neither `srce` nor `deste`.
fn is_implicit(what: &OpSpec) -> bool
    ensures { result ≡ implicit what.now }
{
    match what {
        OpSpec::Copy(order) => order.srce.is_none() && order.deste.is_none(),
        OpSpec::Ship { .. } => false,
        OpSpec::Notice(_) => false,
        OpSpec::Read(_) => false,
        OpSpec::Write(..) => false,
    }
}

fn has_start(stages: &[Stage]) -> bool
    ensures { result ≡ list_any is_start stages.now }
{
    stages.iter().any(|stage| matches!(*stage, Stage::Start))
}

fn has_store(stages: &[Stage]) -> bool
    ensures { result ≡ list_any is_store stages.now }
{
    stages.iter().any(|stage| matches!(*stage, Stage::Store))
}

/// Whether a copy's source is this image's memory, and its Start hasn't been touched.
fn reads_here(operation: &Operation, image: u32) -> bool
    ensures { result ≡ reads_own image operation.now.spec operation.now.stages }
{
    match &operation.spec {
        OpSpec::Copy(order) => {
            order.source.image == image && has_start(operation.stages.as_slice())
        }
        OpSpec::Ship { .. } => false,
        OpSpec::Notice(_) => false,
        OpSpec::Read(_) => false,
        OpSpec::Write(..) => false,
    }
}

/// Whether a copy's destination is this image's memory, and its Store hasn't been touched.
fn writes_here(operation: &Operation, image: u32) -> bool
    ensures { result ≡ writes_own image operation.now.spec operation.now.stages }
{
    match &operation.spec {
        OpSpec::Copy(order) => {
            order.dest.image == image && has_store(operation.stages.as_slice())
        }
        OpSpec::Ship { .. } => false,
        OpSpec::Notice(_) => false,
        OpSpec::Read(_) => false,
        OpSpec::Write(..) => false,
    }
}

/// What an operation still has to do at the image that began it.
pub(crate) fn open_accesses(operation: &Operation) -> Accesses
    ensures { result ≡ accesses_of operation.now }
{
    let implicit = is_implicit(&operation.spec);
    let image = operation.name.image;
    Accesses {
        reads: implicit && reads_here(operation, image),
        writes: implicit && writes_here(operation, image),
    }
}

/// What was open and isn't any more.
pub(crate) fn closed(before: Accesses, after: Accesses) -> Accesses
    ensures { result ≡ closed_between before after }
{
    Accesses {
        reads: before.reads && !after.reads,
        writes: before.writes && !after.writes,
    }
}
