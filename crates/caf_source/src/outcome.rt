use caf_base::{OpName, Sequence};
use caf_pending::Operation;

/// What a Step of a task does beyond its image.
#[derive(Drop)]
pub enum Outcome {
    /// It isn't defined, and nothing changes.
    Refused,
    /// Nothing.
    Local,
    /// It begins an operation.
    Begun(Operation),
    /// Its task has ended: the ship that brought the task is complete, and the notice to its event is begun.
    Ended {
        ship: Option<OpName>,
        notice: Option<Operation>,
    },
}

/// What a stage of an operation does beyond the image at which it is performed.
#[derive(Drop)]
pub enum Touched {
    /// It isn't defined, and nothing changes.
    Refused,
    /// Nothing: it traps.
    Trapped,
    /// The stage is over.
    Passed,
    /// The stage is over: the source of a copy was read, and the notice to its `srce` event is begun.
    Read {
        values: Sequence<i64>,
        notice: Option<Operation>,
    },
    /// The operation is complete, and the notice to the `deste` event of a copy is begun.
    Completed(Option<Operation>),
    /// A blocking operation is complete: its task goes on, with the value of a read.
    Answered(Option<i64>),
}
