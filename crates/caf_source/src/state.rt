use caf_base::{FinishRef, OpName, Sequence, Trap};
use caf_history::{Arrivals, FinishesLeft};
use caf_memory::ImageMemory;
use caf_treestep::Task;

/// A live task of an image.
#[derive(Drop)]
pub struct Live {
    /// 0 for the main program.
    pub number: u32,
    pub task: Task,
    /// The finishes that enclose it, the innermost first.
    pub finishes: Sequence<FinishRef>,
    /// The ship that brought it.
    pub ship: Option<OpName>,
}

/// An image: its memory, its tasks, and how far its main task has come.
#[derive(Drop)]
pub struct Image {
    pub memory: ImageMemory,
    pub trap: Option<Trap>,
    pub main: Live,
    /// The shipped tasks that are live, in the order in which their ships were taken.
    pub shipped: Sequence<Live>,
    /// The number of operations that it has begun.
    pub operations: u32,
    /// The number of ships that it has taken.
    pub ships: u32,
    /// The finishes that its main task has left. Those entered and not left enclose it.
    pub left: FinishesLeft,
    /// The splits that its main task has arrived at, those that it has passed among them.
    pub arrived: Arrivals,
}
