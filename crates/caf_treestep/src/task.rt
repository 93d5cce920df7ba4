use crate::Todo;
use caf_base::{EventAt, Sequence, Stack};

/// The cells of a subroutine that runs, and what it has still to do. That of the main program has no cells.
#[derive(Drop)]
pub struct Frame {
    /// The dummies, and then the locals.
    pub locals: Sequence<i64>,
    pub todo: Stack<Todo>,
}

/// What a task waits for.
#[derive(Clone, Copy, Debug)]
pub enum Wait {
    /// The value of a blocking read.
    Value,
    /// The end of a blocking write.
    Done,
    /// The new team of a split, which goes into this object.
    NewTeam(u32),
}

/// A task over trees: it has no address and no operand stack.
#[derive(Drop)]
pub struct Task {
    pub frame: Frame,
    /// The frames of the open calls below, the innermost first.
    pub below: Stack<Frame>,
    /// The values already read of the statement at hand.
    pub held: Sequence<i64>,
    pub wait: Option<Wait>,
    /// The event that its ship carries.
    pub done: Option<EventAt>,
}
