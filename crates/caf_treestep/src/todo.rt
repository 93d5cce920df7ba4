use caf_base::Sequence;
use caf_program::{LoopVariableR, StmtR};
use sqlite_items::Items;

/// Where a dummy is copied out to at the end of a call.
#[derive(Clone, Copy, Debug)]
pub enum Target {
    /// A scalar of the main program.
    Scalar(u32),
    /// A cell of the caller's frame.
    Local(u32),
    /// An element of an object of the main program.
    Element(u32, i64),
}

/// A dummy that is copied out at the end of a call.
#[derive(Clone, Copy, Debug)]
pub struct CopyOut {
    /// The dummy's cell in the frame of the call.
    pub cell: u32,
    pub target: Target,
}

/// What a task has still to do in a frame, one after another.
#[derive(Drop)]
pub enum Todo {
    Does(StmtR),
    /// The end of an iteration of a `do`.
    Turns {
        variable: LoopVariableR,
        step: i64,
        /// The iterations left, with the one that ends here.
        left: u128,
        body: Items<StmtR>,
    },
    /// The end of a finish, and of the main program.
    Closes,
    /// The end of a called subroutine, and what it copies out, from left to right.
    Returns(Sequence<CopyOut>),
    /// The end of a shipped subroutine.
    Ends,
}
