use caf_base::OpName;

/// A choice of the source machine: which image goes on next, and how.
#[derive(Clone, Copy, Debug, PartialEq, Eq)]
pub enum Choice {
    /// A task of an image makes its next step.
    Step(u32, u32),
    /// An operation's next stage is performed.
    Touch(OpName),
    /// An image's main task goes past its split.
    Part(u32),
    /// An image's main task goes past the end of its finish.
    Leave(u32),
}
