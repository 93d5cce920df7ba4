ghost use Rattle.std.specs.Prelude.{◌≡◌};

use caf_base::{Four, OpName, Stage};

/// One event of a run. The first number is the image that it stands at, from 0.
///
/// Steps, touches, parts and leaves are the choices of a run. The others belong to the protocol by which a finish finds
/// its end, and by which answers come back.
#[derive(Clone, Copy, Debug, PartialEq, Eq)]
pub enum Entry {
    /// A step of a task, by its number; 0 is the main program.
    Step(u32, u32),
    /// A stage of an operation is performed.
    Touch(u32, OpName, Stage),
    /// The main task takes its new team and goes past a split.
    Part(u32),
    /// The main task goes past the end of a finish.
    Leave(u32),
    /// The image hears that a message which it sent was taken.
    Ack(u32, OpName, Stage),
    /// The image takes the answer to a blocking operation.
    Return(u32, OpName),
    /// The image, of rank 0, takes the colour and key of this member for a split.
    Offer(u32, u32),
    /// The image gives its four numbers to the present wave of a finish.
    Contribute(u32, Four),
    /// The image takes the sum of this child's part of the team.
    Relay(u32, u32),
    /// The image takes the total of the wave.
    Result(u32, i64),
}

impl Entry {
    ghost use Rattle.caf_journal.specs.Struck.{is_choice};

    /// Whether the entry is a choice of the run, and none of the protocol.
    pub fn is_choice(&self) -> bool
        ensures { result ≡ is_choice self.now }
    {
        matches!(
            self,
            Entry::Step(..) | Entry::Touch(..) | Entry::Part(..) | Entry::Leave(..)
        )
    }
}
