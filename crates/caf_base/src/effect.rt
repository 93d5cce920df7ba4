use crate::{EventAt, OpSpec, Team, Trap};

/// What a task waits for.
#[derive(Clone, Copy, Debug, PartialEq, Eq)]
pub enum Need {
    /// A post of the event with this object and index at its own image.
    Event(u32, i64),
    /// Each implicit copy that the task began is locally complete.
    Cofence,
    /// The end of a finish may be passed.
    Finish,
    /// The new team of a split.
    Split,
    /// The answer to a blocking operation.
    Operation,
}

/// What one step of a task does beyond its own image's memory.
#[derive(Debug, Drop, PartialEq, Eq)]
pub enum Effect {
    /// Nothing.
    Ran,
    /// It was the last step of a shipped task, whose ship carries this event.
    Ends(Option<EventAt>),
    /// It begins an operation.
    Begins(OpSpec),
    /// It enters the next finish of the team.
    Enters(Team),
    /// It arrives at the next split of the team.
    Arrives {
        team: Team,
        colour: i64,
        key: i64,
        /// The place of the object that gets the new team, from 0.
        new: u32,
    },
    /// It can't go on, and nothing changes.
    Blocks(Need),
    /// It stops its image.
    Traps(Trap),
}
