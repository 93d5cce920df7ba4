use caf_base::Four;

/// What happens in one finish, told by the ranks of its team. Messages are numbered.
#[derive(Clone, Copy, Debug, PartialEq, Eq)]
pub enum FinishEvent {
    /// The rank comes to the end of the finish, and stands there from then on.
    Stand(u32),
    /// A message is sent: by the rank's own program before it stands, or by what the message `by` has begun there.
    Send {
        message: u32,
        origin: u32,
        target: u32,
        by: Option<u32>,
    },
    /// The target takes the message.
    Take(u32),
    /// The target has done all that the message asks for.
    Complete(u32),
    /// The origin hears that the message was taken.
    Ack(u32),
    /// The rank contributes its four even counts to its present wave.
    Contribute(u32, Four),
    /// The first rank takes what the second, its child in the tree of ranks, gives to the sum of the wave.
    Relay(u32, u32),
    /// The rank takes the sum of its present wave, and begins the next.
    Result(u32, i64),
    /// The rank leaves the finish.
    Leave(u32),
}
