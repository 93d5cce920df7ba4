/// What an audit of a list of finish events finds.
#[derive(Clone, Copy, Debug, PartialEq, Eq)]
pub enum Audit {
    /// The event at this place, counted from 0, is the first that breaks its rule.
    Broken(usize),
    /// Each event keeps its rule, and so many messages are sent and not completed.
    Kept { running: u32 },
}
