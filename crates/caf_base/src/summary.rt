use crate::{Sequence, Text, Trap};

/// How a run stands.
#[derive(Clone, Copy, Debug, PartialEq, Eq)]
pub enum Ending {
    /// Each image has left the program's finish.
    Done,
    /// An image has a trap.
    Trapped,
    /// No image can go on, and some hasn't left the program's finish.
    Stuck,
    /// Some image can go on.
    Going,
}

/// What one image has printed, and its trap, if it has one.
#[derive(Debug, Drop)]
pub struct ImageSummary {
    pub lines: Sequence<Text>,
    pub trap: Option<Trap>,
}

/// What a report tells: the images in the order of their numbers, and how the run stands.
#[derive(Debug, Drop)]
pub struct Summary {
    pub images: Sequence<ImageSummary>,
    pub ending: Ending,
}
