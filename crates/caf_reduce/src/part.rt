/// What a rank gives to the sum that another gathers.
#[derive(Clone, Copy, Debug, PartialEq, Eq)]
pub enum Part {
    /// Nothing: its parent in the tree is another rank.
    Outside,
    /// A part that isn't there yet.
    Missing,
    /// The part that it gave.
    Present(i64),
}

/// What is known of a sum after a part was given.
#[derive(Clone, Copy, Debug, PartialEq, Eq)]
pub enum Given {
    /// Some part is missing.
    Waiting,
    /// Each part is there, and this is their sum.
    Whole(i64),
}
