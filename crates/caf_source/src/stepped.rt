/// Whether a choice was made.
#[derive(Clone, Copy, Debug, PartialEq, Eq)]
pub enum Stepped {
    Done,
    /// The choice isn't defined, and nothing changed.
    NotEnabled,
}
