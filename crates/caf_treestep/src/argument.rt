use crate::Target;

/// An argument of a call or a ship.
#[derive(Clone, Copy, Debug)]
pub struct Argument {
    pub value: i64,
    /// Where its dummy is copied out to, for `intent(inout)`.
    pub out: Option<Target>,
}
