/// The bounds of a `do`.
#[derive(Clone, Copy, Debug)]
pub struct Bounds {
    pub first: i64,
    pub step: i64,
    /// The iteration count, which may be 2^64.
    pub count: u128,
}
