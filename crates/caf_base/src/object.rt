/// What a declared name of the main program holds.
#[derive(Clone, Copy, Debug, PartialEq, Eq)]
pub enum Kind {
    Integer,
    Logical,
    Event,
    Team,
    /// A copointer to a section of an integer coarray.
    CoInteger,
    /// A copointer to a section of a logical coarray.
    CoLogical,
}

/// A declared object of the main program. Each image has its own copy.
#[derive(Clone, Copy, Debug, PartialEq, Eq)]
pub struct Object {
    pub kind: Kind,
    /// The least index. A scalar is read at index 1.
    pub lower: i64,
    /// The number of elements, 1 for a scalar.
    pub extent: u32,
    /// Whether other images may name it, as a coarray.
    pub shared: bool,
}
