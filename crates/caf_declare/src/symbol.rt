use caf_program::{Intent, ValueKind};

/// The value of a parameter.
#[derive(Clone, Copy, Debug, PartialEq, Eq)]
pub enum Constant {
    Integer(i64),
    Logical(bool),
}

/// What a name stands for. Objects, frame cells and subroutines are given by their places, from 0.
#[derive(Clone, Copy, Debug, PartialEq, Eq)]
pub enum Symbol {
    /// A parameter.
    Constant(Constant),
    /// A dummy or a local, which may be assigned unless it is an `intent(in)` dummy.
    Local {
        kind: ValueKind,
        cell: u32,
        writable: bool,
    },
    Scalar {
        kind: ValueKind,
        object: u32,
        shared: bool,
    },
    Array {
        kind: ValueKind,
        object: u32,
        shared: bool,
    },
    Copointer {
        kind: ValueKind,
        object: u32,
    },
    /// An event, which takes a subscript where it is an array.
    Event {
        object: u32,
        array: bool,
        shared: bool,
    },
    Team(u32),
    Subroutine(u32),
}

/// What a subroutine takes for a dummy.
#[derive(Clone, Copy, Debug, PartialEq, Eq)]
pub struct Taken {
    pub kind: ValueKind,
    pub intent: Intent,
}
