use crate::StmtR;
use caf_base::{Object, Sequence, Text};
use sqlite_items::Items;

/// The kind of a value.
#[derive(Clone, Copy, Debug, PartialEq, Eq)]
pub enum ValueKind {
    Integer,
    Logical,
}

/// Whether a subroutine may change its dummy.
#[derive(Clone, Copy, Debug, PartialEq, Eq)]
pub enum Intent {
    In,
    InOut,
}

/// A dummy of a subroutine.
#[derive(Debug, Drop)]
pub struct DummyR {
    pub name: Text,
    pub kind: ValueKind,
    pub intent: Intent,
}

/// A subroutine. The cells of its frame are its dummies and then its locals.
#[derive(Drop)]
pub struct SubR {
    pub name: Text,
    pub dummies: Sequence<DummyR>,
    pub locals: Sequence<ValueKind>,
    pub body: Items<StmtR>,
}

/// A program. Objects and subroutines are numbered from 0 in the order of their declarations.
#[derive(Drop)]
pub struct Program {
    pub objects: Sequence<Object>,
    /// The name of each object.
    pub names: Sequence<Text>,
    pub subs: Sequence<SubR>,
    pub body: Items<StmtR>,
}
