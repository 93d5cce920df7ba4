use crate::expr::Expr;
use crate::stmt::Stmt;
use caf_base::Text;
use sqlite_items::Items;

/// The kind of a value.
#[derive(Clone, Copy, Debug, PartialEq, Eq)]
pub enum ValueKind {
    Integer,
    Logical,
}

/// Whether a subroutine may change its dummy.
#[derive(Clone, Copy, Debug, PartialEq, Eq)]
pub enum Intent {
    In,
    InOut,
}

/// The bounds of an array, `lower:upper` or `upper`.
#[derive(Drop)]
pub struct Bounds {
    pub lower: Option<Expr>,
    pub upper: Expr,
}

/// A declared name, with the bounds that make it an array and the `[*]` that makes it a coarray.
#[derive(Drop)]
pub struct Item {
    pub name: Text,
    pub bounds: Option<Bounds>,
    pub shared: bool,
}

/// A declaration. Its line is that of its first token, from 1. It declares at least one name.
#[derive(Drop)]
pub enum Decl {
    /// `kind, parameter :: name = value, ..`
    Parameters {
        line: u32,
        kind: ValueKind,
        values: Items<(Text, Expr)>,
    },
    /// `kind, copointer :: name(:), ..`
    Copointers {
        line: u32,
        kind: ValueKind,
        names: Items<Text>,
    },
    /// `kind, intent(..) :: name, ..`
    Dummies {
        line: u32,
        kind: ValueKind,
        intent: Intent,
        names: Items<Text>,
    },
    /// `kind :: item, ..`
    Variables {
        line: u32,
        kind: ValueKind,
        items: Items<Item>,
    },
    /// `event :: item, ..`
    Events {
        line: u32,
        items: Items<Item>,
    },
    /// `team :: name, ..`
    Teams {
        line: u32,
        names: Items<Text>,
    },
}

/// A subroutine, with the line of its first token, from 1.
#[derive(Drop)]
pub struct Sub {
    pub line: u32,
    pub name: Text,
    pub dummies: Items<Text>,
    pub declarations: Items<Decl>,
    pub body: Items<Stmt>,
}

/// A program: its main part, and its subroutines.
#[derive(Drop)]
pub struct Unit {
    pub name: Text,
    pub declarations: Items<Decl>,
    pub body: Items<Stmt>,
    pub subs: Items<Sub>,
}
