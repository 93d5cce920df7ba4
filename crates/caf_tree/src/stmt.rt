use crate::expr::{Expr, Place, Team, Variable};
use caf_base::Text;
use sqlite_items::{Boxed, Items};

/// What stands behind the name of a section.
#[derive(Drop)]
pub enum Range {
    /// Nothing: the whole variable.
    Whole,
    /// `(index)`
    Element(Expr),
    /// `(first:last)`, of which each may be missing.
    Between(Option<Expr>, Option<Expr>),
}

/// `name(range)[place]`.
#[derive(Drop)]
pub struct Section {
    pub name: Text,
    pub range: Range,
    pub place: Option<Place<Expr>>,
}

/// An event of this image: `name(subscript)`, where the subscript may be missing.
#[derive(Drop)]
pub struct OwnEvent {
    pub name: Text,
    pub subscript: Option<Expr>,
}

/// One item of a `print`.
#[derive(Drop)]
pub enum Printed {
    Value(Expr),
    Text(Text),
}

/// An event of an asynchronous copy.
#[derive(Drop)]
pub enum Key {
    Pre(OwnEvent),
    Srce(Variable<Boxed<Expr>>),
    Deste(Variable<Boxed<Expr>>),
}

/// The accesses that may pass a fence.
#[derive(Clone, Copy, Debug, PartialEq, Eq)]
pub enum FenceClass {
    Read,
    Write,
    Any,
}

/// What may pass a fence, downward or upward.
#[derive(Clone, Copy, Debug, PartialEq, Eq)]
pub enum Fence {
    Down(FenceClass),
    Up(FenceClass),
}

/// A statement without a block.
#[derive(Drop)]
pub enum Simple {
    /// `target = value`
    Assign {
        target: Variable<Boxed<Expr>>,
        value: Expr,
    },
    /// `copointer => section`
    Aim {
        copointer: Text,
        section: Section,
    },
    /// `print *, ITEM, ..`
    Print {
        items: Items<Printed>,
    },
    /// `call subroutine(argument, ..)`
    Call {
        subroutine: Text,
        arguments: Items<Expr>,
    },
    /// `spawn(done) subroutine(argument, ..)[place]`, where the event may be missing.
    Spawn {
        done: Option<Variable<Boxed<Expr>>>,
        subroutine: Text,
        arguments: Items<Expr>,
        place: Place<Expr>,
    },
    /// `event_notify(event)`
    Notify {
        event: Variable<Boxed<Expr>>,
    },
    /// `event_wait(event)`
    Wait {
        event: OwnEvent,
    },
    /// `copy_async(destination, source, key, ..)`, with the keys in the order in which they are written, each at most
    /// once.
    Copy {
        destination: Section,
        source: Section,
        keys: Items<Key>,
    },
    /// `cofence(fence, ..)`, with `down` and `up` in the order in which they are written, each at most once.
    Cofence {
        fences: Items<Fence>,
    },
    /// `team_split(team, colour, key, new)`
    Split {
        team: Team,
        colour: Expr,
        key: Expr,
        /// The name of what gets the new team.
        new: Text,
    },
}

/// A statement. Its line is that of its first token, from 1.
#[derive(Drop)]
pub enum Stmt {
    Simple {
        line: u32,
        action: Simple,
    },
    /// `if (condition) action`
    IfLine {
        line: u32,
        condition: Expr,
        /// The line of the first token of the action.
        action_line: u32,
        action: Simple,
    },
    /// An `else if` is a statement that is the whole `otherwise`, and its line is that of its `else` or `elseif`.
    If {
        line: u32,
        condition: Expr,
        block: Items<Stmt>,
        otherwise: Items<Stmt>,
    },
    /// `do variable = first, last, step`
    Do {
        line: u32,
        variable: Text,
        first: Expr,
        last: Expr,
        step: Option<Expr>,
        body: Items<Stmt>,
    },
    /// `do while (condition)`
    While {
        line: u32,
        condition: Expr,
        body: Items<Stmt>,
    },
    /// `finish (team)`
    Finish {
        line: u32,
        team: Team,
        body: Items<Stmt>,
    },
}
