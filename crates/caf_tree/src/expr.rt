ghost use Rattle.std.specs.Prelude.{◌≡◌};
ghost use Rattle.caf_tree.specs.Expressions.{level_of};

use caf_base::Text;
use sqlite_items::{Boxed, Items};

/// An operator of a chain. Those of one level follow one another and group from the left.
#[derive(Clone, Copy, Debug, PartialEq, Eq)]
pub enum Operator {
    Multiply,
    Divide,
    Add,
    Subtract,
    And,
    Or,
    Equivalent,
    NotEquivalent,
}

/// The levels of operators. Those of the first bind tightest.
#[derive(Clone, Copy, Debug, PartialEq, Eq)]
pub enum Level {
    Products,
    Sums,
    Conjunctions,
    Disjunctions,
    Equivalences,
}

impl Operator {
    /// The level of an operator.
    pub fn level(self) -> Level
        ensures { result ≡ level_of self }
    {
        match self {
            Operator::Multiply | Operator::Divide => Level::Products,
            Operator::Add | Operator::Subtract => Level::Sums,
            Operator::And => Level::Conjunctions,
            Operator::Or => Level::Disjunctions,
            Operator::Equivalent | Operator::NotEquivalent => Level::Equivalences,
        }
    }
}

/// A relation between two sums. Relations don't chain.
#[derive(Clone, Copy, Debug, PartialEq, Eq)]
pub enum Relation {
    Equal,
    NotEqual,
    Less,
    LessEqual,
    Greater,
    GreaterEqual,
}

/// The sign in front of a sum. It applies to the first term.
#[derive(Clone, Copy, Debug, PartialEq, Eq)]
pub enum FrontSign {
    Plus,
    Minus,
}

/// A team: `team_world`, which is meant too where none is written, or one with a name.
#[derive(Drop)]
pub enum Team {
    World,
    Named(Text),
}

/// A place `[rank @ team]`.
#[derive(Drop)]
pub struct Place<E> {
    pub rank: E,
    pub team: Team,
}

/// `name(subscript)[place]`, where subscript and place may be missing: a variable, or an event.
#[derive(Drop)]
pub struct Variable<E> {
    pub name: Text,
    pub subscript: Option<E>,
    pub place: Option<Place<E>>,
}

/// An expression, as it is written.
#[derive(Drop)]
pub enum Expr {
    Number(i64),
    Truth(bool),
    Parenthesized(Boxed<Expr>),
    Variable(Variable<Boxed<Expr>>),
    Mod(Boxed<Expr>, Boxed<Expr>),
    Abs(Boxed<Expr>),
    /// The first two, and those that follow.
    Min(Boxed<Expr>, Boxed<Expr>, Items<Expr>),
    /// The first two, and those that follow.
    Max(Boxed<Expr>, Boxed<Expr>, Items<Expr>),
    TeamRank(Team),
    TeamSize(Team),
    /// A sign and the first term of a sum.
    Signed(FrontSign, Boxed<Expr>),
    /// A first operand, and the pairs of operator and operand that follow it on one level, of which there are some.
    /// They group from the left, so that no tree is deeper than its text is nested.
    Chain(Boxed<Expr>, Items<(Operator, Expr)>),
    Compare(Boxed<Expr>, Relation, Boxed<Expr>),
    Not(Boxed<Expr>),
}
