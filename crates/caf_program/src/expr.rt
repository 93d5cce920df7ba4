ghost use Rattle.std.specs.Prelude.{◌≡◌, IfOk};

use caf_base::{BinaryOperator, Memory, UnaryOperator};
use sqlite_items::{Boxed, Items};
use std::alloc::Global;

/// A team: `team_world`, or the one that an object of the main program holds.
#[derive(Clone, Copy, Debug, PartialEq, Eq)]
pub enum TeamR {
    World,
    Object(u32),
}

/// A place `[rank @ team]`: the image that has this rank in the team.
#[derive(Drop)]
pub struct PlaceR<E> {
    pub rank: E,
    pub team: TeamR,
}

/// An expression. Parentheses and a front `+` leave no trace, and a parameter is its value. A scalar is the element
/// at index 1, so a coindexed scalar has the subscript 1. Objects and frame cells are given by their places, from 0.
#[derive(Drop)]
pub enum ExprR {
    Number(i64),
    Truth(bool),
    /// A scalar of the main program, at this image.
    Scalar(u32),
    /// A dummy or local: a cell of the task's frame.
    Local(u32),
    /// An element of an array of the main program, at this image.
    Element(u32, Boxed<ExprR>),
    /// An element of a coarray at the image of the place.
    Coindexed {
        object: u32,
        index: Boxed<ExprR>,
        place: PlaceR<Boxed<ExprR>>,
    },
    /// An element of the section that a copointer aims at, counted from 1.
    Pointed(u32, Boxed<ExprR>),
    /// `.not.`, a front `-`, or `abs`.
    Unary(UnaryOperator, Boxed<ExprR>),
    /// A first operand, and from the left each operator with its further operand: the operators of one level that
    /// follow one another, a relation, `mod`, `min` or `max`.
    Chain(Boxed<ExprR>, Items<(BinaryOperator, ExprR)>),
    /// `team_rank`.
    Rank(TeamR),
    /// `team_size`.
    Size(TeamR),
}

impl PlaceR<ExprR> {
    /// The same place again.
    pub fn copy(&self, alloc: Global) -> Result<PlaceR<ExprR>, Memory>
        ensures { IfOk result (λ place. place ≡ self.now) }
    {
        let rank = self.rank.copy(alloc)?;
        Ok(PlaceR {
            rank,
            team: self.team,
        })
    }
}

impl ExprR {
    /// The same expression again.
    pub fn copy(&self, alloc: Global) -> Result<ExprR, Memory>
        ensures { IfOk result (λ e. e ≡ self.now) }
    {
        match self {
            ExprR::Number(number) => Ok(ExprR::Number(*number)),
            ExprR::Truth(holds) => Ok(ExprR::Truth(*holds)),
            ExprR::Scalar(object) => Ok(ExprR::Scalar(*object)),
            ExprR::Local(cell) => Ok(ExprR::Local(*cell)),
            ExprR::Element(object, index) => {
                let index = index.get().copy(alloc)?;
                Ok(ExprR::Element(*object, Boxed::new(alloc, index)?))
            }
            ExprR::Coindexed {
                object,
                index,
                place,
            } => {
                let index = index.get().copy(alloc)?;
                let index = Boxed::new(alloc, index)?;
                let rank = place.rank.get().copy(alloc)?;
                let rank = Boxed::new(alloc, rank)?;
                Ok(ExprR::Coindexed {
                    object: *object,
                    index,
                    place: PlaceR {
                        rank,
                        team: place.team,
                    },
                })
            }
            ExprR::Pointed(copointer, index) => {
                let index = index.get().copy(alloc)?;
                Ok(ExprR::Pointed(*copointer, Boxed::new(alloc, index)?))
            }
            ExprR::Unary(operator, operand) => {
                let operand = operand.get().copy(alloc)?;
                Ok(ExprR::Unary(*operator, Boxed::new(alloc, operand)?))
            }
            ExprR::Chain(first, rest) => {
                let first = first.get().copy(alloc)?;
                let first = Boxed::new(alloc, first)?;
                let mut copies = Items::new(alloc);
                for (operator, operand) in rest.as_slice() {
                    let operand = operand.copy(alloc)?;
                    copies.push((*operator, operand))?;
                }
                Ok(ExprR::Chain(first, copies))
            }
            ExprR::Rank(team) => Ok(ExprR::Rank(*team)),
            ExprR::Size(team) => Ok(ExprR::Size(*team)),
        }
    }
}
