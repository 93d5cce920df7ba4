//! A program as it is written: units, statements and expressions.
//!
//! Which tokens spell a unit is told in `specs/` by a relation with one case for each form of the grammar: `Forms` has
//! the ways in which forms are put together, `Expressions`, `Statements` and `Units` the grammar, `Depth` how deep a
//! unit nests, `Said` the tokens that a unit is printed with, `Text` its text, and `Unlined` which units are the
//! same up to the lines.
#![tactic(auto)]

pub mod expr;
mod law;
pub mod stmt;
pub mod unit;

pub use law::a_unit_needs_as_many_levels_as_it_is_deep;
