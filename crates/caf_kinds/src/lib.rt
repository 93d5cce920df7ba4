//! From names to slots: what a program means, or the first rule on names and kinds that it breaks.
//!
//! The rules stand in `specs/`, a word for each: what a name, an expression, a statement, a declaration and a whole unit
//! mean in their part of the program is an answer, the first broken rule in written order or what stands in the
//! program.
#![tactic(auto)]

mod action;
mod argument;
mod event;
mod expr;
mod fault;
mod law;
mod scope;
mod section;
mod statement;
mod unit;
mod written;

pub use fault::KindFault;
pub use law::{a_unit_means_one_program, what_is_meant_keeps_the_rules};
pub use unit::resolve;
