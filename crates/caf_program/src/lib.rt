//! Programs with slots in place of names, and the meaning of their expressions.
//!
//! A variable of the main program is the place of its object, a dummy or a local is a cell of its frame, and a
//! parameter is its value. The rules that such a program keeps stand in `specs/`.
#![tactic(auto)]

mod accepted;
mod evaluator;
mod expr;
mod parts;
mod program;
mod read;
mod stmt;
mod view;

pub use accepted::Accepted;
pub use evaluator::{eval, eval_from, skip_held};
pub use expr::{ExprR, PlaceR, TeamR};
pub use parts::{
    ActualR, CopyEventR, EventR, OwnEventR, PrintR, RangeR, RegionR, SectionR, VariableR,
};
pub use program::{DummyR, Intent, Program, SubR, ValueKind};
pub use read::each_held_value_has_its_read;
pub use stmt::{LoopVariableR, StmtR, copy_block};
pub use view::View;
