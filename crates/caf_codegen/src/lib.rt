//! Code for programs.
//!
//! `specs/Agreement.antt` says when a task of a code does what a task over trees does, and `specs/Compiled.antt` when a
//! code does what a program says. `specs/StmtCode.antt` and `specs/ProgramCode.antt` have the instructions.
#![tactic(auto)]

mod ask;
mod assign;
mod call;
mod copy;
mod emit;
mod event;
mod law;
mod place;
mod print;
mod program;
mod section;
mod ship;
mod split;
mod statement;

pub use law::made_codes_do_what_programs_say;
pub use program::compile;
