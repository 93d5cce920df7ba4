//! The text of a program as a tree.
//!
//! [`print_unit`] answers the text of a unit: one statement a line, with one blank between tokens. The text is defined
//! in `caf_tree`. Each line is first collected as a list of tokens, and then printed.
//!
//! That the text is read as the same unit again is proved in steps: `proofs/Told`, `Expressions` and `Parts` say that
//! the tokens that a form is printed with spell it again, `Shows`, `Blocks`, `Branched` and `Programs` the same up to
//! the lines, `Lexed` and `Rows` that the bytes that are printed have these tokens, and `Found` that all tokens of a
//! text can be printed so.
#![tactic(auto)]

mod declaration;
mod expression;
mod law;
mod line;
mod piece;
mod simple;
mod statement;
mod unit;

pub use law::a_print_is_read_again;
pub use unit::print_unit;
