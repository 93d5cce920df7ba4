//! From tokens to the tree of an expression.
//!
//! [`expr`] takes the longest expression at a cursor. The rules of the grammar stand in `grammar`, each with a reader of
//! `specs/` that it equals; that these readers read the forms of `caf_tree` is proved in `proofs/`.
#![tactic(auto)]

mod cursor;
mod fault;
pub mod grammar;
mod tokens;

pub use cursor::{Cursor, MOST_LEVELS, expr};
pub use fault::ParseFault;
pub use tokens::Tokens;
