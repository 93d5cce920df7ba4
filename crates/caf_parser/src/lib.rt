//! From tokens to the tree of a program.
//!
//! Each rule is a function that equals a reader of `specs/`; that these readers read the forms of `caf_tree` is proved
//! in `proofs/`.
#![tactic(auto)]

mod block;
mod declaration;
mod law;
mod program;

pub use law::tokens_spell_at_most_one_unit;
pub use program::unit;
