//! From the bytes of a program to its tokens.
//!
//! [`tokens`] answers the tokens of a text, or its first fault. What it must answer is defined over whole lines and
//! spellings in `specs/`: `Lines` cuts the text, `Spelling` says what stands at a place of a line, and `Tokens` puts
//! the lines together.
#![tactic(auto)]

mod fault;
mod law;
mod line;
mod piece;
mod table;
mod text;
mod token;

pub use fault::LexFault;
pub use law::{each_text_has_tokens_or_a_fault, ends_are_placed, pieces_are_longest_spellings};
pub use text::tokens;
pub use token::{Sign, Token, What, Word};
