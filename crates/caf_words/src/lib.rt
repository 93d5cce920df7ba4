//! What the words of a command line ask for.
#![tactic(auto)]

mod asked;
mod fault;
mod number;
mod order;
mod read;
mod sort;

pub use asked::{Asked, Order};
pub use fault::WordFault;
pub use read::read_words;
