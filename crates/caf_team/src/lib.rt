//! Teams of images: the ranks of their members.
#![tactic(auto)]

mod rank;

pub use rank::rank_of;

#[cfg(test)]
mod tests;
