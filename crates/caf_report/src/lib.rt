//! The report of a run: the lines that its images printed, their traps, and how it stands.
#![tactic(auto)]

mod print;

pub use print::report;

#[cfg(test)]
mod tests;
