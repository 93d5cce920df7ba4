//! Orders carried through the calls that do all: words, reports, faults of the outside, and long runs.
#![tactic(auto)]

#[cfg(test)]
mod orders;
