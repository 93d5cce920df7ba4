//! The virtual machine run step by step over listings of each instruction, and an image's memory at and past its bounds.
#![tactic(auto)]

#[cfg(test)]
mod memory;
#[cfg(test)]
mod steps;
#[cfg(test)]
mod traps;
