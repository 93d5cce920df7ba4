//! An image's memory: its objects' elements, posts, teams and copointers, and the lines that it printed.
//!
//! Contracts see a memory as plain data. Where an index leaves its bounds a call answers the trap, and changes nothing.
#![tactic(auto)]

mod bounds;
mod line_fault;
mod memory;
mod orders;
mod places;
mod rows;
mod section_fault;
mod span;
mod start;

pub use caf_base::Memory;
pub use line_fault::LineFault;
pub use memory::ImageMemory;
pub use section_fault::SectionFault;
