use crate::Memory;
use caf_base::Trap;
use thiserror::Error;

/// Why a section was not read.
#[derive(Clone, Copy, Debug, PartialEq, Eq, Error)]
pub enum SectionFault {
    /// `Index` where the section leaves its object's bounds, or `Section` where it is too long.
    #[error("the section can't be read")]
    Trap(Trap),
    #[error("out of memory")]
    Memory,
}

impl From<Memory> for SectionFault {
    fn from(_: Memory) -> Self {
        SectionFault::Memory
    }
}
