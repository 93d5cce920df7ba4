use crate::Memory;
use caf_base::Trap;
use thiserror::Error;

/// Why a line was not added.
#[derive(Clone, Copy, Debug, PartialEq, Eq, Error)]
pub enum LineFault {
    /// `Output`: the image's output would pass 65,536 bytes.
    #[error("the output is full")]
    Trap(Trap),
    #[error("out of memory")]
    Memory,
}

impl From<Memory> for LineFault {
    fn from(_: Memory) -> Self {
        LineFault::Memory
    }
}
