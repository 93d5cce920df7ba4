ghost use Rattle.std.specs.Prelude.{◌≡◌};
ghost use Rattle.caf_journal.specs.declared.fault.TraceFault.TheVariants.{Memory};

use std::alloc::{AllocError, AllocFailed};
use thiserror::Error;

/// Why a trace can't be read.
#[derive(Clone, Copy, Debug, PartialEq, Eq, Error)]
pub enum TraceFault {
    /// The first line, from 1, that isn't one of a trace.
    #[error("line {0} is not a line of a trace")]
    BadLine(u32),
    /// There was no memory for the journal.
    #[error("out of memory")]
    Memory,
}

impl From<AllocError> for TraceFault {
    ghost from_gives = { λ _ e. e ≡ Memory };

    fn from(_: AllocError) -> Self {
        TraceFault::Memory
    }
}

impl<T: Drop> From<AllocFailed<T>> for TraceFault {
    ghost from_gives = { λ _ e. e ≡ Memory };

    fn from(_: AllocFailed<T>) -> Self {
        TraceFault::Memory
    }
}
