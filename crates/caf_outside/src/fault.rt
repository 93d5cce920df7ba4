ghost use Rattle.std.specs.Prelude.{◌≡◌};
ghost use Rattle.caf_outside.specs.declared.fault.LoadFail.TheVariants.{Memory};

use std::alloc::{AllocError, AllocFailed};
use thiserror::Error;

/// The outside met a fault, and counts it.
#[derive(Clone, Copy, Debug, PartialEq, Eq, Error)]
#[error("the outside met a fault")]
pub struct Failed;

/// Why a text was not loaded.
#[derive(Clone, Copy, Debug, PartialEq, Eq, Error)]
pub enum LoadFail {
    /// The name isn't there, or reading it met a fault, which is counted under the name.
    #[error("cannot be read")]
    Failed,
    /// The text is longer than the limit that was given.
    #[error("too long")]
    TooLong,
    #[error("out of memory")]
    Memory,
}

impl From<AllocError> for LoadFail {
    ghost from_gives = { λ _ e. e ≡ Memory };

    fn from(_: AllocError) -> Self {
        LoadFail::Memory
    }
}

impl<T: Drop> From<AllocFailed<T>> for LoadFail {
    ghost from_gives = { λ _ e. e ≡ Memory };

    fn from(_: AllocFailed<T>) -> Self {
        LoadFail::Memory
    }
}

impl From<caf_base::Memory> for LoadFail {
    ghost from_gives = { λ _ e. e ≡ Memory };

    fn from(_: caf_base::Memory) -> Self {
        LoadFail::Memory
    }
}
