ghost use Rattle.std.specs.Prelude.{◌≡◌};

use caf_base::Memory;
use std::alloc::AllocError;
use thiserror::Error;

/// Why no tree is answered, with the number of a line, from 1.
#[derive(Clone, Copy, Debug, PartialEq, Eq, Error)]
pub enum ParseFault {
    /// The tokens fit no form. The line is that of the first token that doesn't fit.
    #[error("line {0}: syntax")]
    Syntax(u32),
    /// More than 100 blocks, parentheses and brackets stand open at one place of this line.
    #[error("line {0}: deep")]
    Deep(u32),
    #[error("out of memory")]
    Memory,
}

impl From<Memory> for ParseFault {
    ghost use Rattle.caf_exprparse.specs.declared.fault.ParseFault.TheVariants as fault;

    ghost from_gives = { λ _ f. f ≡ fault.Memory };

    fn from(_: Memory) -> ParseFault {
        ParseFault::Memory
    }
}

impl From<AllocError> for ParseFault {
    ghost use Rattle.caf_exprparse.specs.declared.fault.ParseFault.TheVariants as fault;

    ghost from_gives = { λ _ f. f ≡ fault.Memory };

    fn from(_: AllocError) -> ParseFault {
        ParseFault::Memory
    }
}
