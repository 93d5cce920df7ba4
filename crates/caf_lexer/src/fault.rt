ghost use Rattle.std.specs.Prelude.{◌≡◌};
ghost use Rattle.caf_lexer.specs.Tokens.{fault_at};

use caf_base::Memory;
use thiserror::Error;

/// The first fault of a text, with the number of its line, from 1.
#[derive(Clone, Copy, Debug, PartialEq, Eq, Error)]
pub enum LexFault {
    /// A byte above 127 outside a comment.
    #[error("line {0}: not ascii")]
    NotAscii(u32),
    /// A line of more than 132 bytes, comments included.
    #[error("line {0}: long line")]
    LongLine(u32),
    /// Bytes that are no token, a name of more than 63 bytes, a text that isn't closed in time, or a `&` at a wrong
    /// place.
    #[error("line {0}: bad token")]
    BadToken(u32),
    /// A number above 9,223,372,036,854,775,807.
    #[error("line {0}: bad number")]
    BadNumber(u32),
    /// The text ends where a statement is to go on. The line is the last one.
    #[error("line {0}: open continuation")]
    OpenContinuation(u32),
    #[error("out of memory")]
    Memory,
}

/// What is wrong at a place of a line.
#[derive(Clone, Copy, Debug, PartialEq, Eq)]
pub enum Mistake {
    NotAscii,
    BadToken,
    BadNumber,
}

impl Mistake {
    pub fn at(self, line: u32) -> LexFault
        ensures { result ≡ fault_at line self }
    {
        match self {
            Mistake::NotAscii => LexFault::NotAscii(line),
            Mistake::BadToken => LexFault::BadToken(line),
            Mistake::BadNumber => LexFault::BadNumber(line),
        }
    }
}

impl From<Memory> for LexFault {
    ghost use Rattle.caf_lexer.specs.declared.fault.LexFault.TheVariants as fault;

    ghost from_gives = { λ _ f. f ≡ fault.Memory };

    fn from(_: Memory) -> LexFault {
        LexFault::Memory
    }
}
