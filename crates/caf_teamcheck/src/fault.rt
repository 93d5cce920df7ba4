ghost use Rattle.std.specs.Prelude.{◌≡◌};

use caf_base::{Memory, Text};
use thiserror::Error;

/// What a shipped subroutine may not do.
#[derive(Debug, Drop, Error)]
pub enum ShipFault {
    /// A `finish` or `team_split` stands on the line, in the subroutine of the name, which is shipped, or reached by
    /// calls from one that is.
    #[error("line {0}: a finish or a team_split in a shipped subroutine")]
    CollectiveInShip(u32, Text),
    /// A `spawn` stands on the line, of a subroutine whose dummy of the name is `intent(inout)`.
    #[error("line {0}: a spawn of a subroutine with a dummy that is inout")]
    InoutInShip(u32, Text),
    #[error("out of memory")]
    Memory,
}

impl From<Memory> for ShipFault {
    ghost use Rattle.caf_teamcheck.specs.declared.fault.ShipFault.TheVariants as fault;

    ghost from_gives = { λ _ f. f ≡ fault.Memory };

    fn from(_: Memory) -> ShipFault {
        ShipFault::Memory
    }
}
