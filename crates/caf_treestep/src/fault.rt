use caf_base::{Memory, Trap};
use caf_memory::LineFault;
use std::alloc::AllocError;

/// Why something was not evaluated.
#[derive(Clone, Copy, Debug)]
pub enum Fault {
    Trap(Trap),
    Memory,
}

impl From<Trap> for Fault {
    ghost use Rattle.std.specs.Prelude.{◌≡◌};
    ghost use Rattle.caf_treestep.specs.declared.fault.Fault.TheVariants as fault;

    ghost from_gives = { λ trap f. f ≡ fault.Trap trap };

    fn from(trap: Trap) -> Self {
        Fault::Trap(trap)
    }
}

impl From<Memory> for Fault {
    ghost use Rattle.std.specs.Prelude.{◌≡◌};
    ghost use Rattle.caf_treestep.specs.declared.fault.Fault.TheVariants as fault;

    ghost from_gives = { λ _ f. f ≡ fault.Memory };

    fn from(_: Memory) -> Self {
        Fault::Memory
    }
}

impl From<AllocError> for Fault {
    ghost use Rattle.std.specs.Prelude.{◌≡◌};
    ghost use Rattle.caf_treestep.specs.declared.fault.Fault.TheVariants as fault;

    ghost from_gives = { λ _ f. f ≡ fault.Memory };

    fn from(_: AllocError) -> Self {
        Fault::Memory
    }
}

impl From<LineFault> for Fault {
    ghost use Rattle.std.specs.Prelude.{◌≡◌};
    ghost use Rattle.caf_treestep.specs.Finds.{fault_of};

    ghost from_gives = { λ line f. f ≡ fault_of line };

    fn from(fault: LineFault) -> Self {
        match fault {
            LineFault::Trap(trap) => Fault::Trap(trap),
            LineFault::Memory => Fault::Memory,
        }
    }
}
