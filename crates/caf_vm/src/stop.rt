use crate::Memory;
use caf_base::Trap;

// Why an instruction didn't lead to the next.
#[derive(Clone, Copy)]
pub enum Stop {
    Trap(Trap),
    Memory,
}

impl From<Memory> for Stop {
    ghost use Rattle.std.specs.Prelude.{◌≡◌};
    ghost use Rattle.caf_vm.specs.declared.stop.Stop.TheVariants as stop;

    ghost from_gives = { λ _ made. made ≡ stop.Memory };

    fn from(_: Memory) -> Self {
        Stop::Memory
    }
}
