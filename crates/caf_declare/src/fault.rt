ghost use Rattle.std.specs.Prelude.{◌≡◌};
ghost use Rattle.caf_declare.specs.Names.{breaks, IsFault};

use caf_base::{Memory, Text};
use std::alloc::{AllocError, Global};

/// The rules on names and kinds.
#[derive(Clone, Copy, Debug, PartialEq, Eq)]
pub enum Rule {
    Undeclared,
    Twice,
    WrongKind,
    WrongCount,
    NotCoarray,
    DoVariable,
    ReadOnly,
    BadConstant,
    TooManyCells,
}

/// A broken rule, with the line of the statement or declaration, from 1, and the name.
#[derive(Debug, Drop)]
pub struct Fault {
    pub rule: Rule,
    pub line: u32,
    pub name: Text,
}

/// Why there is no answer.
#[derive(Debug, Drop)]
pub enum Stop {
    Broken(Fault),
    Memory,
}

impl From<Memory> for Stop {
    ghost use Rattle.caf_declare.specs.declared.fault.Stop.TheVariants as stop;

    ghost from_gives = { λ _ s. s ≡ stop.Memory };

    fn from(_: Memory) -> Stop {
        Stop::Memory
    }
}

impl From<AllocError> for Stop {
    ghost use Rattle.caf_declare.specs.declared.fault.Stop.TheVariants as stop;

    ghost from_gives = { λ _ s. s ≡ stop.Memory };

    fn from(_: AllocError) -> Stop {
        Stop::Memory
    }
}

/// The rule is broken, on the line and at the name.
pub fn broken(alloc: Global, rule: Rule, line: u32, name: &str) -> Stop
    ensures { IsFault (breaks rule line name.now) result }
{
    match Text::copy_of(alloc, name) {
        Ok(name) => Stop::Broken(Fault { rule, line, name }),
        Err(_) => Stop::Memory,
    }
}
