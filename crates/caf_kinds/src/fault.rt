ghost use Rattle.std.specs.Prelude.{◌≡◌};
ghost use Rattle.caf_kinds.specs.Faults.{told};

use caf_base::Text;
use caf_declare::{Fault, Rule};
use thiserror::Error;

/// The first rule on names and kinds that a program breaks, with the line of the statement or declaration, from 1, and the
/// name that breaks it.
#[derive(Debug, Drop, Error)]
pub enum KindFault {
    /// A name that is used isn't declared.
    #[error("line {0}: a name is not declared")]
    Undeclared(u32, Text),
    /// A name is declared twice in its part.
    #[error("line {0}: a name is declared twice")]
    Twice(u32, Text),
    /// A name, operand or statement is of a wrong kind.
    #[error("line {0}: a wrong kind")]
    WrongKind(u32, Text),
    /// A subroutine is given more or fewer arguments than it has dummies.
    #[error("line {0}: a wrong number of arguments")]
    WrongCount(u32, Text),
    /// A place stands on what isn't shared, or a copointer aims there.
    #[error("line {0}: not a coarray")]
    NotCoarray(u32, Text),
    /// The variable of a loop is written in its body.
    #[error("line {0}: the variable of a loop is written in its body")]
    DoVariable(u32, Text),
    /// A parameter or an `intent(in)` dummy is written.
    #[error("line {0}: what may only be read is written")]
    ReadOnly(u32, Text),
    /// A bound or a parameter has no constant value.
    #[error("line {0}: no constant value")]
    BadConstant(u32, Text),
    /// The main program has more than 65,536 cells, or a subroutine more than 64 dummies and locals.
    #[error("line {0}: too many cells")]
    TooManyCells(u32, Text),
    #[error("out of memory")]
    Memory,
}

/// The fault that tells of a broken rule.
pub fn fault_of(fault: Fault) -> KindFault
    ensures { result ≡ told fault }
{
    let Fault { rule, line, name } = fault;
    match rule {
        Rule::Undeclared => KindFault::Undeclared(line, name),
        Rule::Twice => KindFault::Twice(line, name),
        Rule::WrongKind => KindFault::WrongKind(line, name),
        Rule::WrongCount => KindFault::WrongCount(line, name),
        Rule::NotCoarray => KindFault::NotCoarray(line, name),
        Rule::DoVariable => KindFault::DoVariable(line, name),
        Rule::ReadOnly => KindFault::ReadOnly(line, name),
        Rule::BadConstant => KindFault::BadConstant(line, name),
        Rule::TooManyCells => KindFault::TooManyCells(line, name),
    }
}
