ghost use Rattle.std.specs.Prelude.{◌≡◌};
ghost use Rattle.caf_program.specs.Accepted.{IsAccepted};

use crate::Program;
use std::marker::Model;

/// A program that keeps all rules, and may run.
#[derive(Drop)]
pub struct Accepted {
    program: Program,
}

impl Model for Accepted {
    ghost use Rattle.caf_program.specs.declared.program.Program.{Program};
    ghost use Rattle.caf_program.specs.Accepted.{IsAccepted};
    ghost use Rattle.caf_program.specs.contracts.stmt.StmtR as statement;
    ghost use Rattle.std.specs.Coded.{codes};

    ghost Value = { Program };

    ghost coded = { Prim.hlevel (codes, statement.the_row.coded) };

    ghost view = { λ accepted. accepted.program };

    ghost invariant = { λ accepted. IsAccepted accepted.program };
}

impl Accepted {
    /// The program, which keeps the rules.
    pub fn of(program: Program) -> Accepted
        requires { IsAccepted program }
        ensures { result ≡ program }
    {
        Accepted { program }
    }

    pub fn program(&self) -> &Program
        ensures same { result.now ≡ self.now }
        ensures accepted { IsAccepted result.now }
    {
        &self.program
    }
}
