ghost use Rattle.caf_code.specs.Rules.{KeepsRules};
ghost use Rattle.caf_program.specs.Accepted.{IsAccepted};
ghost use Rattle.caf_program.specs.declared.program.Program.{Program};
ghost use Rattle.caf_codegen.specs.Compiled.{Compiled};
ghost use Rattle.caf_codegen.specs.ProgramCode.{program_code};

use caf_exprgen::codes_leave_values;

/// The code that is made of an accepted program does what the program says, and keeps the rules of a code.
pub fn made_codes_do_what_programs_say()
    ensures compiled { (p : Program) → IsAccepted p → Compiled p (program_code p) }
    ensures keeps { (p : Program) → IsAccepted p → KeepsRules (program_code p) }
{
    codes_leave_values();
}
