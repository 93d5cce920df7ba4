ghost use Rattle.std.specs.Prelude.{◌≡◌, ℕ, List};
ghost use Rattle.caf_program.specs.declared.program.Program.{Program};
ghost use Rattle.caf_top.specs.Refusals.{IsWrong, Told};
ghost use Rattle.caf_top.specs.Sees.{Sees};

use caf_kinds::a_unit_means_one_program;
use caf_parser::tokens_spell_at_most_one_unit;
use caf_teamcheck::a_fault_breaks_a_rule;

/// The law that bytes are the text of at most one accepted program.
pub fn a_text_means_one_program()
    ensures { (bytes : List ℕ) (p q : Program) → Sees bytes p → Sees bytes q → p ≡ q }
{
    tokens_spell_at_most_one_unit();
    a_unit_means_one_program();
}

/// The law that bytes of which a fault can be told are the text of no accepted program.
pub fn a_wrong_text_means_no_program()
    ensures { (bytes : List ℕ) (told : Told) (p : Program) → IsWrong bytes told → Sees bytes p → ⊥ }
{
    tokens_spell_at_most_one_unit();
    a_unit_means_one_program();
    a_fault_breaks_a_rule();
}
