//! What follows from the definitions for all tokens.

ghost use Rattle.std.specs.Prelude.{◌≡◌, List};
ghost use Rattle.caf_lexer.specs.declared.token.Token.{Token};
ghost use Rattle.caf_tree.specs.declared.unit.Unit.{Unit};
ghost use Rattle.caf_tree.specs.Units.{Spells};

/// Tokens spell at most one unit.
pub fn tokens_spell_at_most_one_unit()
    ensures { (tokens : List Token) (one other : Unit) → Spells tokens one → Spells tokens other → one ≡ other }
{}
