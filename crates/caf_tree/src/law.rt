//! What follows from the definitions for all tokens.

ghost use Rattle.std.specs.Prelude.{◌≤◌, ◌↔◌, ℕ, List};
ghost use Rattle.caf_lexer.specs.declared.token.Token.{Token};
ghost use Rattle.caf_tree.specs.declared.unit.Unit.{Unit};
ghost use Rattle.caf_tree.specs.Depth.{depth};
ghost use Rattle.caf_tree.specs.Units.{SpellsWithin, Spells};

/// Tokens spell a unit where so many levels may be opened exactly where they spell it and it is no deeper.
pub fn a_unit_needs_as_many_levels_as_it_is_deep()
    ensures { (levels : ℕ) (tokens : List Token) (unit : Unit) → SpellsWithin levels tokens unit ↔ (Spells tokens unit × (depth unit ≤ levels)) }
{}
