ghost use Rattle.std.specs.Prelude.{◌≡◌};
ghost use Rattle.caf_tree.specs.declared.unit.Unit.{Unit as Written};
ghost use Rattle.caf_program.specs.declared.program.Program.{Program};
ghost use Rattle.caf_program.specs.Accepted.{KeepsKinds};
ghost use Rattle.caf_kinds.specs.Units.{Means};

/// The law that a unit means at most one program.
#[tactic(auto, using(crate::proofs::One::one_meaning))]
pub fn a_unit_means_one_program()
    ensures { (u : Written) (p q : Program) → Means u p → Means u q → p ≡ q }
{}

/// The law that what a unit means keeps the rules on kinds, slots, arguments, assignments and sizes.
pub fn what_is_meant_keeps_the_rules()
    ensures { (u : Written) (p : Program) → Means u p → KeepsKinds p }
{}
