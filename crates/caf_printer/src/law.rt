ghost use Rattle.caf_tree.specs.declared.unit.Unit.{Unit as Program};
ghost use Rattle.caf_tree.specs.Text.{unit_text};
ghost use Rattle.caf_printer.specs.Readable.{IsReadable, ReadsAs};

/// The text of a unit that the tokens of some text spell has tokens that spell this unit, but for its lines.
#[tactic(auto, using(crate::proofs::Again::read_again))]
pub fn a_print_is_read_again()
    ensures { (u : Program) → IsReadable u → ReadsAs (unit_text u) u }
{}
