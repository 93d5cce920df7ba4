ghost use Rattle.std.specs.Prelude.{◌≡◌, ℕ, List, Some};
ghost use Rattle.caf_program.specs.declared.program.Program.{Program};
ghost use Rattle.caf_source.specs.declared.choice.Choice.{Choice};
ghost use Rattle.caf_source.specs.Run.{state_after};
ghost use Rattle.caf_source.specs.State.{State};
ghost use Rattle.caf_sourcelaws.specs.Named.{AreApart, AreGiven, IsNextNew};

/// The law of the names of operations: wherever choices lead, no two that are pending have one name, and each number is one
/// that its image has given out, so that the next operation of an image takes the place of no other.
pub fn pending_names_are_apart()
    ensures apart { (p : Program) (images : ℕ) (choices : List Choice) (s : State) → state_after p images choices ≡ Some s → AreApart s.pending }
    ensures given { (p : Program) (images : ℕ) (choices : List Choice) (s : State) → state_after p images choices ≡ Some s → AreGiven s.images s.pending }
    ensures next { (p : Program) (images : ℕ) (choices : List Choice) (s : State) → state_after p images choices ≡ Some s → IsNextNew s.images s.pending }
{}
