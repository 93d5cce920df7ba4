//! What follows from the rules for every code.

ghost use Rattle.caf_code.specs.Kept.{KeepsSound};
ghost use Rattle.caf_code.specs.Rules.{KeepsRules};
ghost use Rattle.caf_code.specs.Tables.{TablesShowRules};
ghost use Rattle.caf_code.specs.Whole.{ComesToRest, LacksNothing};
ghost use Rattle.caf_code.specs.declared.listing.Listing.{Listing};

/// Each step of a task that a code can run comes to its end, and no instruction of it lacks an operand or stands
/// outside the code; so does following every `go`.
pub fn steps_lack_nothing()
    ensures whole { (code : Listing) → KeepsRules code → LacksNothing code }
    ensures rests { (code : Listing) → KeepsRules code → ComesToRest code }
{}

/// The main task of a code, its shipped tasks and the memory with which an image begins are such that the code can run
/// them. They stay so by a step, by the end of a blocking operation, by going past the end of a finish, and by the new
/// team of a split, the task up to its end or a trap.
pub fn tasks_stay_sound()
    ensures { (code : Listing) → KeepsRules code → KeepsSound code }
{}

/// A code keeps the rules where rows of shapes, one for its main program and one for each subroutine, show it.
pub fn tables_show_rules()
    ensures { TablesShowRules }
{}
