ghost use Rattle.caf_exprgen.specs.Words.{CodesLeaveValues};

/// The instructions of every expression leave its value on the operand stack or meet its trap, none of them ends a step
/// or leads elsewhere, and they keep the rules of a code.
#[tactic(auto, using(crate::proofs::Laws::codes_leave))]
pub fn codes_leave_values()
    ensures { CodesLeaveValues }
{}
