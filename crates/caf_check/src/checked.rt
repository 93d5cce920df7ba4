ghost use Rattle.std.specs.Prelude.{◌≡◌, ◌≤◌, IfOk, length};
ghost use Rattle.caf_check.specs.Checked.{Checks};

use crate::{Led, led_by};
use caf_base::{Memory, Summary};
use caf_journal::{TraceFault, read_trace};
use caf_program::Accepted;
use std::alloc::Global;

/// What a trace comes to.
#[derive(Drop)]
pub enum Checked {
    /// What a report tells of the state after its choices.
    Ended(Summary),
    /// The line, from 1, that isn't one of a trace, or else the first whose choice isn't defined.
    Refused(u32),
}

/// Leads the source machine by the choices of a trace.
///
/// Its entries of the protocol are passed over, and of a touch the operation alone counts. All lines are read before the
/// first choice is made.
pub fn check_trace(
    alloc: Global,
    a: &Accepted,
    images: u32,
    trace: &[u8],
) -> Result<Checked, Memory>
    requires least { 1 ≤ images }
    requires most { images ≤ 64 }
    ensures { IfOk result (λ checked. Checks a.now images trace.now checked) }
{
    let journal = match read_trace(alloc, trace) {
        Ok(journal) => journal,
        Err(TraceFault::BadLine(line)) => return Ok(Checked::Refused(line)),
        Err(TraceFault::Memory) => return Err(Memory),
    };
    match led_by(alloc, a, images, &journal)? {
        Led::Runs(state) => Ok(Checked::Ended(state.summary(a)?)),
        Led::Refused(at) => Ok(Checked::Refused(at as u32 + 1)),
    }
}
