ghost use Rattle.std.specs.Prelude.{◌≡◌, ◌≤◌, ◌<◌, ◌+◌, IfOk, length};
ghost use Rattle.caf_check.specs.Checked.{ComesTo, Follows};
ghost use Rattle.caf_source.specs.Kept.{CanGoOn};

use crate::choice_of;
use caf_base::Memory;
use caf_journal::Entry;
use caf_program::Accepted;
use caf_source::{State, Stepped, step};
use std::alloc::Global;

/// What the choices of a journal come to.
#[derive(Drop)]
pub enum Led {
    /// The state after them.
    Runs(State),
    /// The place, from 0, of the first entry whose choice isn't defined.
    Refused(usize),
}

/// Makes the choice of an entry, if it has one. Whether it is defined.
fn follow(a: &Accepted, state: &mut State, entry: Entry) -> Result<bool, Memory>
    requires ready { CanGoOn state.old }
    requires count { state.old.done < 1000000 }
    ensures follows { IfOk result (λ goes_on. Follows a.now entry state.old state.new goes_on) }
    ensures few { IfOk result (λ goes_on. state.new.done ≤ state.old.done + 1) }
    ensures ready { CanGoOn state.new }
{
    let Some(choice) = choice_of(entry) else {
        return Ok(true);
    };
    Ok(matches!(step(a, state, choice)?, Stepped::Done))
}

/// Makes the choices of a journal from the beginning, as far as they are defined. Entries of the protocol are passed over.
pub fn led_by(alloc: Global, a: &Accepted, images: u32, journal: &[Entry]) -> Result<Led, Memory>
    requires least { 1 ≤ images }
    requires most { images ≤ 64 }
    requires few { length journal.now ≤ 1000000 }
    ensures { IfOk result (λ led. ComesTo a.now images journal.now led) }
{
    let mut state = State::new(alloc, a, images)?;
    for at in 0..journal.len() {
        if !follow(a, &mut state, journal[at])? {
            return Ok(Led::Refused(at));
        }
    }
    Ok(Led::Runs(state))
}
