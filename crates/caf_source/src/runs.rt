ghost use Rattle.std.specs.Prelude.{◌≡◌, ◌≤◌, IfOk, length};
ghost use Rattle.caf_source.specs.Certified.{Certifies};

use crate::machine::{State, step};
use crate::{Choice, Stepped};
use caf_base::Memory;
use caf_program::Accepted;
use std::alloc::Global;

/// What a list of choices comes to.
#[derive(Drop)]
pub enum Certified {
    /// The state after them.
    Runs(State),
    /// The place, from 0, of the first choice that isn't defined.
    Refused(usize),
}

/// Makes a list of choices from the beginning, as far as they are defined.
pub fn certify(
    alloc: Global,
    a: &Accepted,
    images: u32,
    choices: &[Choice],
) -> Result<Certified, Memory>
    requires least { 1 ≤ images }
    requires most { images ≤ 64 }
    requires few { length choices.now ≤ 1000000 }
    ensures { IfOk result (λ certified. Certifies a.now images choices.now certified) }
{
    let mut state = State::new(alloc, a, images)?;
    for at in 0..choices.len() {
        match step(a, &mut state, choices[at])? {
            Stepped::Done => {}
            Stepped::NotEnabled => return Ok(Certified::Refused(at)),
        }
    }
    Ok(Certified::Runs(state))
}
