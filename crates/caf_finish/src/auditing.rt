ghost use Rattle.std.specs.Prelude.{◌≡◌, ◌+◌, ◌<◌, ◌≤◌, List, length, reverse, IfOk, OnOk, MatchBool};
ghost use Rattle.caf_finish.specs.declared.event.FinishEvent.{FinishEvent};
ghost use Rattle.caf_finish.specs.Audit.{Answers, IsFirstBroken, events_before};
ghost use Rattle.caf_finish.specs.IsLedger.{IsLedger};
ghost use Rattle.caf_finish.specs.Kept.{IsKept};
ghost use Rattle.caf_finish.specs.Sound.{ZeroMeansNone, HasFewWaves};

use crate::ledger::Ledger;
use crate::{Audit, FinishEvent, Memory};
use std::alloc::Global;

/// Whether each event of a finish over a team of `size` ranks keeps its rule, in this order, and how many messages are
/// sent and not completed then. Where all do, no result is negative, a result of 0 means that no message is left, and
/// contributions are of few waves. It takes time and memory in proportion to the number of events, and answers
/// [`Memory`] where there is none for its tables.
#[tactic(auto, using(crate::proofs::Sound::zero_means_none, crate::proofs::Depth::few_waves))]
pub fn audit(alloc: Global, size: u32, events: &[FinishEvent]) -> Result<Audit, Memory>
    requires team { 0 < size }
    requires few { length events.now ≤ 1000000 }
    ensures answer { IfOk result (Answers size events.now) }
    ensures zero { IsKept size (reverse events.now) → ZeroMeansNone size (reverse events.now) }
    ensures waves { IsKept size (reverse events.now) → HasFewWaves (reverse events.now) }
{
    let mut ledger = Ledger::new(alloc, size);
    for place in 0..events.len() {
        if !step(&mut ledger, events, place)? {
            return Ok(Audit::Broken(place));
        }
    }
    Ok(Audit::Kept {
        running: ledger.running,
    })
}

// Adds the event at the place if it keeps its rule, and answers whether it does.
fn step(ledger: &mut Ledger, events: &[FinishEvent], place: usize) -> Result<bool, Memory>
    ghost h: { List FinishEvent }
    requires before { h ≡ events_before events.now place }
    requires ledger { IsLedger h ledger.old }
    requires place { place < length events.now }
    requires few { length events.now ≤ 1000000 }
    ensures size { OnOk result (ledger.new.size ≡ ledger.old.size) }
    ensures kept { IfOk result (λ kept. MatchBool kept
        (IsLedger (events_before events.now (place + 1)) ledger.new)
        (IsFirstBroken ledger.old.size events.now place)) }
{
    let event = &events[place];
    if !ledger.allows(event) {
        return Ok(false);
    }
    ledger.add(event)?;
    Ok(true)
}
