ghost use Rattle.std.specs.Prelude.{◌≡◌, IfOk};
ghost use Rattle.caf_journal.specs.Struck.{struck};

use crate::Entry;
use caf_base::Memory;
use std::alloc::Global;

/// The choices of a journal in their order, without the entries of the protocol.
pub fn strike(alloc: Global, journal: &[Entry]) -> Result<Vec<Entry>, Memory>
    ensures { IfOk result (λ choices. choices.items ≡ struck journal.now) }
{
    let choices = journal
        .iter()
        .copied()
        .filter(Entry::is_choice)
        .collect(alloc)?;
    Ok(choices)
}
