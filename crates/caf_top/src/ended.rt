ghost use Rattle.std.specs.Prelude.{◌≡◌};

use caf_base::Sequence;
use caf_journal::Entry;

/// The status of a call, and the journal of its run.
#[derive(Debug, Drop)]
pub struct Ended {
    /// The exit status of the program.
    pub status: u8,
    pub(crate) journal: Sequence<Entry>,
}

impl Ended {
    ghost use Rattle.caf_top.specs.Ended.{journal_of};

    /// The entries of the run. There is none where no run was made.
    pub fn journal(&self) -> &[Entry]
        ensures { result.now ≡ journal_of self.now }
    {
        self.journal.as_slice()
    }
}
