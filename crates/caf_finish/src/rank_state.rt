ghost use Rattle.std.specs.Prelude.{◌≡◌, ◌&&◌, not};
ghost use Rattle.caf_epochs.specs.Epoch.{epoch_of};
ghost use Rattle.caf_finish.specs.Account.{is_over};
ghost use Rattle.caf_finish.specs.Ledger.{no_rank_state, counted_state, CanCount, state_after_result, CanFold};

use crate::Counted;
use caf_epochs::{Counters, class};

/// What the events so far tell of a rank.
#[derive(Clone, Copy)]
pub(crate) struct RankState {
    pub(crate) stood: bool,
    pub(crate) left: bool,
    pub(crate) wave: u32,
    pub(crate) late: bool,
    /// Whether it was relayed in its present wave.
    pub(crate) relayed: bool,
    /// The last result that it took.
    pub(crate) last: Option<i64>,
    pub(crate) counters: Counters,
}

impl RankState {
    /// Of a rank of which no event tells.
    pub(crate) fn new() -> RankState
        ensures { result ≡ no_rank_state }
    {
        RankState {
            stood: false,
            left: false,
            wave: 0,
            late: false,
            relayed: false,
            last: None,
            counters: Counters::new(),
        }
    }

    /// The epoch of a message that the rank sends now.
    pub(crate) fn epoch(&self) -> u32
        requires { CanFold self.now }
        ensures { result ≡ epoch_of self.now.wave self.now.late }
    {
        if self.late {
            2 * self.wave + 1
        } else {
            2 * self.wave
        }
    }

    /// Whether it stands, hasn't contributed in its present wave, and its last result isn't 0.
    pub(crate) fn may_contribute(&self) -> bool
        ensures { result ≡ ((self.now.stood && not self.now.late) && not (is_over self.now.last)) }
    {
        self.stood && !self.late && !self.is_over()
    }

    /// Whether its last result is 0.
    pub(crate) fn is_over(&self) -> bool
        ensures { result ≡ is_over self.now.last }
    {
        self.last == Some(0)
    }

    /// With one message more, of this epoch.
    pub(crate) fn counted(self, what: Counted, epoch: u32) -> RankState
        requires { CanCount what epoch self }
        ensures { result ≡ counted_state what epoch self }
    {
        let mut counters = self.counters;
        what.count(&mut counters, class(epoch, self.wave));
        RankState { counters, ..self }
    }

    /// After the rank took a result, in its next wave.
    pub(crate) fn after_result(self, sum: i64) -> RankState
        requires { CanFold self }
        ensures { result ≡ state_after_result sum self }
    {
        let mut counters = self.counters;
        counters.fold();
        RankState {
            wave: self.wave + 1,
            late: false,
            relayed: false,
            last: Some(sum),
            counters,
            ..self
        }
    }
}
