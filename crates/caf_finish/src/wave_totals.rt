ghost use Rattle.std.specs.Prelude.{◌≡◌, ◌<◌, ◌+◌, ◌==◌, ◌&&◌, ◌-ℤ◌, pos};
ghost use Rattle.caf_finish.specs.Ledger.{no_totals, one_contribute, one_relay, AreSmallTotals, IsSmallFour};

use caf_base::Four;

/// What the contributions to a wave and the relays in it come to.
#[derive(Clone, Copy)]
pub(crate) struct WaveTotals {
    pub(crate) contributes: u32,
    pub(crate) relays: u32,
    pub(crate) sent: u32,
    pub(crate) completed: u32,
}

impl WaveTotals {
    /// Of a wave with none.
    pub(crate) fn new() -> WaveTotals
        ensures { result ≡ no_totals }
    {
        WaveTotals {
            contributes: 0,
            relays: 0,
            sent: 0,
            completed: 0,
        }
    }

    /// Whether all ranks of a team of this size have contributed, and all but rank 0 were relayed.
    pub(crate) fn is_whole(&self, size: u32) -> bool
        requires { AreSmallTotals self.now }
        ensures { result ≡ ((self.now.contributes == size) && (self.now.relays + 1 == size)) }
    {
        self.contributes == size && self.relays + 1 == size
    }

    /// The messages sent and not completed.
    pub(crate) fn sum(&self) -> i64
        ensures { result ≡ pos self.now.sent -ℤ pos self.now.completed }
    {
        i64::from(self.sent) - i64::from(self.completed)
    }

    /// With one contribution more.
    pub(crate) fn with_contribute(self, four: &Four) -> WaveTotals
        requires totals { AreSmallTotals self }
        requires four { IsSmallFour four.now }
        ensures { result ≡ one_contribute four.now self }
    {
        WaveTotals {
            contributes: self.contributes + 1,
            sent: self.sent + four.sent,
            completed: self.completed + four.completed,
            ..self
        }
    }

    /// With one relay more.
    pub(crate) fn with_relay(self) -> WaveTotals
        requires { AreSmallTotals self }
        ensures { result ≡ one_relay self }
    {
        WaveTotals {
            relays: self.relays + 1,
            ..self
        }
    }
}
