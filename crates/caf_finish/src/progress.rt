ghost use Rattle.std.specs.Prelude.{◌≡◌, ◌<◌, IfOk};
ghost use Rattle.caf_reduce.specs.Sum.{given_of};
ghost use Rattle.caf_finish.specs.Account.{
  first_account,
  epoch_at,
  IsCountable,
  counted,
  is_over,
  may_leave,
  may_contribute,
  own_sum,
  CanContribute,
  contributed,
  CanRelay,
  relayed,
  CanTakeResult,
  after_result,
};

use crate::{Counted, Four, Given, Memory};
use caf_epochs::{Counters, class};
use caf_reduce::Summer;
use std::alloc::Global;
use std::marker::Model;

/// How far an image has come in one finish.
#[derive(Drop)]
pub(crate) struct Progress {
    rank: u32,
    wave: u32,
    last: Option<i64>,
    late: bool,
    counters: Counters,
    summer: Summer,
}

impl Model for Progress {
    ghost use Rattle.caf_finish.specs.Account.{Account};

    ghost Value = { Account };

    ghost use Rattle.caf_finish.specs.Stored.{account_of, IsStored};

    ghost view = { account_of };

    ghost invariant = { IsStored };
}

impl Progress {
    /// At the first wave, with no message counted.
    pub(crate) fn new(alloc: Global, size: u32, rank: u32) -> Result<Progress, Memory>
        requires { rank < size }
        ensures { IfOk result (λ progress. progress ≡ first_account size rank) }
    {
        let summer = Summer::new(alloc, size, rank)?;
        Ok(Progress {
            rank,
            wave: 0,
            last: None,
            late: false,
            counters: Counters::new(),
            summer,
        })
    }

    pub(crate) fn wave(&self) -> u32
        ensures { result ≡ self.now.wave }
    {
        self.wave
    }

    /// The stamp of a message that is sent now.
    pub(crate) fn epoch(&self) -> u32
        ensures { result ≡ epoch_at self.now }
    {
        if self.late {
            2 * self.wave + 1
        } else {
            2 * self.wave
        }
    }

    /// Counts what happens to a message with this stamp.
    pub(crate) fn count(&mut self, what: Counted, epoch: u32)
        requires { IsCountable what epoch self.old }
        ensures { self.new ≡ counted what epoch self.old }
    {
        what.count(&mut self.counters, class(epoch, self.wave));
    }

    pub(crate) fn may_leave(&self) -> bool
        ensures { result ≡ may_leave self.now }
    {
        self.last == Some(0)
    }

    pub(crate) fn may_contribute(&self) -> bool
        ensures { result ≡ may_contribute self.now }
    {
        !self.late && self.counters.quiet() && !self.may_leave()
    }

    /// The numbers of the even messages.
    pub(crate) fn four(&self) -> Four
        ensures { result ≡ self.now.counters.even }
    {
        self.counters.contribute()
    }

    /// Gives the image's part to the present wave.
    pub(crate) fn contribute(&mut self) -> (Four, Given)
        requires { CanContribute self.old }
        ensures account { self.new ≡ contributed self.old }
        ensures four { result.0 ≡ self.old.counters.even }
        ensures given { result.1 ≡ given_of self.new.parts }
    {
        let four = self.counters.contribute();
        self.late = true;
        let own = i64::from(four.sent) - i64::from(four.completed);
        (four, self.summer.give(self.rank, own))
    }

    /// Takes the part of a child.
    pub(crate) fn relay(&mut self, from: u32, sum: i64) -> Given
        requires { CanRelay from sum self.old }
        ensures account { self.new ≡ relayed from sum self.old }
        ensures given { result ≡ given_of self.new.parts }
    {
        self.summer.give(from, sum)
    }

    /// Takes the result of the present wave and begins the next.
    pub(crate) fn result(&mut self, sum: i64)
        requires { CanTakeResult self.old }
        ensures { self.new ≡ after_result sum self.old }
    {
        self.wave += 1;
        self.last = Some(sum);
        self.late = false;
        self.counters.fold();
        self.summer.reset();
    }
}
