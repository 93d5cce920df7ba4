ghost use Rattle.std.specs.Prelude.{◌≡◌, ◌≤◌, ◌↔◌, List, length, IsTrue};
ghost use Rattle.caf_finish.specs.declared.event.FinishEvent.{FinishEvent};
ghost use Rattle.caf_finish.specs.Events.{sum_of_wave};
ghost use Rattle.caf_finish.specs.Kept.{
  MayFollow,
  MayStand,
  MaySend,
  MaySendBy,
  MayTake,
  MayComplete,
  MayAck,
  MayContribute,
  MayRelay,
  IsWhole,
  MayResult,
  MayLeave,
};
ghost use Rattle.caf_finish.specs.IsLedger.{IsLedger};

use crate::FinishEvent;
use crate::ledger::Ledger;
use caf_base::Four;

// Whether an event may follow those that the ledger tells of.
impl Ledger {
    pub(crate) fn allows(&self, event: &FinishEvent) -> bool
        ghost h: { List FinishEvent }
        requires ledger { IsLedger h self.now }
        requires few { length h ≤ 1000000 }
        ensures { IsTrue result ↔ MayFollow self.now.size h event.now }
    {
        match event {
            FinishEvent::Stand(rank) => self.may_stand(*rank),
            FinishEvent::Send {
                message,
                origin,
                target,
                by,
            } => self.may_send(*message, *origin, *target, *by),
            FinishEvent::Take(message) => self.may_take(*message),
            FinishEvent::Complete(message) => self.may_complete(*message),
            FinishEvent::Ack(message) => self.may_ack(*message),
            FinishEvent::Contribute(rank, four) => self.may_contribute(*rank, four),
            FinishEvent::Relay(parent, child) => self.may_relay(*parent, *child),
            FinishEvent::Result(rank, sum) => self.may_result(*rank, *sum),
            FinishEvent::Leave(rank) => self.may_leave(*rank),
        }
    }

    fn may_stand(&self, rank: u32) -> bool
        ghost h: { List FinishEvent }
        requires { IsLedger h self.now }
        ensures { IsTrue result ↔ MayStand self.now.size h rank }
    {
        let state = self.rank(rank);
        rank < self.size && !state.stood
    }

    fn may_send(&self, message: u32, origin: u32, target: u32, by: Option<u32>) -> bool
        ghost h: { List FinishEvent }
        requires { IsLedger h self.now }
        ensures { IsTrue result ↔ MaySend self.now.size h message origin target by }
    {
        let is_new = self.message(message).is_none();
        let has_sender = self.may_send_by(origin, by);
        is_new && origin < self.size && target < self.size && has_sender
    }

    fn may_send_by(&self, origin: u32, by: Option<u32>) -> bool
        ghost h: { List FinishEvent }
        requires { IsLedger h self.now }
        ensures { IsTrue result ↔ MaySendBy h origin by }
    {
        match by {
            None => !self.rank(origin).stood,
            Some(cause) => match self.message(cause) {
                None => false,
                Some(state) => state.is_open() && state.target == origin,
            },
        }
    }

    fn may_take(&self, message: u32) -> bool
        ghost h: { List FinishEvent }
        requires { IsLedger h self.now }
        ensures { IsTrue result ↔ MayTake h message }
    {
        match self.message(message) {
            None => false,
            Some(state) => !state.taken && state.epoch / 2 <= self.rank(state.target).wave,
        }
    }

    fn may_complete(&self, message: u32) -> bool
        ghost h: { List FinishEvent }
        requires { IsLedger h self.now }
        ensures { IsTrue result ↔ MayComplete h message }
    {
        match self.message(message) {
            None => false,
            Some(state) => state.is_open(),
        }
    }

    fn may_ack(&self, message: u32) -> bool
        ghost h: { List FinishEvent }
        requires { IsLedger h self.now }
        ensures { IsTrue result ↔ MayAck h message }
    {
        match self.message(message) {
            None => false,
            Some(state) => state.taken && !state.acked,
        }
    }

    #[tactic(auto, using(crate::proofs::Ranks::zero_last))]
    fn may_contribute(&self, rank: u32, four: &Four) -> bool
        ghost h: { List FinishEvent }
        requires { IsLedger h self.now }
        ensures { IsTrue result ↔ MayContribute self.now.size h rank four.now }
    {
        let state = self.rank(rank);
        rank < self.size
            && state.may_contribute()
            && *four == state.counters.even
            && four.sent == four.delivered
            && four.received == four.completed
    }

    fn may_relay(&self, parent: u32, child: u32) -> bool
        ghost h: { List FinishEvent }
        requires { IsLedger h self.now }
        ensures { IsTrue result ↔ MayRelay self.now.size h parent child }
    {
        if child == 0 || child >= self.size {
            return false;
        }
        let above = self.rank(parent);
        let below = self.rank(child);
        parent == caf_reduce::parent(self.size, child)
            && below.late
            && below.wave == above.wave
            && !below.relayed
    }

    fn may_result(&self, rank: u32, sum: i64) -> bool
        ghost h: { List FinishEvent }
        requires ledger { IsLedger h self.now }
        requires few { length h ≤ 1000000 }
        ensures { IsTrue result ↔ MayResult self.now.size h rank sum }
    {
        let state = self.rank(rank);
        let whole = self.is_whole(state.wave);
        let total = self.total(state.wave);
        rank < self.size && state.late && whole && sum == total
    }

    fn is_whole(&self, wave: u32) -> bool
        ghost h: { List FinishEvent }
        requires ledger { IsLedger h self.now }
        requires few { length h ≤ 1000000 }
        ensures { IsTrue result ↔ IsWhole self.now.size h wave }
    {
        self.wave(wave).is_whole(self.size)
    }

    fn total(&self, wave: u32) -> i64
        ghost h: { List FinishEvent }
        requires { IsLedger h self.now }
        ensures { result ≡ sum_of_wave h wave }
    {
        self.wave(wave).sum()
    }

    fn may_leave(&self, rank: u32) -> bool
        ghost h: { List FinishEvent }
        requires { IsLedger h self.now }
        ensures { IsTrue result ↔ MayLeave self.now.size h rank }
    {
        let state = self.rank(rank);
        let over = state.is_over();
        rank < self.size && over && !state.left
    }
}
