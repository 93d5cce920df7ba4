ghost use Rattle.std.specs.Prelude.{◌≡◌, ◌<◌, List, ◌∷◌, length, Some, nat_eq, IsSome, OnOk};
ghost use Rattle.std.specs.HashMap.{get};
ghost use Rattle.caf_finish.specs.declared.event.FinishEvent.{FinishEvent};
ghost use Rattle.caf_finish.specs.declared.event.FinishEvent.TheVariants.{
  Stand,
  Send,
  Take,
  Complete,
  Ack,
  Contribute,
  Relay,
  Result as Taken,
  Leave,
};
ghost use Rattle.caf_finish.specs.Kept.{
  MayFollow,
  MayStand,
  MaySend,
  MayTake,
  MayComplete,
  MayAck,
  MayContribute,
  MayRelay,
  MayResult,
  MayLeave,
};
ghost use Rattle.caf_finish.specs.IsLedger.{IsLedger, Adds};

use crate::ledger::Ledger;
use crate::message_state::MessageState;
use crate::rank_state::RankState;
use crate::{Counted, FinishEvent, Memory};
use caf_base::Four;

// Events that keep their rules are added to what the ledger tells of. A parameter that begins with `_` is part of the event,
// so that the clauses name it, and changes nothing that the ledger tells.
impl Ledger {
    pub(crate) fn add(&mut self, event: &FinishEvent) -> Result<(), Memory>
        ghost h: { List FinishEvent }
        requires ledger { IsLedger h self.old }
        requires few { length h < 1000000 }
        requires may { MayFollow self.old.size h event.now }
        ensures { OnOk result (Adds h event.now self.old self.new) }
    {
        match event {
            FinishEvent::Stand(rank) => self.add_stand(*rank),
            FinishEvent::Send {
                message,
                origin,
                target,
                by,
            } => self.add_send(*message, *origin, *target, *by),
            FinishEvent::Take(message) => self.add_take(*message),
            FinishEvent::Complete(message) => self.add_complete(*message),
            FinishEvent::Ack(message) => self.add_ack(*message),
            FinishEvent::Contribute(rank, four) => self.add_contribute(*rank, four),
            FinishEvent::Relay(parent, child) => self.add_relay(*parent, *child),
            FinishEvent::Result(rank, sum) => self.add_result(*rank, *sum),
            FinishEvent::Leave(rank) => self.add_leave(*rank),
        }
    }

    fn add_stand(&mut self, rank: u32) -> Result<(), Memory>
        ghost h: { List FinishEvent }
        requires ledger { IsLedger h self.old }
        requires may { MayStand self.old.size h rank }
        ensures { OnOk result (Adds h (Stand rank) self.old self.new) }
    {
        let state = self.rank(rank);
        self.put_rank(
            rank,
            RankState {
                stood: true,
                ..state
            },
        )
    }

    fn add_send(
        &mut self,
        message: u32,
        origin: u32,
        target: u32,
        _by: Option<u32>,
    ) -> Result<(), Memory>
        ghost h: { List FinishEvent }
        requires ledger { IsLedger h self.old }
        requires few { length h < 1000000 }
        requires may { MaySend self.old.size h message origin target _by }
        ensures { OnOk result (Adds h (Send message origin target _by) self.old self.new) }
    {
        let sender = self.rank(origin);
        let epoch = sender.epoch();
        let state = MessageState {
            origin,
            target,
            epoch,
            taken: false,
            completed: false,
            acked: false,
        };
        self.put_both(message, state, origin, sender.counted(Counted::Sent, epoch))?;
        self.running += 1;
        Ok(())
    }

    fn add_take(&mut self, message: u32) -> Result<(), Memory>
        ghost h: { List FinishEvent }
        requires ledger { IsLedger h self.old }
        requires few { length h < 1000000 }
        requires may { MayTake h message }
        ensures { OnOk result (Adds h (Take message) self.old self.new) }
    {
        let state = self.told(message);
        let target = self.rank(state.target);
        let counted = target.counted(Counted::Received, state.epoch);
        let taken = MessageState {
            taken: true,
            ..state
        };
        self.put_both(message, taken, state.target, counted)
    }

    fn add_complete(&mut self, message: u32) -> Result<(), Memory>
        ghost h: { List FinishEvent }
        requires ledger { IsLedger h self.old }
        requires few { length h < 1000000 }
        requires may { MayComplete h message }
        ensures { OnOk result (Adds h (Complete message) self.old self.new) }
    {
        let state = self.told(message);
        let target = self.rank(state.target);
        let counted = target.counted(Counted::Completed, state.epoch);
        let completed = MessageState {
            completed: true,
            ..state
        };
        self.put_both(message, completed, state.target, counted)?;
        self.running -= 1;
        Ok(())
    }

    fn add_ack(&mut self, message: u32) -> Result<(), Memory>
        ghost h: { List FinishEvent }
        requires ledger { IsLedger h self.old }
        requires few { length h < 1000000 }
        requires may { MayAck h message }
        ensures { OnOk result (Adds h (Ack message) self.old self.new) }
    {
        let state = self.told(message);
        let origin = self.rank(state.origin);
        let counted = origin.counted(Counted::Delivered, state.epoch);
        let acked = MessageState {
            acked: true,
            ..state
        };
        self.put_both(message, acked, state.origin, counted)
    }

    fn add_contribute(&mut self, rank: u32, four: &Four) -> Result<(), Memory>
        ghost h: { List FinishEvent }
        requires ledger { IsLedger h self.old }
        requires few { length h < 1000000 }
        requires may { MayContribute self.old.size h rank four.now }
        ensures { OnOk result (Adds h (Contribute rank four.now) self.old self.new) }
    {
        let state = self.rank(rank);
        let totals = self.wave(state.wave);
        self.put_wave(state.wave, totals.with_contribute(four))?;
        self.put_rank(
            rank,
            RankState {
                late: true,
                ..state
            },
        )
    }

    fn add_relay(&mut self, _parent: u32, child: u32) -> Result<(), Memory>
        ghost h: { List FinishEvent }
        requires ledger { IsLedger h self.old }
        requires few { length h < 1000000 }
        requires may { MayRelay self.old.size h _parent child }
        ensures { OnOk result (Adds h (Relay _parent child) self.old self.new) }
    {
        let state = self.rank(child);
        let totals = self.wave(state.wave);
        self.put_wave(state.wave, totals.with_relay())?;
        self.put_rank(
            child,
            RankState {
                relayed: true,
                ..state
            },
        )
    }

    fn add_result(&mut self, rank: u32, sum: i64) -> Result<(), Memory>
        ghost h: { List FinishEvent }
        requires ledger { IsLedger h self.old }
        requires few { length h < 1000000 }
        requires may { MayResult self.old.size h rank sum }
        ensures { OnOk result (Adds h (Taken rank sum) self.old self.new) }
    {
        let state = self.rank(rank);
        self.put_rank(rank, state.after_result(sum))
    }

    fn add_leave(&mut self, rank: u32) -> Result<(), Memory>
        ghost h: { List FinishEvent }
        requires ledger { IsLedger h self.old }
        requires may { MayLeave self.old.size h rank }
        ensures { OnOk result (Adds h (Leave rank) self.old self.new) }
    {
        let state = self.rank(rank);
        self.put_rank(
            rank,
            RankState {
                left: true,
                ..state
            },
        )
    }

    // What is told of a message that was sent.
    fn told(&self, message: u32) -> MessageState
        requires { IsSome (get nat_eq self.now.messages message) }
        ensures { get nat_eq self.now.messages message ≡ Some result }
    {
        self.message(message).unwrap()
    }
}
