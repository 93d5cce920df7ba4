ghost use Rattle.std.specs.Prelude.{◌≡◌, [], ◌<◌, unwrap_or, nat_eq, OnOk};
ghost use Rattle.std.specs.HashMap.{get};
ghost use Rattle.caf_finish.specs.Ledger.{no_rank_state, no_totals};
ghost use Rattle.caf_finish.specs.IsLedger.{IsLedger, RankPut, MessagePut, BothPut, WavePut};

use crate::Memory;
use crate::message_state::MessageState;
use crate::rank_state::RankState;
use crate::wave_totals::WaveTotals;
use std::alloc::Global;
use std::collections::HashMap;

/// What the events so far tell, by rank, by message and by wave.
#[derive(Drop)]
pub(crate) struct Ledger {
    pub(crate) size: u32,
    /// How many messages are sent and not completed.
    pub(crate) running: u32,
    pub(crate) ranks: HashMap<u32, RankState>,
    pub(crate) messages: HashMap<u32, MessageState>,
    pub(crate) waves: HashMap<u32, WaveTotals>,
}

impl Ledger {
    /// Of a team of this size, before any event.
    pub(crate) fn new(alloc: Global, size: u32) -> Ledger
        requires { 0 < size }
        ensures ledger { IsLedger [] result }
        ensures size { result.size ≡ size }
    {
        Ledger {
            size,
            running: 0,
            ranks: HashMap::new(alloc),
            messages: HashMap::new(alloc),
            waves: HashMap::new(alloc),
        }
    }

    /// What is told of a rank.
    pub(crate) fn rank(&self, rank: u32) -> RankState
        ensures { result ≡ unwrap_or (get nat_eq self.now.ranks rank) no_rank_state }
    {
        match self.ranks.get(&rank) {
            Some(state) => *state,
            None => RankState::new(),
        }
    }

    /// What is told of a message, if it was sent.
    pub(crate) fn message(&self, message: u32) -> Option<MessageState>
        ensures { result ≡ get nat_eq self.now.messages message }
    {
        self.messages.get(&message).copied()
    }

    /// What is told of a wave.
    pub(crate) fn wave(&self, wave: u32) -> WaveTotals
        ensures { result ≡ unwrap_or (get nat_eq self.now.waves wave) no_totals }
    {
        match self.waves.get(&wave) {
            Some(totals) => *totals,
            None => WaveTotals::new(),
        }
    }

    pub(crate) fn put_rank(&mut self, rank: u32, state: RankState) -> Result<(), Memory>
        ensures { OnOk result (RankPut self.old self.new rank state) }
    {
        self.ranks.insert(rank, state)?;
        Ok(())
    }

    pub(crate) fn put_message(&mut self, message: u32, state: MessageState) -> Result<(), Memory>
        ensures { OnOk result (MessagePut self.old self.new message state) }
    {
        self.messages.insert(message, state)?;
        Ok(())
    }

    pub(crate) fn put_wave(&mut self, wave: u32, totals: WaveTotals) -> Result<(), Memory>
        ensures { OnOk result (WavePut self.old self.new wave totals) }
    {
        self.waves.insert(wave, totals)?;
        Ok(())
    }

    /// Puts a message and the rank that counts it.
    pub(crate) fn put_both(
        &mut self,
        message: u32,
        state: MessageState,
        rank: u32,
        counted: RankState,
    ) -> Result<(), Memory>
        ensures { OnOk result (BothPut self.old self.new message state rank counted) }
    {
        self.put_message(message, state)?;
        self.put_rank(rank, counted)
    }
}
