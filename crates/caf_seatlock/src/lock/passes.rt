//! How a lock begins and ends, and how its passes are cut and taken in.
ghost use Rattle.std.specs.Prelude.{◌≡◌, ◌+◌, ◌<◌, false, [], ◌∷◌, IfOk, OnErr};
ghost use mathlib.Core.List.{IsPrefix};
ghost use Rattle.caf_seatlock.specs.Passes.{first_of, seats_in, has_turn, seen, seats_of, IsOf};

use super::{Pass, SeatLock};
use crate::keeps::Keeps;
use crate::moves::{Cut, Settle, Unite};
use crate::view::Beginning;
use atomic_table::{Refused, Table};
use caf_base::Memory;
use std::alloc::Global;
use std::snapshot::Snapshot;

// One slot, with the value in it.
fn one_slot<T: Drop>(alloc: Global, value: T) -> Result<Vec<T>, Memory>
    ensures { IfOk result (λ slots. slots.items ≡ value ∷ []) }
{
    let mut slots = Vec::new(alloc);
    slots.push(value)?;
    Ok(slots)
}

impl<W: Keeps> SeatLock<W> {
    /// A lock over the value, with its first pass, which has all seats. A value for which there is no memory is dropped.
    pub fn new(alloc: Global, value: W, seats: u32) -> Result<(SeatLock<W>, Pass<W>), Memory>
    where
        W: Drop,
        requires { 0 < seats }
        ensures lock { IfOk result (λ made. (first_of made.0 ≡ value) × (seats_in made.0 ≡ seats)) }
        ensures own { IfOk result (λ made. IsOf made.0 made.1) }
        ensures free { IfOk result (λ made. has_turn made.1 ≡ false) }
        ensures seen { IfOk result (λ made. seen made.1 ≡ W.entries value) }
        ensures seats { IfOk result (λ made. seats_of made.1 ≡ seats) }
    {
        let beginning = Beginning {
            value: Snapshot::of(&value),
            seats,
        };
        let slots = one_slot(alloc, Some(value))?;
        match Table::new(alloc, &[0, 0], slots, &beginning) {
            Ok((table, seat)) => Ok((SeatLock { table }, Pass { seat, seats })),
            Err(Refused { slots: _ }) => Err(Memory),
        }
    }

    /// A new pass with one seat of the old one's, which has seen as much. It is refused exactly where the old pass has
    /// no more than one seat, and takes no memory.
    pub fn split(&self, pass: &mut Pass<W>) -> Result<Pass<W>, Memory>
        requires own { IsOf self.now pass.old }
        requires free { has_turn pass.old ≡ false }
        ensures own { IsOf self.now pass.new × (has_turn pass.new ≡ false) × (seen pass.new ≡ seen pass.old) }
        ensures new { IfOk result (λ other. IsOf self.now other × (has_turn other ≡ false) × (seen other ≡ seen pass.old)) }
        ensures seats { IfOk result (λ other. (seats_of other ≡ 1) × (seats_of pass.new + 1 ≡ seats_of pass.old)) }
        ensures refused { OnErr result ((seats_of pass.old < 2) × (seats_of pass.new ≡ seats_of pass.old)) }
    {
        if pass.seats < 2 {
            return Err(Memory);
        }
        let seat = self.table.shared.split_seat::<Cut>(&mut pass.seat);
        pass.seats -= 1;
        Ok(Pass { seat, seats: 1 })
    }

    /// Takes another pass in, with its seats and with what it has seen.
    pub fn join(&self, pass: &mut Pass<W>, other: Pass<W>)
        requires own { IsOf self.now pass.old × IsOf self.now other }
        requires free { (has_turn pass.old ≡ false) × (has_turn other ≡ false) }
        ensures own { IsOf self.now pass.new × (has_turn pass.new ≡ false) }
        ensures seen { IsPrefix (seen pass.old) (seen pass.new) × IsPrefix (seen other) (seen pass.new) }
        ensures seats { seats_of pass.new ≡ seats_of pass.old + seats_of other }
    {
        let Pass { seat, seats } = other;
        self.table.shared.join_seat::<Unite>(&mut pass.seat, seat);
        self.table.shared.load::<Settle>(&mut pass.seat, 0);
        pass.seats += seats;
    }

    /// Ends the lock, and hands its value out. All other passes were taken in: this one has all seats.
    pub fn close(self, pass: Pass<W>) -> W
        requires own { IsOf self pass }
        requires free { has_turn pass ≡ false }
        requires joined { seats_of pass ≡ seats_in self }
        ensures seen { IsPrefix (seen pass) (W.entries result) }
        ensures fixed { W.fixed result ≡ W.fixed (first_of self) }
    {
        let Self { table } = self;
        let Pass { seat, seats: _ } = pass;
        let mut closed = table.close_with(seat);
        let slot = closed.take(0);
        closed.free();
        match slot {
            Some(value) => value,
            None => unreachable!(),
        }
    }
}

impl<W> Pass<W> {
    /// How many passes it can become.
    pub fn seats(&self) -> u32
        ensures { result ≡ seats_of self.now }
    {
        self.seats
    }
}
