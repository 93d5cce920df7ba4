//! The steps of a turn, one by one.
ghost use Rattle.std.specs.Prelude.{◌≡◌, ℕ, ◌%◌, ◌^◌, ◌<◌, [], ◌∷◌, None};
ghost use mathlib.Core.List.{IsPrefix};
ghost use Rattle.caf_seatlock.specs.declared.view.Standing.TheVariants.{Away, Waiting, Served};
ghost use Rattle.caf_seatlock.specs.Told.{Gets};
ghost use Rattle.caf_seatlock.specs.Passes.{first_of};

use super::{Place, SeatLock};
use crate::keeps::Keeps;
use crate::moves::{Draw, Look, PassOn};
use std::sync::Wait;

// The word with the number of tickets that were drawn.
const DRAWN: usize = 0;

// The word with the number of tickets that were served, which is the number of the ticket whose turn it is.
const SERVED: usize = 1;

impl<W: Keeps> SeatLock<W> {
    // Draws a ticket.
    pub(super) fn draw(&self, seat: &mut Place<W>) -> u64
        requires own { seat.old.table_id ≡ self.now.table.shared.table_id }
        requires away { seat.old.me.0.standing ≡ Away }
        requires some_seat { 0 < seat.old.me.0.seats }
        ensures same { (seat.new.table_id ≡ seat.old.table_id) × (seat.new.me.1 ≡ seat.old.me.1) }
        ensures drew { (t : ℕ) × (result ≡ t % 2 ^ 64) × (seat.new.me.0 ≡ record seat.old.me.0 { standing = Waiting t }) }
    {
        self.table.shared.fetch_add::<Draw>(seat, DRAWN, 1)
    }

    // Waits for the turn of the ticket. Then the seat has the slot with the value.
    pub(super) fn await_turn<R: Wait>(&self, rt: &R, seat: &mut Place<W>, ticket: u64)
        requires own { seat.old.table_id ≡ self.now.table.shared.table_id }
        requires drawn { (t : ℕ) × (ticket ≡ t % 2 ^ 64) × (seat.old.me.0.standing ≡ Waiting t) }
        ensures same { seat.new.table_id ≡ seat.old.table_id }
        ensures gets { (t : ℕ) × Gets W.entries W.fixed seat.old.me t seat.new.me }
    {
        for _ in rt.forever() {
            let served = self.table.shared.load::<Look>(seat, SERVED);
            if served == ticket {
                return;
            }
            self.table
                .shared
                .park(rt, SERVED, (served & 0xffff_ffff) as u32);
        }
        unreachable!()
    }

    // Puts the value into the slot, and serves the next ticket.
    pub(super) fn put_back(&self, seat: &mut Place<W>, value: W)
        requires own { seat.old.table_id ≡ self.now.table.shared.table_id }
        requires turn { (t : ℕ) × (seat.old.me.0.standing ≡ Served t) }
        requires hand { seat.old.me.1 ≡ (0, None) ∷ [] }
        requires longer { IsPrefix seat.old.me.0.seen (W.entries value) }
        requires fixed { W.fixed value ≡ W.fixed (first_of self.now) }
        ensures same { (seat.new.table_id ≡ seat.old.table_id) × (seat.new.me.1 ≡ []) }
        ensures gave { seat.new.me.0 ≡ record seat.old.me.0 { standing = Away; seen = W.entries value } }
    {
        match self.table.shared.exchange(seat, 0, Some(value)) {
            None => {}
            Some(_) => unreachable!(),
        }
        self.table.shared.fetch_add::<PassOn>(seat, SERVED, 1);
        self.table.shared.wake_all(SERVED);
    }
}
