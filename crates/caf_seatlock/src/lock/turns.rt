//! How a pass takes its turn, and gives it back.
ghost use Rattle.std.specs.Prelude.{◌≡◌, true, false};
ghost use mathlib.Core.List.{IsPrefix};
ghost use Rattle.caf_seatlock.specs.Passes.{first_of, has_turn, seen, seats_of, IsOf};

use super::{Pass, SeatLock};
use crate::keeps::Keeps;
use std::sync::Wait;

impl<W: Keeps> SeatLock<W> {
    /// Waits for its turn, and takes the value. The list of that begins with all that the pass has seen.
    pub fn take<R: Wait>(&self, rt: &R, pass: &mut Pass<W>) -> W
        requires own { IsOf self.now pass.old }
        requires free { has_turn pass.old ≡ false }
        ensures own { IsOf self.now pass.new × (seats_of pass.new ≡ seats_of pass.old) }
        ensures turn { has_turn pass.new ≡ true }
        ensures longer { IsPrefix (seen pass.old) (W.entries result) }
        ensures seen { seen pass.new ≡ W.entries result }
        ensures fixed { W.fixed result ≡ W.fixed (first_of self.now) }
    {
        let ticket = self.draw(&mut pass.seat);
        self.await_turn(rt, &mut pass.seat, ticket);
        match self.table.shared.exchange(&mut pass.seat, 0, None) {
            Some(value) => value,
            None => unreachable!(),
        }
    }

    /// Gives the value back, with what was added to its list, and ends the turn.
    pub fn give(&self, pass: &mut Pass<W>, value: W)
        requires own { IsOf self.now pass.old }
        requires turn { has_turn pass.old ≡ true }
        requires longer { IsPrefix (seen pass.old) (W.entries value) }
        requires fixed { W.fixed value ≡ W.fixed (first_of self.now) }
        ensures own { IsOf self.now pass.new × (seats_of pass.new ≡ seats_of pass.old) }
        ensures free { has_turn pass.new ≡ false }
        ensures seen { seen pass.new ≡ W.entries value }
    {
        self.put_back(&mut pass.seat, value);
    }
}
