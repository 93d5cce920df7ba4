//! The lock and its passes.
ghost use Rattle.std.specs.Prelude.{◌≡◌};
ghost use Rattle.caf_seatlock.specs.Hands.{InOrder};

use crate::keeps::Keeps;
use crate::view::{Beginning, InTurns, View};
use atomic_table::{Seat, Table};
use std::alloc::Global;

mod passes;
mod steps;
mod turns;

/// Keeps one value, which one pass at a time can take.
///
/// Its table has two words, how many tickets were drawn and how many were served, both modulo 2^64, and one slot with
/// the value, which is empty in a turn.
#[derive(Drop)]
pub struct SeatLock<W: Keeps> {
    table: Table<Option<W>, View<W>, Beginning<W>, InTurns, Global>,
    ghost sized: { (table.shared.table_id.words ≡ 2) × (table.shared.table_id.slots ≡ 1) },
}

/// The right to take turns at a lock. It has a number of seats, and can become as many passes.
///
/// A pass that is dropped takes its seats along, so that its lock can't be closed any more. One that is dropped in its
/// turn takes the turn along.
#[derive(Drop)]
pub struct Pass<W> {
    seat: Place<W>,
    seats: u32,
    ghost in_order: { InOrder seats seat.me },
}

type Place<W> = Seat<Option<W>, View<W>>;
