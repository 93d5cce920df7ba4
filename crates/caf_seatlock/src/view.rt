//! What each pass knows, and the rule that all passes keep together. No value of these types lies in memory.
ghost use Rattle.std.specs.Prelude.{List};

use crate::keeps::Keeps;
use atomic_table::TableRule;
use caf_journal::Entry;
use std::collections::LinkedList;
use std::snapshot::Snapshot;

/// Where a pass stands in the line for the value. Tickets are numbered from 0.
pub enum Standing {
    /// Not in the line.
    Away,
    /// With this ticket, before its turn.
    Waiting(u64),
    /// With this ticket, in its turn.
    Served(u64),
}

/// What a pass knows.
pub struct View<W> {
    pub standing: Standing,
    /// How many passes it can become.
    pub seats: u32,
    /// The list that it has seen.
    pub seen: LinkedList<Entry>,
    /// The list that a pass had seen which it has just taken in.
    pub joined: LinkedList<Entry>,
    /// The value with which the lock began; nothing for a pass that was taken in.
    pub first: Option<W>,
}

/// How a lock began: with this value, and so many seats.
#[derive(Drop)]
pub struct Beginning<W> {
    pub value: Snapshot<W>,
    pub seats: u32,
}

/// The rule of the lock: one turn after the other.
pub struct InTurns;

impl<W: Keeps> TableRule<Option<W>, View<W>, Beginning<W>> for InTurns {
    ghost use Rattle.caf_seatlock.specs.Rule.{Kept, view};
    ghost use Rattle.caf_seatlock.specs.declared.view.Standing.TheVariants.{Away};
    ghost use Rattle.std.specs.Prelude.{[], Some};

    ghost holds = { λ b. Kept W.entries W.fixed (W.fixed b.value.value) b.seats };

    ghost first = { λ b. view Away b.seats (W.entries b.value.value) [] (Some b.value.value) };
}
