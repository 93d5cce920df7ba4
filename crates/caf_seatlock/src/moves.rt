//! The steps of the lock, by what each tells the pass that makes it. No value of these types is made.
ghost use Rattle.caf_seatlock.specs.Told.{drew, looked, passed_on, settled, kept_half, new_half, united, spent};

use crate::keeps::Keeps;
use crate::view::View;
use atomic_table::{Join, Play, Split};

/// Draws a ticket.
pub struct Draw;

impl<W> Play<Option<W>, View<W>> for Draw {
    ghost then = { drew };
}

/// Looks which ticket is served, and takes the slot at its own.
pub struct Look;

impl<W: Keeps> Play<Option<W>, View<W>> for Look {
    ghost then = { looked W.entries W.fixed };
}

/// Gives the slot back, and serves the next ticket.
pub struct PassOn;

impl<W: Keeps> Play<Option<W>, View<W>> for PassOn {
    ghost then = { passed_on W.entries };
}

/// Sees one list in place of two, after a pass was taken in.
pub struct Settle;

impl<W> Play<Option<W>, View<W>> for Settle {
    ghost then = { settled };
}

/// Cuts a pass in two.
pub struct Cut;

impl<W> Split<View<W>> for Cut {
    ghost left = { kept_half };

    ghost right = { new_half };
}

/// Takes a pass in.
pub struct Unite;

impl<W> Join<View<W>> for Unite {
    ghost both = { united };

    ghost spent = { spent };
}
