ghost use Rattle.std.specs.Prelude.{◌≡◌, ◌<◌};
ghost use Rattle.caf_epochs.specs.Counters.{four_of, in_class};
ghost use Rattle.caf_finish.specs.Account.{one_more, number_of};

use caf_epochs::{Class, Counters};

/// What happens to a message at an image that counts it.
#[derive(Clone, Copy, Debug, PartialEq, Eq)]
pub enum Counted {
    /// The image sends it.
    Sent,
    /// The image, which sent it, hears that it was taken.
    Delivered,
    /// The image takes it.
    Received,
    /// The image has done all that it asks for.
    Completed,
}

impl Counted {
    /// Counts a message of this class.
    pub(crate) fn count(self, counters: &mut Counters, class: Class)
        requires { number_of self (four_of class counters.old) < 4294967295 }
        ensures { counters.new ≡ in_class class (one_more self) counters.old }
    {
        match self {
            Counted::Sent => counters.sent(class),
            Counted::Delivered => counters.delivered(class),
            Counted::Received => counters.received(class),
            Counted::Completed => counters.completed(class),
        }
    }
}
