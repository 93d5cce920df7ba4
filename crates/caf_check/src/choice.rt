ghost use Rattle.std.specs.Prelude.{◌≡◌};
ghost use Rattle.caf_check.specs.Checked.{listed};
ghost use Rattle.caf_check.specs.Choices.{choice_of as choices};

use caf_journal::Entry;
use caf_source::Choice;

/// The choice of an entry; none of an entry of the protocol. Of a touch the operation alone counts.
pub fn choice_of(entry: Entry) -> Option<Choice>
    ensures { listed result ≡ choices entry }
{
    match entry {
        Entry::Step(image, task) => Some(Choice::Step(image, task)),
        Entry::Touch(_, operation, _) => Some(Choice::Touch(operation)),
        Entry::Part(image) => Some(Choice::Part(image)),
        Entry::Leave(image) => Some(Choice::Leave(image)),
        Entry::Ack(..) => None,
        Entry::Return(..) => None,
        Entry::Offer(..) => None,
        Entry::Contribute(..) => None,
        Entry::Relay(..) => None,
        Entry::Result(..) => None,
    }
}
