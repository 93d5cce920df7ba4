ghost use Rattle.std.specs.Prelude.{◌≡◌, ◌≤◌, length, vec_capacity};
ghost use Rattle.std.specs.Option.{option_copied};
ghost use Rattle.caf_outside.specs.Held.{text_of};

use caf_base::Sequence;

/// A text under its name.
#[derive(Drop)]
pub(crate) struct Held {
    pub(crate) name: Sequence<u8>,
    pub(crate) bytes: Sequence<u8>,
}

/// The text under a name among these, the newest of that name.
#[tactic(auto, using(crate::proofs::Named::text_of_more))]
pub(crate) fn newest<'a>(held: &'a [Held], name: &[u8]) -> Option<&'a [u8]>
    ensures { option_copied result ≡ text_of held.now name.now }
{
    let mut found = None;
    for entry in held {
        if entry.name.as_slice() == name {
            found = Some(entry.bytes.as_slice());
        }
    }
    found
}
