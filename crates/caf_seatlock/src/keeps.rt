//! What a lock has to know of its value.
ghost use Rattle.std.specs.Prelude.{List};

/// A value with a list of journal entries, and a part that stays as it is while the list grows.
pub trait Keeps {
    ghost use Rattle.caf_journal.specs.declared.entry.Entry.{Entry};

    // What the part that stays is worth.
    ghost Fixed: { Type 0 };

    // The list.
    ghost entries: { Self → List Entry };

    // The part that stays.
    ghost fixed: { Self → Fixed };
}
