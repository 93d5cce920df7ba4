ghost use Rattle.std.specs.Prelude.{◌≡◌, ◌≤◌, ◌<◌, List, ℕ, length, IfOk, OnOk, IsErrOf, Option};
ghost use Rattle.caf_outside.specs.Causes.{HasCause, HasLoadCause};
ghost use Rattle.caf_outside.specs.Texts.{Texts, Has, KeepsOthers};

use crate::{Failed, LoadFail};
use std::alloc::Global;

/// Texts under names, as files are.
pub trait Host {
    /// The text of each name, where the host tells it.
    ghost texts: { Self → Option Texts };

    /// How often a load of this name failed.
    ghost load_faults: { Self → List ℕ → ℕ };

    /// How often a save failed.
    ghost save_faults: { Self → ℕ };

    /// The bytes of a name, of which there may be at most `limit`.
    fn load(&mut self, alloc: Global, name: &str, limit: usize) -> Result<Vec<u8>, LoadFail>
        ensures bytes { IfOk result (λ bytes. Has (texts self.old) name.now (λ held. bytes.items ≡ held)) }
        ensures within { IfOk result (λ bytes. length bytes.items ≤ limit) }
        ensures too_long { IsErrOf result LoadFail.TooLong → Has (texts self.old) name.now (λ held. limit < length held) }
        ensures kept { texts self.new ≡ texts self.old }
        ensures cause { HasLoadCause (load_faults self.old) (load_faults self.new) name.now result }
        ensures saves { save_faults self.new ≡ save_faults self.old };

    /// Makes the name hold the bytes. After a failure what the name holds isn't told.
    fn save(&mut self, name: &str, bytes: &[u8]) -> Result<(), Failed>
        ensures held { OnOk result (Has (texts self.new) name.now (λ held. held ≡ bytes.now)) }
        ensures others { KeepsOthers (texts self.old) (texts self.new) name.now }
        ensures cause { HasCause (save_faults self.old) (save_faults self.new) result }
        ensures loads { (other : List ℕ) → load_faults self.new other ≡ load_faults self.old other };
}
