ghost use Rattle.std.specs.Prelude.{◌≤◌, ◌<◌, List, ℕ, length, IfOk, Option};
ghost use Rattle.std.specs.Io.KnownBytes.{WriteAppends};
ghost use Rattle.caf_outside.specs.Causes.{HasCause};

use crate::Failed;

/// A device that takes bytes.
pub trait Sink {
    /// The bytes taken, where the sink tells them.
    ghost taken: { Self → Option (List ℕ) };

    /// How often a write failed.
    ghost faults: { Self → ℕ };

    /// Takes some of the piece from its front, and answers how much: at least a byte, unless the piece is empty.
    /// A write that fails takes nothing.
    fn write(&mut self, piece: &[u8]) -> Result<usize, Failed>
        ensures bytes { WriteAppends (taken self.old) (taken self.new) result piece.now }
        ensures within { IfOk result (λ count. count ≤ length piece.now) }
        ensures some { IfOk result (λ count. 0 < length piece.now → 0 < count) }
        ensures cause { HasCause (faults self.old) (faults self.new) result };
}
