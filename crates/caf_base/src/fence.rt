ghost use Rattle.std.specs.Prelude.{◌≡◌};
ghost use Rattle.caf_base.specs.Fence.{passes};

/// Which local accesses of the task's implicit copies a `cofence` lets stay open.
#[derive(Clone, Copy, Debug, PartialEq, Eq)]
pub enum Down {
    Nothing,
    /// Reads of a source.
    Read,
    /// Writes of a destination.
    Write,
    Any,
}

/// What a task's implicit copies have done of their accesses to its own image.
#[derive(Clone, Copy, Debug, PartialEq, Eq)]
pub struct FenceClear {
    /// None has an open read of a source.
    pub reads: bool,
    /// None has an open write of a destination.
    pub writes: bool,
}

impl FenceClear {
    /// Whether a `cofence` of a class may be passed.
    pub fn lets_pass(self, down: Down) -> bool
        ensures { result ≡ passes down self }
    {
        match down {
            Down::Nothing => self.reads && self.writes,
            Down::Read => self.writes,
            Down::Write => self.reads,
            Down::Any => true,
        }
    }
}
