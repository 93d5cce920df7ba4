//! What the implicit copies of each task still have to do at the task's own image.

ghost use Rattle.std.specs.Prelude.{◌≡◌, ℕ, ◌+◌, ◌-◌, ◌<◌, ◌^◌, OnOk};
ghost use Rattle.caf_pending.specs.Open.{none_open, HasRoom, one_if, reads_of, writes_of};

use crate::access::Accesses;
use crate::tally::Tally;
use caf_base::{FenceClear, Memory};
use std::alloc::Global;

/// How many implicit copies of each task have an open read, and how many an open write, at the task's own image. A task
/// is told by its image and its number there.
#[derive(Drop)]
pub(crate) struct Open {
    pub reads: Tally,
    pub writes: Tally,
}

impl Open {
    /// No task has any.
    pub(crate) fn new(alloc: Global) -> Open
        ensures reads { (k : ℕ × ℕ) → reads_of result k ≡ 0 }
        ensures writes { (k : ℕ × ℕ) → writes_of result k ≡ 0 }
    {
        Open {
            reads: Tally::new(alloc),
            writes: Tally::new(alloc),
        }
    }

    /// Makes room for the accesses of one operation. On a refusal the counts stay.
    pub(crate) fn reserve(&mut self) -> Result<(), Memory>
        ensures reads { (k : ℕ × ℕ) → reads_of self.new k ≡ reads_of self.old k }
        ensures writes { (k : ℕ × ℕ) → writes_of self.new k ≡ writes_of self.old k }
        ensures room { OnOk result (HasRoom self.new) }
    {
        self.reads.reserve()?;
        self.writes.reserve()?;
        Ok(())
    }

    /// A task has these accesses more.
    pub(crate) fn add(&mut self, task: (u32, u32), more: Accesses)
        requires room { HasRoom self.old }
        requires few_reads { reads_of self.old task + 1 < 2 ^ 64 }
        requires few_writes { writes_of self.old task + 1 < 2 ^ 64 }
        ensures reads { (k : ℕ × ℕ) → reads_of self.new k ≡ reads_of self.old k + one_if more.reads task k }
        ensures writes { (k : ℕ × ℕ) → writes_of self.new k ≡ writes_of self.old k + one_if more.writes task k }
    {
        if more.reads {
            self.reads.add(task);
        }
        if more.writes {
            self.writes.add(task);
        }
    }

    /// A task has done these accesses.
    pub(crate) fn take(&mut self, task: (u32, u32), done: Accesses)
        ensures reads { (k : ℕ × ℕ) → reads_of self.new k ≡ reads_of self.old k - one_if done.reads task k }
        ensures writes { (k : ℕ × ℕ) → writes_of self.new k ≡ writes_of self.old k - one_if done.writes task k }
    {
        if done.reads {
            self.reads.take(task);
        }
        if done.writes {
            self.writes.take(task);
        }
    }

    /// Whether a task has no open read, and whether it has no open write.
    pub(crate) fn clear(&self, task: (u32, u32)) -> FenceClear
        ensures { result ≡ none_open self.now task }
    {
        FenceClear {
            reads: self.reads.count(task) == 0,
            writes: self.writes.count(task) == 0,
        }
    }
}
