//! Counts under keys.

ghost use Rattle.std.specs.Prelude.{◌≡◌, ℕ, ◌+◌, ◌-◌, ◌<◌, ◌^◌, OnOk};
ghost use Rattle.indexmap.specs.IndexMap.{spare};
ghost use Rattle.caf_pending.specs.Open.{counted, one_at};

use caf_base::Memory;
use indexmap::IndexMap;
use std::alloc::Global;

/// How many there are under each key. A key without any takes no memory.
#[derive(Drop)]
pub(crate) struct Tally {
    pub counts: IndexMap<(u32, u32), usize>,
}

impl Tally {
    /// None under any key.
    pub(crate) fn new(alloc: Global) -> Tally
        ensures { (key : ℕ × ℕ) → counted result key ≡ 0 }
    {
        Tally {
            counts: IndexMap::new(alloc),
        }
    }

    /// How many there are under a key.
    pub(crate) fn count(&self, key: (u32, u32)) -> usize
        ensures { result ≡ counted self.now key }
    {
        match self.counts.get(&key) {
            Some(count) => *count,
            None => 0,
        }
    }

    /// Makes room for one more key. On a refusal the counts stay.
    pub(crate) fn reserve(&mut self) -> Result<(), Memory>
        ensures same { (key : ℕ × ℕ) → counted self.new key ≡ counted self.old key }
        ensures room { OnOk result (0 < spare self.new.counts) }
    {
        self.counts.reserve(1)?;
        Ok(())
    }

    /// One more under a key.
    pub(crate) fn add(&mut self, key: (u32, u32))
        requires room { 0 < spare self.old.counts }
        requires few { counted self.old key + 1 < 2 ^ 64 }
        ensures { (k : ℕ × ℕ) → counted self.new k ≡ counted self.old k + one_at key k }
    {
        let count = self.count(key);
        self.counts.insert(key, count + 1).unwrap();
    }

    /// One less under a key, if there is one.
    pub(crate) fn take(&mut self, key: (u32, u32))
        ensures { (k : ℕ × ℕ) → counted self.new k ≡ counted self.old k - one_at key k }
    {
        let count = self.count(key);
        if count > 1 {
            self.counts.insert(key, count - 1).unwrap();
        } else {
            self.counts.swap_remove(&key);
        }
    }
}
