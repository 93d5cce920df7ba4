ghost use Rattle.std.specs.Prelude.{◌≡◌, [], ◌∷◌, ◌++◌, OnOk, OnErr};
ghost use Rattle.std.specs.List.{list_any};
ghost use Rattle.caf_base.specs.FinishRef.{encloses};
ghost use Rattle.caf_history.specs.Finishes.{count_finishes, is_program_finish};

use crate::index::Index;
use caf_base::{FinishRef, Memory, Team};
use std::alloc::Global;
use std::marker::Model;

/// The finishes that a main task has left. Contracts see the list of them, in the order in which they were left.
#[derive(Drop)]
pub struct FinishesLeft {
    alloc: Global,
    all: Vec<FinishRef>,
    index: Index,
}

impl Model for FinishesLeft {
    ghost use Rattle.std.specs.Prelude.{List};
    ghost use Rattle.caf_base.specs.declared.team.FinishRef.{FinishRef};
    ghost use Rattle.caf_history.specs.Kept.{FinishesKept};

    ghost Value = { List FinishRef };

    ghost view = { λ a. a.all.items };

    ghost invariant = { FinishesKept };
}

impl FinishesLeft {
    /// None. It takes no memory.
    pub fn new(alloc: Global) -> FinishesLeft
        ensures { result ≡ [] }
    {
        FinishesLeft {
            alloc,
            all: Vec::new(alloc),
            index: Index::new(alloc),
        }
    }

    /// Puts a finish at the end, in amortised constant time on average in the number of finishes. On a refusal, where
    /// memory is wanting, they are as before.
    pub fn push(&mut self, finish: FinishRef) -> Result<(), Memory>
        ensures ok { OnOk result (self.new ≡ self.old ++ finish ∷ []) }
        ensures err { OnErr result (self.new ≡ self.old) }
    {
        self.all.reserve(1)?;
        let place = self.all.len();
        let path = finish.team.path.as_slice();
        self.index
            .add(self.alloc, path, finish.number, finish.number != 0, place)?;
        self.all.push(finish).unwrap();
        Ok(())
    }

    /// Whether a finish of this name is among them, in constant time on average in their number.
    pub fn has(&self, finish: &FinishRef) -> bool
        ensures { result ≡ encloses finish.now self.now }
    {
        self.index
            .first(finish.team.path.as_slice(), finish.number)
            .is_some()
    }

    /// Whether the program's finish is among them, in constant time on average in their number.
    pub fn has_program(&self) -> bool
        ensures { result ≡ list_any is_program_finish self.now }
    {
        self.index.first(&[], 0).is_some()
    }

    /// How many of them are of a team, the program's finish apart, in constant time on average in their number.
    pub fn count(&self, team: &Team) -> usize
        ensures { result ≡ count_finishes team.now self.now }
    {
        self.index.count(team.path.as_slice())
    }
}
