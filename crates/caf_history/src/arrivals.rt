ghost use Rattle.std.specs.Prelude.{◌≡◌, [], ◌∷◌, ◌++◌, OnOk, OnErr, find, slice_get};
ghost use Rattle.std.specs.Option.{option_copied};

use crate::Arrival;
use crate::index::Index;
use caf_base::{Memory, Team};
use std::alloc::Global;
use std::marker::Model;

/// The splits that a main task has arrived at, those that it has passed among them. Contracts see the list of them, in
/// order.
#[derive(Drop)]
pub struct Arrivals {
    alloc: Global,
    all: Vec<Arrival>,
    index: Index,
}

impl Model for Arrivals {
    ghost use Rattle.std.specs.Prelude.{List};
    ghost use Rattle.caf_history.specs.declared.arrival.Arrival.{Arrival};
    ghost use Rattle.caf_history.specs.Kept.{ArrivalsKept};

    ghost Value = { List Arrival };

    ghost view = { λ a. a.all.items };

    ghost invariant = { ArrivalsKept };
}

impl Arrivals {
    ghost use Rattle.caf_history.specs.Splits.{count_splits, is_split, last_of};

    /// None. It takes no memory.
    pub fn new(alloc: Global) -> Arrivals
        ensures { result ≡ [] }
    {
        Arrivals {
            alloc,
            all: Vec::new(alloc),
            index: Index::new(alloc),
        }
    }

    /// Puts an arrival at the end, in amortised constant time on average in the number of arrivals. On a refusal, where
    /// memory is wanting, they are as before.
    pub fn push(&mut self, arrival: Arrival) -> Result<(), Memory>
        ensures ok { OnOk result (self.new ≡ self.old ++ arrival ∷ []) }
        ensures err { OnErr result (self.new ≡ self.old) }
    {
        self.all.reserve(1)?;
        let place = self.all.len();
        let path = arrival.team.path.as_slice();
        self.index
            .add(self.alloc, path, arrival.number, true, place)?;
        self.all.push(arrival).unwrap();
        Ok(())
    }

    /// How many of them are of a team, in constant time on average in their number.
    pub fn count(&self, team: &Team) -> usize
        ensures { result ≡ count_splits team.now self.now }
    {
        self.index.count(team.path.as_slice())
    }

    /// The arrival at a split of a team, by the split's number, in constant time on average in their number.
    pub fn find(&self, team: &Team, number: u32) -> Option<&Arrival>
        ensures { option_copied result ≡ find (is_split team.now number) self.now }
    {
        let at = self.index.first(team.path.as_slice(), number)?;
        at_place(&self.all, at)
    }

    /// The last one.
    pub fn last(&self) -> Option<&Arrival>
        ensures { option_copied result ≡ last_of self.now }
    {
        self.all.last()
    }
}

fn at_place(all: &Vec<Arrival>, at: usize) -> Option<&Arrival>
    ensures { option_copied result ≡ slice_get all.now.items at }
{
    all.get(at)
}
