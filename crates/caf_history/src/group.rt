ghost use Rattle.std.specs.Prelude.{◌≡◌, ℕ, IfOk, OnOk, OnErr, Some, None, nat_eq};
ghost use Rattle.std.specs.Option.{option_or};
ghost use Rattle.indexmap.specs.IndexMap.{get};
ghost use Rattle.caf_history.specs.Places.{place_if};

use caf_base::Memory;
use indexmap::IndexMap;
use std::alloc::Global;

/// What an index has of the names of one path.
#[derive(Drop)]
pub struct Group {
    /// How many of them count.
    pub count: usize,
    /// The place of the first of each number.
    pub firsts: IndexMap<u32, usize>,
}

/// Notes a place under a number, unless an earlier one stands there. On a refusal the map says what it said.
pub fn note_first(
    firsts: &mut IndexMap<u32, usize>,
    number: u32,
    place: usize,
) -> Result<(), Memory>
    ensures ok { OnOk result ((k : ℕ) → get nat_eq firsts.new k ≡ option_or (get nat_eq firsts.old k) (place_if (nat_eq number k) place)) }
    ensures err { OnErr result ((k : ℕ) → get nat_eq firsts.new k ≡ get nat_eq firsts.old k) }
{
    if firsts.contains_key(&number) {
        return Ok(());
    }
    firsts.insert(number, place)?;
    Ok(())
}

impl Group {
    ghost use Rattle.caf_history.specs.Index.{Joins, Stays};

    /// A group of one name.
    pub fn with(alloc: Global, number: u32, counted: bool, place: usize) -> Result<Group, Memory>
        ensures { IfOk result (λ group. Joins number counted place None (Some group)) }
    {
        let mut firsts = IndexMap::new(alloc);
        firsts.insert(number, place)?;
        Ok(Group {
            count: usize::from(counted),
            firsts,
        })
    }

    /// Takes in a name of a number. On a refusal, where memory is wanting, the group says what it said.
    pub fn add(&mut self, number: u32, counted: bool, place: usize) -> Result<(), Memory>
        ensures ok { OnOk result (Joins number counted place (Some self.old) (Some self.new)) }
        ensures err { OnErr result (Stays (Some self.old) (Some self.new)) }
    {
        let Some(count) = self.count.checked_add(usize::from(counted)) else {
            return Err(Memory);
        };
        note_first(&mut self.firsts, number, place)?;
        self.count = count;
        Ok(())
    }
}
