ghost use Rattle.std.specs.Prelude.{◌≡◌, ℕ, ℤ, List, OnOk, OnErr, None};

use crate::group::Group;
use caf_base::Memory;
use indexmap::IndexMap;
use std::alloc::Global;

/// Names by their paths and numbers: how many of a path count, and where the first of each number stands.
#[derive(Drop)]
pub struct Index {
    pub groups: IndexMap<Vec<(u32, i64)>, Group>,
}

impl Index {
    ghost use Rattle.caf_history.specs.Index.{Gains, Keeps, count_at, first_at, group_of};

    /// No names. It takes no memory.
    pub fn new(alloc: Global) -> Index
        ensures { (p : List (ℕ × ℤ)) → group_of result p ≡ None }
    {
        Index {
            groups: IndexMap::new(alloc),
        }
    }

    /// How many names of a path count. It takes constant time on average in the number of names.
    pub fn count(&self, path: &[(u32, i64)]) -> usize
        ensures { result ≡ count_at self.now path.now }
    {
        match self.groups.get(path) {
            Some(group) => group.count,
            None => 0,
        }
    }

    /// The place of the first name of a path and a number. It takes constant time on average in the number of names.
    pub fn first(&self, path: &[(u32, i64)], number: u32) -> Option<usize>
        ensures { result ≡ first_at self.now path.now number }
    {
        let group = self.groups.get(path)?;
        group.firsts.get(&number).copied()
    }

    /// Takes in a name, in constant time on average in the number of names. On a refusal, where memory is wanting, the
    /// index says what it said.
    pub fn add(
        &mut self,
        alloc: Global,
        path: &[(u32, i64)],
        number: u32,
        counted: bool,
        place: usize,
    ) -> Result<(), Memory>
        ensures ok { OnOk result (Gains path.now number counted place self.old self.new) }
        ensures err { OnErr result (Keeps self.old self.new) }
    {
        match self.groups.get_mut(path) {
            Some(group) => group.add(number, counted, place),
            None => self.add_group(alloc, path, number, counted, place),
        }
    }

    /// Takes in the first name of a path.
    fn add_group(
        &mut self,
        alloc: Global,
        path: &[(u32, i64)],
        number: u32,
        counted: bool,
        place: usize,
    ) -> Result<(), Memory>
        requires { group_of self.old path.now ≡ None }
        ensures ok { OnOk result (Gains path.now number counted place self.old self.new) }
        ensures err { OnErr result (Keeps self.old self.new) }
    {
        let group = Group::with(alloc, number, counted, place)?;
        let key = Vec::from_slice(alloc, path)?;
        self.groups.insert(key, group)?;
        Ok(())
    }
}
