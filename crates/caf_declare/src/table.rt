ghost use Rattle.std.specs.Prelude.{◌≡◌, [], IfOk, not, if◌then◌else◌, ◌++◌, ◌∷◌, is_some};
ghost use Rattle.caf_declare.specs.Table.{found};

use caf_base::Memory;
use indexmap::IndexMap;
use std::alloc::Global;
use std::marker::Model;

/// Names, each with what stands under it, in the order in which they came.
#[derive(Drop)]
pub struct Table<T> {
    map: IndexMap<String, T>,
}

impl<T> Model for Table<T> {
    ghost use Rattle.std.specs.Prelude.{List, ℕ};
    ghost use Rattle.std.specs.Coded.{coded_list, coded×, coded_ℕ};
    ghost use Rattle.caf_declare.specs.Table.{as_bytes};

    ghost Value = { List (List ℕ × T) };

    ghost coded = { coded_list (coded× (coded_list coded_ℕ) T.code) };

    ghost view = { λ t. as_bytes t.map.entries };
}

impl<T: Drop + Copy> Table<T> {
    /// No names.
    pub fn new(alloc: Global) -> Table<T>
        ensures { result ≡ [] }
    {
        Table {
            map: IndexMap::new(alloc),
        }
    }

    /// What stands under a name, if it is there.
    pub fn look(&self, name: &str) -> Option<T>
        ensures { result ≡ found self.now name.now }
    {
        self.map.get(name).copied()
    }

    /// Puts something under a new name; false, and nothing is changed, where the name is there.
    pub fn add(&mut self, alloc: Global, name: &str, item: T) -> Result<bool, Memory>
        ensures { IfOk result (λ new. (is_some (found self.old name.now) ≡ not new) × (self.new ≡ (if new then self.old ++ (name.now, item) ∷ [] else self.old))) }
    {
        if self.map.contains_key(name) {
            return Ok(false);
        }
        let key = String::from_str(alloc, name)?;
        self.map.insert(key, item)?;
        Ok(true)
    }
}
