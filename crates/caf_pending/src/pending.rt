//! All operations that are pending.

ghost use Rattle.std.specs.Prelude.{◌≡◌, ◌<◌, [], OnOk, OnErr, length, slice_get, not};
ghost use Rattle.std.specs.List.{list_all};
ghost use Rattle.std.specs.Option.{option_copied};
ghost use Rattle.caf_base.specs.FinishRef.{encloses as encloses_finish};
ghost use Rattle.indexmap.specs.IndexMap.{get as operation_at, insert_entry, spare};
ghost use Rattle.caf_pending.specs.Kept.{name_key};
ghost use Rattle.caf_pending.specs.Open.{same_key};

use crate::access::{closed, open_accesses};
use crate::finish::encloses;
use crate::open::Open;
use crate::{Operation, operation};
use caf_base::{FenceClear, FinishRef, Memory, OpName, Sequence};
use indexmap::IndexMap;
use std::alloc::Global;
use std::marker::Model;

/// The operations that are pending, no two of one name, as a list whose order has no meaning.
///
/// A call takes constant time on average, however many are pending, where it doesn't say otherwise.
#[derive(Drop)]
pub struct Pending {
    /// By the image of the name and its number.
    operations: IndexMap<(u32, u32), Operation>,
    counts: Open,
}

impl Model for Pending {
    ghost use Rattle.std.specs.Prelude.{List};
    ghost use Rattle.caf_pending.specs.declared.operation.Operation.{Operation};
    ghost use Rattle.indexmap.specs.IndexMap.{values as operations_in};
    ghost use Rattle.caf_pending.specs.Kept.{IsKept};

    ghost Value = { List Operation };

    ghost view = { λ p. operations_in p.operations };

    ghost invariant = { λ p. IsKept p.operations.entries p.counts };
}

/// Inserts an operation under its name, and gives back the one that stood there. There is room for it.
fn insert(
    operations: &mut IndexMap<(u32, u32), Operation>,
    operation: Operation,
) -> Option<Operation>
    requires { 0 < spare operations.old }
    ensures entries { operations.new.entries ≡ insert_entry same_key operations.old.entries (name_key operation) operation }
    ensures old { result ≡ operation_at same_key operations.old (name_key operation) }
{
    let key = (operation.name.image, operation.name.number);
    operations.insert(key, operation).unwrap()
}

impl Pending {
    ghost use Rattle.caf_pending.specs.declared.operation.Operation.{Operation};
    ghost use Rattle.caf_pending.specs.Pending.{clear_of, operation_named, passed_by, with_operation, without};

    /// None are pending. It takes no memory yet.
    pub fn new(alloc: Global) -> Pending
        ensures { result ≡ [] }
    {
        Pending {
            operations: IndexMap::new(alloc),
            counts: Open::new(alloc),
        }
    }

    /// The operation of a name, if it is pending.
    pub fn get(&self, name: OpName) -> Option<&Operation>
        ensures { option_copied result ≡ operation_named name self.now }
    {
        self.operations.get(&(name.image, name.number))
    }

    /// Puts an operation to the others. It takes the place of one of its name, if there is one. `Err` says that there was
    /// no memory, and all stay as they were.
    pub fn put(&mut self, operation: Operation) -> Result<(), Memory>
        ensures ok { OnOk result (self.new ≡ with_operation operation self.old) }
        ensures err { OnErr result (self.new ≡ self.old) }
    {
        // No count is greater than their number.
        let count = self.operations.len();
        prove!(count < usize::MAX);
        self.operations.reserve(1)?;
        self.counts.reserve()?;
        let more = open_accesses(&operation);
        self.counts
            .add((operation.name.image, operation.task), more);
        if let Some(old) = insert(&mut self.operations, operation) {
            self.counts
                .take((old.name.image, old.task), open_accesses(&old));
        }
        Ok(())
    }

    /// Takes the operation of a name off, if it is there. The last takes its place.
    pub fn remove(&mut self, name: OpName)
        ensures { self.new ≡ without name self.old }
    {
        if let Some(old) = self.operations.swap_remove(&(name.image, name.number)) {
            self.counts
                .take((old.name.image, old.task), open_accesses(&old));
        }
    }

    /// A stage of the operation of a name is over, and these values were read in it, if it read. Where there is none of the
    /// name nothing is changed.
    pub fn pass(&mut self, alloc: Global, name: OpName, values: Option<Sequence<i64>>)
        ensures { self.new ≡ passed_by values name self.old }
    {
        if let Some(found) = self.operations.get_mut(&(name.image, name.number)) {
            let before = open_accesses(found);
            operation::pass(alloc, found, values);
            let done = closed(before, open_accesses(found));
            self.counts.take((found.name.image, found.task), done);
        }
    }

    /// What a task's implicit copies have done of their accesses to its own image.
    pub fn clear_of(&self, image: u32, task: u32) -> FenceClear
        ensures { result ≡ clear_of self.now image task }
    {
        self.counts.clear((image, task))
    }

    /// The number of those that are pending.
    pub fn len(&self) -> usize
        ensures { result ≡ length self.now }
    {
        self.operations.len()
    }

    /// The operation at a place, from 0, to go over all.
    pub fn at(&self, place: usize) -> Option<&Operation>
        ensures { option_copied result ≡ slice_get self.now place }
    {
        let (_, operation) = self.operations.get_index(place)?;
        Some(operation)
    }

    /// Whether no operation has a finish of this name in its list. It looks at each operation.
    pub fn encloses_none(&self, finish: &FinishRef) -> bool
        ensures { result ≡ list_all (λ (op : Operation). not (encloses_finish finish.now op.finishes)) self.now }
    {
        self.operations.values().all(|operation| !encloses(finish, operation.finishes.as_slice()))
    }
}
