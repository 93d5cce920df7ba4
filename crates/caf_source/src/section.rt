//! The accesses of a copy to an image's memory.

ghost use Rattle.std.specs.Prelude.{◌≡◌, IfOk, [], slice_index_or, take, drop};
ghost use Rattle.caf_base.specs.Sections.{section_values as values_of};
ghost use Rattle.caf_memory.specs.Bounds.{has_cells as holds_cells};
ghost use Rattle.caf_source.specs.Stages.{memory_stored};
ghost use Rattle.caf_source.specs.Taken.{with_taken, CanTake};

use caf_base::{EventAt, Kind, Memory, Object, Section, Sequence};
use caf_memory::ImageMemory;
use std::alloc::Global;

/// A post that is taken from an event.
#[derive(Clone, Copy, Debug)]
pub struct Taken {
    pub event: EventAt,
    /// How many posts are left.
    pub left: u32,
}

/// The cells of an object.
fn row_of(cells: &[Sequence<i64>], object: u32) -> &[i64]
    ensures { result.now ≡ slice_index_or cells.now object [] }
{
    match cells.get(object as usize) {
        Some(row) => row.as_slice(),
        None => &[],
    }
}

/// So many numbers from a place on, or fewer where the row ends.
fn part(row: &[i64], from: usize, count: usize) -> &[i64]
    ensures { result.now ≡ take count (drop from row.now) }
{
    if row.len() <= from {
        return &[];
    }
    let rest = &row[from..];
    if rest.len() <= count {
        rest
    } else {
        &rest[..count]
    }
}

/// The numbers in a section.
pub(crate) fn section_values(
    alloc: Global,
    memory: &ImageMemory,
    section: Section,
) -> Result<Sequence<i64>, Memory>
    ensures { IfOk result (λ values. values ≡ values_of memory.now section) }
{
    let Some(object) = memory.object(section.object) else {
        return Ok(Sequence::new(alloc));
    };
    let row = row_of(memory.cells(), section.object);
    let from = section.from.abs_diff(object.lower) as usize;
    Sequence::from_slice(alloc, part(row, from, section.extent as usize))
}

/// Whether an object has cells.
fn has_cells(object: Object) -> bool
    ensures { result ≡ holds_cells object.kind }
{
    match object.kind {
        Kind::Integer => true,
        Kind::Logical => true,
        Kind::Event => false,
        Kind::Team => false,
        Kind::CoInteger => false,
        Kind::CoLogical => false,
    }
}

/// Puts numbers in a section. One that leaves its object stays as it is.
#[tactic(auto, using(crate::proofs::Written::same_section))]
pub(crate) fn write_section(memory: &mut ImageMemory, section: Section, values: &[i64])
    ensures { memory.new ≡ memory_stored memory.old section values.now }
{
    let Some(object) = memory.object(section.object) else {
        return;
    };
    if has_cells(object) {
        let _kept = memory.write_section(section.object, section.from, values);
    }
}

/// Takes a post of an event, if one is to be taken.
pub(crate) fn take_post(memory: &mut ImageMemory, taken: Option<Taken>)
    requires { CanTake taken memory.old }
    ensures { memory.new ≡ with_taken taken memory.old }
{
    if let Some(taken) = taken {
        let _kept = memory.set_posts(taken.event.object, taken.event.index, taken.left);
    }
}
