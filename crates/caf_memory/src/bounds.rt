ghost use Rattle.std.specs.Prelude.{◌≡◌, slice_get};
ghost use Rattle.caf_base.specs.Element.{has_index as has, offset_of as offset};
ghost use Rattle.caf_memory.specs.Bounds.{section_trap, is_inside as lies_inside, has_span as spans};

use caf_base::{Object, Trap};

// The object at a place.
pub fn object_at(objects: &[Object], object: u32) -> Option<Object>
    ensures { result ≡ slice_get objects.now object }
{
    objects.get(object as usize).copied()
}

// Whether the object has an element at the index.
pub fn has_index(object: Object, index: i64) -> bool
    ensures { result ≡ has object index }
{
    if index < object.lower {
        return false;
    }
    index.abs_diff(object.lower) < u64::from(object.extent)
}

// The place, from 0, of the element at an index.
pub fn offset_of(object: Object, index: i64) -> usize
    ensures { result ≡ offset object index }
{
    index.abs_diff(object.lower) as usize
}

// The tests of a section of so many elements.
pub fn test_section(object: Option<Object>, from: i64, extent: usize) -> Result<(), Trap>
    ensures { result ≡ section_trap object from extent }
{
    if !is_inside(object, from, extent) {
        return Err(Trap::Index);
    }
    if extent > 256 {
        return Err(Trap::Section);
    }
    Ok(())
}

// Whether a section is empty or lies in its object.
fn is_inside(object: Option<Object>, from: i64, extent: usize) -> bool
    ensures { result ≡ lies_inside object from extent }
{
    match object {
        Some(object) => extent == 0 || has_span(object, from, extent),
        None => extent == 0,
    }
}

// Whether the elements from an index on, so many, are all the object's.
fn has_span(object: Object, from: i64, extent: usize) -> bool
    ensures { result ≡ spans object from extent }
{
    if from < object.lower {
        return false;
    }
    let before = from.abs_diff(object.lower);
    let whole = u64::from(object.extent);
    if whole < before {
        return false;
    }
    extent as u64 <= whole - before
}
