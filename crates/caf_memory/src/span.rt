ghost use Rattle.std.specs.Prelude.{◌≡◌, ◌<◌, ◌^◌, ℤ, pos, ◌+ℤ◌, ◌-ℤ◌, ◌≤ℤ◌, ◌<ℤ◌, ◌-◌, ◌⊎◌, ◌&&◌, nat_lt, Ok, Err, IfOk, IfSome};
ghost use Rattle.caf_base.specs.declared.operation.Section.{Section};
ghost use Rattle.caf_base.specs.Places.{ends_of, spanned as spanned_in, span_of as spans, region_span as region_of, bind, limited as limits, pointed_range as points};
ghost use Rattle.caf_base.specs.Arithmetic.{at_least_none};
ghost use Rattle.caf_memory.specs.Placed.{EndsWithin};

use caf_base::{Object, Section, SectionRange, Trap};

// The last index of an object, in exact numbers.
fn last_index(lower: i64, extent: u32) -> i128
    ensures { result ≡ lower +ℤ pos extent -ℤ pos 1 }
{
    i128::from(lower) + i128::from(extent) - 1
}

// The first index that a range names.
fn first_of(lower: i64, range: SectionRange) -> i64
    ensures { (last : ℤ) → result ≡ (ends_of lower last range).0 }
{
    match range {
        SectionRange::All => lower,
        SectionRange::Cell(index) => index,
        SectionRange::Between(from, _) => from,
        SectionRange::From(from) => from,
        SectionRange::UpTo(_) => lower,
    }
}

// The last index that a range names, where the variable ends at `last`.
fn last_of(last: i128, range: SectionRange) -> i128
    ensures { (first : ℤ) → result ≡ (ends_of first last range).1 }
{
    match range {
        SectionRange::All => last,
        SectionRange::Cell(index) => i128::from(index),
        SectionRange::Between(_, to) => i128::from(to),
        SectionRange::From(_) => last,
        SectionRange::UpTo(to) => i128::from(to),
    }
}

// The number of elements from a first index to a last one.
fn length_of(from: i64, to: i128) -> u32
    requires order { from ≤ℤ to }
    requires few { (to -ℤ from) <ℤ pos (2 ^ 32 - 1) }
    ensures { result ≡ at_least_none (to -ℤ from +ℤ pos 1) }
{
    (to - i128::from(from) + 1) as u32
}

// The first index and the length of a section from a first to a last index, of a variable with these bounds.
fn spanned(lower: i64, last: i128, from: i64, to: i128) -> Result<(i64, u32), Trap>
    requires { (last -ℤ lower) <ℤ pos (2 ^ 32 - 1) }
    ensures span { result ≡ spanned_in lower last (from, to) }
    ensures low { IfOk result (λ span. lower ≤ℤ span.0) }
    ensures high { IfOk result (λ span. (span.0 ≤ℤ lower) ⊎ (span.0 ≤ℤ last)) }
{
    if to < i128::from(from) {
        return Ok((lower, 0));
    }
    if from < lower {
        return Err(Trap::Index);
    }
    if last < to {
        return Err(Trap::Index);
    }
    Ok((from, length_of(from, to)))
}

// The first index and the length of a section of a variable with these bounds.
pub fn span_of(lower: i64, extent: u32, range: SectionRange) -> Result<(i64, u32), Trap>
    ensures span { result ≡ spans lower extent range }
    ensures low { IfOk result (λ span. lower ≤ℤ span.0) }
    ensures high { IfOk result (λ span. (span.0 ≤ℤ lower) ⊎ ((span.0 +ℤ pos 1) ≤ℤ (lower +ℤ pos extent))) }
{
    let last = last_index(lower, extent);
    spanned(lower, last, first_of(lower, range), last_of(last, range))
}

// A section of an object before its place is looked at.
fn region_span(object: Option<Object>, range: SectionRange) -> Result<(i64, u32), Trap>
    ensures { result ≡ region_of object range }
{
    match object {
        Some(object) => span_of(object.lower, object.extent, range),
        None => Err(Trap::Index),
    }
}

// Whether a section has too many elements to be copied.
fn is_too_long(copied: bool, extent: u32) -> bool
    ensures { result ≡ (copied && nat_lt 256 extent) }
{
    copied && extent > 256
}

// The first index and the length of a section of an object, after the tests but for its place.
pub fn region(copied: bool, object: Option<Object>, range: SectionRange) -> Result<(i64, u32), Trap>
    ensures { result ≡ bind (region_of object range) (λ span. limits copied span) }
{
    let span = region_span(object, range)?;
    if is_too_long(copied, span.1) {
        return Err(Trap::Section);
    }
    Ok(span)
}

// A section of what a copointer aims at.
pub fn pointed(copied: bool, aim: Option<Section>, range: SectionRange) -> Result<Section, Trap>
    requires { IfSome aim (λ (s : Section). EndsWithin s.from s.extent) }
    ensures { result ≡ points copied aim range }
{
    let Some(aim) = aim else {
        return Err(Trap::Copointer);
    };
    let (from, extent) = span_of(1, aim.extent, range)?;
    if is_too_long(copied, extent) {
        return Err(Trap::Section);
    }
    Ok(moved(aim, from, extent))
}

// So many elements of a section, from an index on that is counted from 1.
pub fn moved(aim: Section, from: i64, extent: u32) -> Section
    requires low { pos 1 ≤ℤ from }
    requires high { (aim.from +ℤ from) ≤ℤ pos (2 ^ 63) }
    ensures { result ≡ record aim { from = aim.from +ℤ from -ℤ pos 1; extent = extent } }
{
    Section {
        from: aim.from + (from - 1),
        extent,
        ..aim
    }
}
