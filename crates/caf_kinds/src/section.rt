ghost use Rattle.std.specs.Prelude.{◌≡◌};
ghost use Rattle.caf_declare.specs.Names.{Tells};
ghost use Rattle.caf_kinds.specs.Names.{look};
ghost use Rattle.caf_kinds.specs.Expressions.{place_said};
ghost use Rattle.caf_kinds.specs.Statements.{between as between_meant, elements as elements_meant, place_on, region_of, scalar_region as scalar_region_meant, pointed_section as pointed_section_meant, section_as, section_meant, section_of_kind as of_kind_meant, region_in as region_in_meant, copointer_as, aimed as aimed_meant, wanted};
ghost use Rattle.caf_program.specs.declared.program.ValueKind.TheVariants.{Integer};

use crate::event::{is_shared, place_at};
use crate::expr::{coarray, operand};
use crate::scope::{Scope, look};
use caf_declare::{Rule, Stop, Symbol, broken, is_kind};
use caf_program::{ExprR, PlaceR, RangeR, RegionR, SectionR, ValueKind};
use caf_tree::expr::Expr;
use caf_tree::stmt::{Range, Section};
use std::alloc::Global;

/// A bound of a section, which is an integer.
fn bound(alloc: Global, scope: &Scope, line: u32, name: &str, e: &Expr) -> Result<ExprR, Stop>
    ensures { Tells (wanted scope.now line name.now Integer e.now) result }
{
    operand(alloc, scope, line, name, ValueKind::Integer, e)
}

/// The elements between two bounds, each of which may be missing.
fn between(
    alloc: Global,
    scope: &Scope,
    line: u32,
    name: &str,
    first: &Option<Expr>,
    last: &Option<Expr>,
) -> Result<RangeR, Stop>
    ensures { Tells (between_meant scope.now line name.now first.now last.now) result }
{
    match (first, last) {
        (None, None) => Ok(RangeR::All),
        (Some(first), None) => Ok(RangeR::From(bound(alloc, scope, line, name, first)?)),
        (None, Some(last)) => Ok(RangeR::UpTo(bound(alloc, scope, line, name, last)?)),
        (Some(first), Some(last)) => {
            let first = bound(alloc, scope, line, name, first)?;
            let last = bound(alloc, scope, line, name, last)?;
            Ok(RangeR::Between(first, last))
        }
    }
}

/// The elements of a section.
fn elements(
    alloc: Global,
    scope: &Scope,
    line: u32,
    name: &str,
    range: &Range,
) -> Result<RangeR, Stop>
    ensures { Tells (elements_meant scope.now line name.now range.now) result }
{
    match range {
        Range::Whole => Ok(RangeR::All),
        Range::Element(index) => Ok(RangeR::Cell(bound(alloc, scope, line, name, index)?)),
        Range::Between(first, last) => between(alloc, scope, line, name, first, last),
    }
}

/// The place of a section, if there is one.
fn section_place(
    alloc: Global,
    scope: &Scope,
    line: u32,
    c: &Section,
) -> Result<Option<PlaceR<ExprR>>, Stop>
    ensures { Tells (place_on scope.now line c.now.name (look scope.now c.now.name) (place_said scope.now line c.now.place)) result }
{
    match &c.place {
        None => Ok(None),
        Some(at) => {
            let place = place_at(alloc, scope, line, c.name.as_str(), &at.rank, &at.team)?;
            Ok(Some(place))
        }
    }
}

/// Elements of an object.
fn region(
    alloc: Global,
    scope: &Scope,
    line: u32,
    kind: ValueKind,
    object: u32,
    c: &Section,
) -> Result<(ValueKind, SectionR), Stop>
    ensures { Tells (region_of scope.now line kind object c.now) result }
{
    let range = elements(alloc, scope, line, c.name.as_str(), &c.range)?;
    let place = section_place(alloc, scope, line, c)?;
    let region = RegionR {
        object,
        range,
        place,
    };
    Ok((kind, SectionR::Region(region)))
}

/// A section of a scalar, which is the scalar.
fn scalar_region(
    alloc: Global,
    scope: &Scope,
    line: u32,
    kind: ValueKind,
    object: u32,
    c: &Section,
) -> Result<(ValueKind, SectionR), Stop>
    ensures { Tells (scalar_region_meant scope.now line kind object c.now c.now.range) result }
{
    match &c.range {
        Range::Whole => region(alloc, scope, line, kind, object, c),
        _ => Err(broken(alloc, Rule::WrongKind, line, c.name.as_str())),
    }
}

/// A section by a copointer, which has no place.
fn pointed_section(
    alloc: Global,
    scope: &Scope,
    line: u32,
    kind: ValueKind,
    copointer: u32,
    c: &Section,
) -> Result<(ValueKind, SectionR), Stop>
    ensures { Tells (pointed_section_meant scope.now line kind copointer c.now) result }
{
    let range = elements(alloc, scope, line, c.name.as_str(), &c.range)?;
    match &c.place {
        None => Ok((kind, SectionR::Pointed(copointer, range))),
        Some(_) => Err(broken(alloc, Rule::NotCoarray, line, c.name.as_str())),
    }
}

/// A section of a variable of the main program, or by a copointer.
pub fn section(
    alloc: Global,
    scope: &Scope,
    line: u32,
    c: &Section,
) -> Result<(ValueKind, SectionR), Stop>
    ensures { Tells (section_meant scope.now line c.now) result }
{
    match look(scope, c.name.as_str()) {
        None => Err(broken(alloc, Rule::Undeclared, line, c.name.as_str())),
        Some(Symbol::Scalar { kind, object, .. }) => {
            scalar_region(alloc, scope, line, kind, object, c)
        }
        Some(Symbol::Array { kind, object, .. }) => region(alloc, scope, line, kind, object, c),
        Some(Symbol::Copointer { kind, object }) => {
            pointed_section(alloc, scope, line, kind, object, c)
        }
        Some(Symbol::Local { .. }) => {
            Err(broken(alloc, Rule::NotCoarray, line, c.name.as_str()))
        }
        Some(_) => Err(broken(alloc, Rule::WrongKind, line, c.name.as_str())),
    }
}

/// A section that has the kind that is wanted.
pub fn of_kind(
    alloc: Global,
    line: u32,
    name: &str,
    kind: ValueKind,
    found: (ValueKind, SectionR),
) -> Result<SectionR, Stop>
    ensures { Tells (of_kind_meant line name.now kind found) result }
{
    let (found, section) = found;
    if is_kind(found, kind) {
        Ok(section)
    } else {
        Err(broken(alloc, Rule::WrongKind, line, name))
    }
}

/// A region, which a copointer aims at.
fn region_in(alloc: Global, line: u32, name: &str, section: SectionR) -> Result<RegionR, Stop>
    ensures { Tells (region_in_meant line name.now section) result }
{
    match section {
        SectionR::Region(region) => Ok(region),
        SectionR::Pointed(_, _) => Err(broken(alloc, Rule::NotCoarray, line, name)),
    }
}

/// The name before `=>` is a copointer.
pub fn copointer(
    alloc: Global,
    line: u32,
    name: &str,
    symbol: Option<Symbol>,
) -> Result<(ValueKind, u32), Stop>
    ensures { Tells (copointer_as line name.now symbol) result }
{
    match symbol {
        None => Err(broken(alloc, Rule::Undeclared, line, name)),
        Some(Symbol::Copointer { kind, object }) => Ok((kind, object)),
        Some(_) => Err(broken(alloc, Rule::WrongKind, line, name)),
    }
}

/// What a copointer of a kind aims at: a section of a coarray of its own kind.
pub fn aimed(
    alloc: Global,
    scope: &Scope,
    line: u32,
    kind: ValueKind,
    c: &Section,
) -> Result<RegionR, Stop>
    ensures { Tells (aimed_meant scope.now line kind c.now) result }
{
    let name = c.name.as_str();
    let found = section(alloc, scope, line, c)?;
    coarray(alloc, line, name, is_shared(look(scope, name)))?;
    let section = of_kind(alloc, line, name, kind, found)?;
    region_in(alloc, line, name, section)
}
