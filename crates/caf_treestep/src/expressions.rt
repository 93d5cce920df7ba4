//! The expressions of a statement in written order, without those of the statements in its blocks.

ghost use Rattle.std.specs.Prelude.{◌≡◌, ◌++◌, [], ◌∷◌, IfOk, OnOk, map};
ghost use Rattle.std.specs.List.{flat_map};
ghost use Rattle.caf_program.specs.Expressions.{expressions as expressions_of, of_actual, of_copy_event, of_done, of_event, of_part, of_place, of_range, of_region, of_section, of_variable};

use caf_base::Memory;
use caf_program::{
    ActualR, CopyEventR, EventR, ExprR, PlaceR, PrintR, RangeR, RegionR, SectionR, StmtR, VariableR,
};
use std::alloc::Global;

fn add<'a>(all: &mut Vec<&'a ExprR>, e: &'a ExprR) -> Result<(), Memory>
    ensures { OnOk result (map (λ x. x.now) all.new.items ≡ map (λ x. x.now) all.old.items ++ (e.now ∷ [])) }
{
    all.push(e)?;
    Ok(())
}

fn add_place<'a>(all: &mut Vec<&'a ExprR>, place: &'a Option<PlaceR<ExprR>>) -> Result<(), Memory>
    ensures { OnOk result (map (λ x. x.now) all.new.items ≡ map (λ x. x.now) all.old.items ++ of_place place.now) }
{
    match place {
        None => Ok(()),
        Some(place) => add(all, &place.rank),
    }
}

fn add_variable<'a>(all: &mut Vec<&'a ExprR>, variable: &'a VariableR) -> Result<(), Memory>
    ensures { OnOk result (map (λ x. x.now) all.new.items ≡ map (λ x. x.now) all.old.items ++ of_variable variable.now) }
{
    match variable {
        VariableR::Scalar(_) => Ok(()),
        VariableR::Local(_) => Ok(()),
        VariableR::Element(_, index) => add(all, index),
        VariableR::Coindexed { index, place, .. } => {
            add(all, index)?;
            add(all, &place.rank)
        }
        VariableR::Pointed(_, index) => add(all, index),
    }
}

fn add_actual<'a>(all: &mut Vec<&'a ExprR>, actual: &'a ActualR) -> Result<(), Memory>
    ensures { OnOk result (map (λ x. x.now) all.new.items ≡ map (λ x. x.now) all.old.items ++ of_actual actual.now) }
{
    match actual {
        ActualR::Value(e) => add(all, e),
        ActualR::Scalar(_) => Ok(()),
        ActualR::Local(_) => Ok(()),
        ActualR::Element(_, index) => add(all, index),
    }
}

fn add_actuals<'a>(all: &mut Vec<&'a ExprR>, actuals: &'a [ActualR]) -> Result<(), Memory>
    ensures { OnOk result (map (λ x. x.now) all.new.items ≡ map (λ x. x.now) all.old.items ++ flat_map of_actual actuals.now) }
{
    for actual in actuals {
        add_actual(all, actual)?;
    }
    Ok(())
}

fn add_part<'a>(all: &mut Vec<&'a ExprR>, part: &'a PrintR) -> Result<(), Memory>
    ensures { OnOk result (map (λ x. x.now) all.new.items ≡ map (λ x. x.now) all.old.items ++ of_part part.now) }
{
    match part {
        PrintR::Number(e) => add(all, e),
        PrintR::Logical(e) => add(all, e),
        PrintR::Text(_) => Ok(()),
    }
}

fn add_parts<'a>(all: &mut Vec<&'a ExprR>, parts: &'a [PrintR]) -> Result<(), Memory>
    ensures { OnOk result (map (λ x. x.now) all.new.items ≡ map (λ x. x.now) all.old.items ++ flat_map of_part parts.now) }
{
    for part in parts {
        add_part(all, part)?;
    }
    Ok(())
}

fn add_range<'a>(all: &mut Vec<&'a ExprR>, range: &'a RangeR) -> Result<(), Memory>
    ensures { OnOk result (map (λ x. x.now) all.new.items ≡ map (λ x. x.now) all.old.items ++ of_range range.now) }
{
    match range {
        RangeR::All => Ok(()),
        RangeR::Cell(index) => add(all, index),
        RangeR::Between(first, last) => {
            add(all, first)?;
            add(all, last)
        }
        RangeR::From(first) => add(all, first),
        RangeR::UpTo(last) => add(all, last),
    }
}

fn add_region<'a>(all: &mut Vec<&'a ExprR>, region: &'a RegionR) -> Result<(), Memory>
    ensures { OnOk result (map (λ x. x.now) all.new.items ≡ map (λ x. x.now) all.old.items ++ of_region region.now) }
{
    add_range(all, &region.range)?;
    add_place(all, &region.place)
}

fn add_section<'a>(all: &mut Vec<&'a ExprR>, section: &'a SectionR) -> Result<(), Memory>
    ensures { OnOk result (map (λ x. x.now) all.new.items ≡ map (λ x. x.now) all.old.items ++ of_section section.now) }
{
    match section {
        SectionR::Region(region) => add_region(all, region),
        SectionR::Pointed(_, range) => add_range(all, range),
    }
}

fn add_event<'a>(all: &mut Vec<&'a ExprR>, event: &'a EventR) -> Result<(), Memory>
    ensures { OnOk result (map (λ x. x.now) all.new.items ≡ map (λ x. x.now) all.old.items ++ of_event event.now) }
{
    add(all, &event.own.index)?;
    add_place(all, &event.place)
}

fn add_done<'a>(all: &mut Vec<&'a ExprR>, event: &'a Option<EventR>) -> Result<(), Memory>
    ensures { OnOk result (map (λ x. x.now) all.new.items ≡ map (λ x. x.now) all.old.items ++ of_done event.now) }
{
    match event {
        None => Ok(()),
        Some(event) => add_event(all, event),
    }
}

fn add_copy_event<'a>(all: &mut Vec<&'a ExprR>, event: &'a CopyEventR) -> Result<(), Memory>
    ensures { OnOk result (map (λ x. x.now) all.new.items ≡ map (λ x. x.now) all.old.items ++ of_copy_event event.now) }
{
    match event {
        CopyEventR::Pre(own) => add(all, &own.index),
        CopyEventR::Srce(event) => add_event(all, event),
        CopyEventR::Deste(event) => add_event(all, event),
    }
}

fn add_copy_events<'a>(all: &mut Vec<&'a ExprR>, events: &'a [CopyEventR]) -> Result<(), Memory>
    ensures { OnOk result (map (λ x. x.now) all.new.items ≡ map (λ x. x.now) all.old.items ++ flat_map of_copy_event events.now) }
{
    for event in events {
        add_copy_event(all, event)?;
    }
    Ok(())
}

/// The expressions of a copy.
fn add_copy<'a>(
    all: &mut Vec<&'a ExprR>,
    dest: &'a SectionR,
    source: &'a SectionR,
    events: &'a [CopyEventR],
) -> Result<(), Memory>
    ensures { OnOk result (map (λ x. x.now) all.new.items ≡ map (λ x. x.now) all.old.items ++ (of_section dest.now ++ of_section source.now ++ flat_map of_copy_event events.now)) }
{
    add_section(all, dest)?;
    add_section(all, source)?;
    add_copy_events(all, events)
}

/// The expressions of a ship.
fn add_ship<'a>(
    all: &mut Vec<&'a ExprR>,
    event: &'a Option<EventR>,
    actuals: &'a [ActualR],
    rank: &'a ExprR,
) -> Result<(), Memory>
    ensures { OnOk result (map (λ x. x.now) all.new.items ≡ map (λ x. x.now) all.old.items ++ (of_done event.now ++ flat_map of_actual actuals.now ++ (rank.now ∷ []))) }
{
    add_done(all, event)?;
    add_actuals(all, actuals)?;
    add(all, rank)
}

/// Adds the expressions of a statement.
fn add_statement<'a>(all: &mut Vec<&'a ExprR>, statement: &'a StmtR) -> Result<(), Memory>
    ensures { OnOk result (map (λ x. x.now) all.new.items ≡ map (λ x. x.now) all.old.items ++ expressions_of statement.now) }
{
    match statement {
        StmtR::Assign { target, value, .. } => {
            add_variable(all, target)?;
            add(all, value)
        }
        StmtR::Aim { region, .. } => add_region(all, region),
        StmtR::Print { parts, .. } => add_parts(all, parts.as_slice()),
        StmtR::If { condition, .. } => add(all, condition),
        StmtR::Do {
            first,
            last,
            step,
            ..
        } => {
            add(all, first)?;
            add(all, last)?;
            add(all, step)
        }
        StmtR::While { condition, .. } => add(all, condition),
        StmtR::Call { actuals, .. } => add_actuals(all, actuals.as_slice()),
        StmtR::Spawn {
            done,
            actuals,
            place,
            ..
        } => add_ship(all, done, actuals.as_slice(), &place.rank),
        StmtR::Notify { event, .. } => add_event(all, event),
        StmtR::Wait { event, .. } => add(all, &event.index),
        StmtR::Copy {
            dest,
            source,
            events,
            ..
        } => add_copy(all, dest, source, events.as_slice()),
        StmtR::Cofence { .. } => Ok(()),
        StmtR::Split { colour, key, .. } => {
            add(all, colour)?;
            add(all, key)
        }
        StmtR::Finish { .. } => Ok(()),
    }
}

/// The expressions of a statement in written order.
pub(crate) fn expressions(alloc: Global, statement: &StmtR) -> Result<Vec<&ExprR>, Memory>
    ensures { IfOk result (λ all. map (λ x. x.now) all.items ≡ expressions_of statement.now) }
{
    let mut all = Vec::new(alloc);
    add_statement(&mut all, statement)?;
    Ok(all)
}
