//! The reads that the expressions of a statement need, in written order. Each function takes the place of the first value
//! that is held, and its result is the place behind the values that its reads bring.

ghost use Rattle.std.specs.Prelude.{◌≡◌, ◌+◌, ◌++◌, [], ◌∷◌, IfOk, OnOk};
ghost use Rattle.std.specs.List.{flat_map};
ghost use Rattle.caf_program.specs.Expressions.{count_all, expressions, of_actual, of_copy_event, of_done, of_event, of_part, of_place, of_range, of_region, of_section, of_variable};
ghost use Rattle.caf_program.specs.Value.{count};
ghost use Rattle.caf_exprgen.specs.ExprCode.{joined, reads_code};
ghost use Rattle.caf_codegen.specs.StmtCode.{asked};

use crate::emit::place_behind;
use caf_base::Memory;
use caf_code::Instr;
use caf_exprgen::gen_reads;
use caf_program::{
    ActualR, CopyEventR, EventR, ExprR, PlaceR, PrintR, RangeR, RegionR, SectionR, StmtR, VariableR,
};

/// The reads of an expression.
fn ask(e: &ExprR, held: u32, code: &mut Vec<Instr>) -> Result<u32, Memory>
    ensures code { OnOk result (code.new.items ≡ code.old.items ++ joined (reads_code e.now held)) }
    ensures next { IfOk result (λ next. next ≡ held + count e.now) }
{
    let next = place_behind(e, held)?;
    gen_reads(e, held, code)?;
    Ok(next)
}

fn ask_place(place: &Option<PlaceR<ExprR>>, held: u32, code: &mut Vec<Instr>) -> Result<u32, Memory>
    ensures code { OnOk result (code.new.items ≡ code.old.items ++ asked (of_place place.now) held) }
    ensures next { IfOk result (λ next. next ≡ held + count_all (of_place place.now)) }
{
    match place {
        None => Ok(held),
        Some(place) => ask(&place.rank, held, code),
    }
}

fn ask_variable(variable: &VariableR, code: &mut Vec<Instr>) -> Result<u32, Memory>
    ensures code { OnOk result (code.new.items ≡ code.old.items ++ asked (of_variable variable.now) 0) }
    ensures next { IfOk result (λ next. next ≡ 0 + count_all (of_variable variable.now)) }
{
    match variable {
        VariableR::Scalar(_) => Ok(0),
        VariableR::Local(_) => Ok(0),
        VariableR::Element(_, index) => ask(index, 0, code),
        VariableR::Coindexed { index, place, .. } => {
            let held = ask(index, 0, code)?;
            ask(&place.rank, held, code)
        }
        VariableR::Pointed(_, index) => ask(index, 0, code),
    }
}

fn ask_actual(actual: &ActualR, held: u32, code: &mut Vec<Instr>) -> Result<u32, Memory>
    ensures code { OnOk result (code.new.items ≡ code.old.items ++ asked (of_actual actual.now) held) }
    ensures next { IfOk result (λ next. next ≡ held + count_all (of_actual actual.now)) }
{
    match actual {
        ActualR::Value(e) => ask(e, held, code),
        ActualR::Scalar(_) => Ok(held),
        ActualR::Local(_) => Ok(held),
        ActualR::Element(_, index) => ask(index, held, code),
    }
}

fn ask_actuals(actuals: &[ActualR], held: u32, code: &mut Vec<Instr>) -> Result<u32, Memory>
    ensures code { OnOk result (code.new.items ≡ code.old.items ++ asked (flat_map of_actual actuals.now) held) }
    ensures next { IfOk result (λ next. next ≡ held + count_all (flat_map of_actual actuals.now)) }
{
    let mut next = held;
    for actual in actuals {
        next = ask_actual(actual, next, code)?;
    }
    Ok(next)
}

fn ask_part(part: &PrintR, held: u32, code: &mut Vec<Instr>) -> Result<u32, Memory>
    ensures code { OnOk result (code.new.items ≡ code.old.items ++ asked (of_part part.now) held) }
    ensures next { IfOk result (λ next. next ≡ held + count_all (of_part part.now)) }
{
    match part {
        PrintR::Number(e) => ask(e, held, code),
        PrintR::Logical(e) => ask(e, held, code),
        PrintR::Text(_) => Ok(held),
    }
}

fn ask_parts(parts: &[PrintR], code: &mut Vec<Instr>) -> Result<(), Memory>
    ensures { OnOk result (code.new.items ≡ code.old.items ++ asked (flat_map of_part parts.now) 0) }
{
    let mut next = 0;
    for part in parts {
        next = ask_part(part, next, code)?;
    }
    Ok(())
}

fn ask_range(range: &RangeR, held: u32, code: &mut Vec<Instr>) -> Result<u32, Memory>
    ensures code { OnOk result (code.new.items ≡ code.old.items ++ asked (of_range range.now) held) }
    ensures next { IfOk result (λ next. next ≡ held + count_all (of_range range.now)) }
{
    match range {
        RangeR::All => Ok(held),
        RangeR::Cell(index) => ask(index, held, code),
        RangeR::Between(first, last) => {
            let held = ask(first, held, code)?;
            ask(last, held, code)
        }
        RangeR::From(first) => ask(first, held, code),
        RangeR::UpTo(last) => ask(last, held, code),
    }
}

#[tactic(auto, using(crate::proofs::Counts::asked_then, crate::proofs::Counts::count_then))]
fn ask_region(region: &RegionR, held: u32, code: &mut Vec<Instr>) -> Result<u32, Memory>
    ensures code { OnOk result (code.new.items ≡ code.old.items ++ asked (of_region region.now) held) }
    ensures next { IfOk result (λ next. next ≡ held + count_all (of_region region.now)) }
{
    let held = ask_range(&region.range, held, code)?;
    ask_place(&region.place, held, code)
}

fn ask_section(section: &SectionR, held: u32, code: &mut Vec<Instr>) -> Result<u32, Memory>
    ensures code { OnOk result (code.new.items ≡ code.old.items ++ asked (of_section section.now) held) }
    ensures next { IfOk result (λ next. next ≡ held + count_all (of_section section.now)) }
{
    match section {
        SectionR::Region(region) => ask_region(region, held, code),
        SectionR::Pointed(_, range) => ask_range(range, held, code),
    }
}

fn ask_event(event: &EventR, held: u32, code: &mut Vec<Instr>) -> Result<u32, Memory>
    ensures code { OnOk result (code.new.items ≡ code.old.items ++ asked (of_event event.now) held) }
    ensures next { IfOk result (λ next. next ≡ held + count_all (of_event event.now)) }
{
    let held = ask(&event.own.index, held, code)?;
    ask_place(&event.place, held, code)
}

fn ask_done(event: &Option<EventR>, code: &mut Vec<Instr>) -> Result<u32, Memory>
    ensures code { OnOk result (code.new.items ≡ code.old.items ++ asked (of_done event.now) 0) }
    ensures next { IfOk result (λ next. next ≡ 0 + count_all (of_done event.now)) }
{
    match event {
        None => Ok(0),
        Some(event) => ask_event(event, 0, code),
    }
}

fn ask_copy_event(event: &CopyEventR, held: u32, code: &mut Vec<Instr>) -> Result<u32, Memory>
    ensures code { OnOk result (code.new.items ≡ code.old.items ++ asked (of_copy_event event.now) held) }
    ensures next { IfOk result (λ next. next ≡ held + count_all (of_copy_event event.now)) }
{
    match event {
        CopyEventR::Pre(own) => ask(&own.index, held, code),
        CopyEventR::Srce(event) => ask_event(event, held, code),
        CopyEventR::Deste(event) => ask_event(event, held, code),
    }
}

fn ask_copy_events(events: &[CopyEventR], held: u32, code: &mut Vec<Instr>) -> Result<(), Memory>
    ensures { OnOk result (code.new.items ≡ code.old.items ++ asked (flat_map of_copy_event events.now) held) }
{
    let mut next = held;
    for event in events {
        next = ask_copy_event(event, next, code)?;
    }
    Ok(())
}

#[tactic(auto, using(crate::proofs::Counts::asked_then, crate::proofs::Counts::count_then))]
fn ask_copy(
    dest: &SectionR,
    source: &SectionR,
    events: &[CopyEventR],
    code: &mut Vec<Instr>,
) -> Result<(), Memory>
    ensures { OnOk result (code.new.items ≡ code.old.items ++ asked (of_section dest.now ++ of_section source.now ++ flat_map of_copy_event events.now) 0) }
{
    let held = ask_section(dest, 0, code)?;
    let held = ask_section(source, held, code)?;
    ask_copy_events(events, held, code)
}

#[tactic(auto, using(crate::proofs::Counts::asked_then, crate::proofs::Counts::count_then))]
fn ask_ship(
    done: &Option<EventR>,
    actuals: &[ActualR],
    rank: &ExprR,
    code: &mut Vec<Instr>,
) -> Result<(), Memory>
    ensures { OnOk result (code.new.items ≡ code.old.items ++ asked (of_done done.now ++ flat_map of_actual actuals.now ++ (rank.now ∷ [])) 0) }
{
    let held = ask_done(done, code)?;
    let held = ask_actuals(actuals, held, code)?;
    ask(rank, held, code)?;
    Ok(())
}

/// The first number of a loop, its last one and its step.
fn ask_bounds(
    first: &ExprR,
    last: &ExprR,
    step: &ExprR,
    code: &mut Vec<Instr>,
) -> Result<(), Memory>
    ensures { OnOk result (code.new.items ≡ code.old.items ++ asked (first.now ∷ last.now ∷ step.now ∷ []) 0) }
{
    let held = ask(first, 0, code)?;
    let held = ask(last, held, code)?;
    ask(step, held, code)?;
    Ok(())
}

fn ask_pair(first: &ExprR, second: &ExprR, code: &mut Vec<Instr>) -> Result<(), Memory>
    ensures { OnOk result (code.new.items ≡ code.old.items ++ asked (first.now ∷ second.now ∷ []) 0) }
{
    let held = ask(first, 0, code)?;
    ask(second, held, code)?;
    Ok(())
}

#[tactic(auto, using(crate::proofs::Counts::asked_then))]
fn ask_assignment(target: &VariableR, value: &ExprR, code: &mut Vec<Instr>) -> Result<(), Memory>
    ensures { OnOk result (code.new.items ≡ code.old.items ++ asked (of_variable target.now ++ (value.now ∷ [])) 0) }
{
    let held = ask_variable(target, code)?;
    ask(value, held, code)?;
    Ok(())
}

fn ask_alone(e: &ExprR, code: &mut Vec<Instr>) -> Result<(), Memory>
    ensures { OnOk result (code.new.items ≡ code.old.items ++ asked (e.now ∷ []) 0) }
{
    ask(e, 0, code)?;
    Ok(())
}

/// The reads of a statement, without those of the statements in its blocks.
pub(crate) fn ask_statement(statement: &StmtR, code: &mut Vec<Instr>) -> Result<(), Memory>
    ensures { OnOk result (code.new.items ≡ code.old.items ++ asked (expressions statement.now) 0) }
{
    match statement {
        StmtR::Assign { target, value, .. } => ask_assignment(target, value, code),
        StmtR::Aim { region, .. } => {
            ask_region(region, 0, code)?;
            Ok(())
        }
        StmtR::Print { parts, .. } => ask_parts(parts.as_slice(), code),
        StmtR::If { condition, .. } => ask_alone(condition, code),
        StmtR::Do {
            first,
            last,
            step,
            ..
        } => ask_bounds(first, last, step, code),
        StmtR::While { condition, .. } => ask_alone(condition, code),
        StmtR::Call { actuals, .. } => {
            ask_actuals(actuals.as_slice(), 0, code)?;
            Ok(())
        }
        StmtR::Spawn {
            done,
            actuals,
            place,
            ..
        } => ask_ship(done, actuals.as_slice(), &place.rank, code),
        StmtR::Notify { event, .. } => {
            ask_event(event, 0, code)?;
            Ok(())
        }
        StmtR::Wait { event, .. } => ask_alone(&event.index, code),
        StmtR::Copy {
            dest,
            source,
            events,
            ..
        } => ask_copy(dest, source, events.as_slice(), code),
        StmtR::Cofence { .. } => Ok(()),
        StmtR::Split { colour, key, .. } => ask_pair(colour, key, code),
        StmtR::Finish { .. } => Ok(()),
    }
}
