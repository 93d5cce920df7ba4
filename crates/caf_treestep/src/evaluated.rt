ghost use Rattle.std.specs.Prelude.{◌≡◌, ◌+◌, ◌≤◌, length, sum_by, OnOk, IfOk};
ghost use Rattle.caf_base.specs.Line.{number_text, logical_text};
ghost use Rattle.caf_program.specs.View.{seen};
ghost use Rattle.caf_treestep.specs.Evaluated.{argument_of, arguments_of, held_by_actual, held_by_part, line_text, seen_in, text_of};
ghost use Rattle.caf_treestep.specs.Finds.{Finds};

use crate::{Argument, Fault, Target};
use caf_base::{Memory, Sequence, Text, Trap};
use caf_memory::ImageMemory;
use caf_program::{ActualR, ExprR, PrintR, View, eval_from};
use itoa::Buffer;
use std::alloc::Global;

/// What an expression of a task sees.
pub(crate) fn view<'a>(memory: &'a ImageMemory, locals: &'a [i64], held: &'a [i64]) -> View<'a>
    ensures same { seen result ≡ seen_in memory.now locals.now held.now }
    ensures held { result.held.now ≡ held.now }
{
    View {
        objects: memory.objects(),
        cells: memory.cells(),
        locals,
        held,
        image: memory.image(),
        images: memory.images(),
        teams: memory.teams(),
    }
}

/// An argument, whose first held value stands at `at`, which then goes past its held values.
fn argument(actual: &ActualR, view: &View, at: &mut usize) -> Result<Argument, Trap>
    requires { at.old + held_by_actual actual.now ≤ length view.now.held.now }
    ensures value { result ≡ argument_of actual.now at.old (seen view.now) }
    ensures at { OnOk result (at.new ≡ at.old + held_by_actual actual.now) }
{
    match actual {
        ActualR::Value(e) => {
            let value = eval_from(e, view, at)?;
            Ok(Argument { value, out: None })
        }
        ActualR::Scalar(object) => {
            let value = view.scalar(*object)?;
            let out = Some(Target::Scalar(*object));
            Ok(Argument { value, out })
        }
        ActualR::Local(cell) => Ok(Argument {
            value: view.local(*cell),
            out: Some(Target::Local(*cell)),
        }),
        ActualR::Element(object, index) => {
            let index = eval_from(index, view, at)?;
            let value = view.element(*object, index)?;
            let out = Some(Target::Element(*object, index));
            Ok(Argument { value, out })
        }
    }
}

/// The arguments of a call, from the left.
#[tactic(auto, using(crate::proofs::Found::found_more))]
pub(crate) fn arguments(
    alloc: Global,
    actuals: &[ActualR],
    view: &View,
    at: &mut usize,
) -> Result<Sequence<Argument>, Fault>
    requires { at.old + sum_by held_by_actual actuals.now ≤ length view.now.held.now }
    ensures value { Finds (arguments_of actuals.now at.old (seen view.now)) result }
    ensures at { OnOk result (at.new ≡ at.old + sum_by held_by_actual actuals.now) }
{
    let mut arguments = Sequence::new(alloc);
    for actual in actuals {
        let argument = argument(actual, view, at)?;
        arguments.push(argument)?;
    }
    Ok(arguments)
}

fn number(alloc: Global, number: i64) -> Result<Text, Memory>
    ensures { IfOk result (λ text. text ≡ number_text number) }
{
    let mut buffer = Buffer::new();
    Text::copy_of(alloc, buffer.format(number))
}

fn logical(alloc: Global, value: i64) -> Result<Text, Memory>
    ensures { IfOk result (λ text. text ≡ logical_text value) }
{
    if value == 0 {
        Text::copy_of(alloc, "F")
    } else {
        Text::copy_of(alloc, "T")
    }
}

/// The text of a part of a printed line.
fn text(alloc: Global, part: &PrintR, view: &View, at: &mut usize) -> Result<Text, Fault>
    requires { at.old + held_by_part part.now ≤ length view.now.held.now }
    ensures value { Finds (text_of part.now at.old (seen view.now)) result }
    ensures at { OnOk result (at.new ≡ at.old + held_by_part part.now) }
{
    match part {
        PrintR::Number(e) => {
            let value = eval_from(e, view, at)?;
            Ok(number(alloc, value)?)
        }
        PrintR::Logical(e) => {
            let value = eval_from(e, view, at)?;
            Ok(logical(alloc, value)?)
        }
        PrintR::Text(text) => Ok(Text::copy_of(alloc, text.as_str())?),
    }
}

/// A printed line, without its end.
#[tactic(auto, using(crate::proofs::Found::line_more))]
pub(crate) fn line(alloc: Global, parts: &[PrintR], view: &View) -> Result<Text, Fault>
    requires { sum_by held_by_part parts.now ≤ length view.now.held.now }
    ensures { Finds (line_text parts.now 0 (seen view.now)) result }
{
    let mut line = String::new(alloc);
    let mut at = 0;
    let Some((first, rest)) = parts.split_first() else {
        return Ok(Text::from_string(line));
    };
    let part = text(alloc, first, view, &mut at)?;
    line.push_str(part.as_str())?;
    for part in rest {
        let part = text(alloc, part, view, &mut at)?;
        line.push_str(" ")?;
        line.push_str(part.as_str())?;
    }
    Ok(Text::from_string(line))
}
