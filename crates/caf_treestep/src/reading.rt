//! The elements that a statement reads before its last Step, each in a Step of its own: those of other images, and those
//! behind copointers.

ghost use Rattle.std.specs.Prelude.{◌≡◌, ◌+◌, ◌≤◌, IfNone, length, map};
ghost use Rattle.caf_program.specs.Expressions.{count_all, reads_all};
ghost use Rattle.caf_program.specs.Value.{Read, count, reads_at, value_at};
ghost use Rattle.caf_program.specs.View.{seen};
ghost use Rattle.caf_treestep.specs.Placeable.{IsPlaceable};
ghost use Rattle.caf_treestep.specs.Reading.{next_read as read_after};
ghost use Rattle.caf_treestep.specs.Step.{read_section};

use crate::wanted::place_in;
use caf_base::{Section, Trap};
use caf_memory::ImageMemory;
use caf_program::{ExprR, TeamR, View, each_held_value_has_its_read, eval_from};

/// The section of an element at a place, whose subscript's first held value stands at `from`.
fn coindexed(
    object: u32,
    index: &ExprR,
    team: TeamR,
    rank: &ExprR,
    view: &View,
    memory: &ImageMemory,
    from: usize,
) -> Result<Section, Trap>
    requires { from + count index.now + count rank.now ≤ length view.now.held.now }
    ensures { result ≡ read_section (Read.Coindexed object team (value_at index.now from) (value_at rank.now (from + count index.now))) (seen view.now) memory.now }
{
    let mut at = from;
    let index = eval_from(index, view, &mut at)?;
    let rank = eval_from(rank, view, &mut at)?;
    memory.element_section(object, index, place_in(team, rank))
}

/// The section of an element behind a copointer.
fn pointed(
    copointer: u32,
    index: &ExprR,
    view: &View,
    memory: &ImageMemory,
    from: usize,
) -> Result<Section, Trap>
    requires memory { IsPlaceable memory.now }
    requires held { from + count index.now ≤ length view.now.held.now }
    ensures { result ≡ read_section (Read.Pointed copointer (value_at index.now from)) (seen view.now) memory.now }
{
    let mut at = from;
    let index = eval_from(index, view, &mut at)?;
    memory.pointed_section(copointer, index)
}

/// The next read of an expression whose first held value stands at `at`: the element whose value isn't held yet, with the
/// trap of its tests. Where all are held, `at` goes past them.
fn read_from(
    e: &ExprR,
    view: &View,
    memory: &ImageMemory,
    at: &mut usize,
) -> Option<Result<Section, Trap>>
    requires memory { IsPlaceable memory.now }
    requires held { at.old ≤ length view.now.held.now }
    ensures read { result ≡ read_after (reads_at e.now at.old) at.old (seen view.now) memory.now }
    ensures at { IfNone result (at.new ≡ at.old + count e.now) }
    ensures held { IfNone result (at.new ≤ length view.now.held.now) }
{
    each_held_value_has_its_read();
    match e {
        ExprR::Number(_) => None,
        ExprR::Truth(_) => None,
        ExprR::Scalar(_) => None,
        ExprR::Local(_) => None,
        ExprR::Rank(_) => None,
        ExprR::Size(_) => None,
        ExprR::Element(_, index) => read_from(index.get(), view, memory, at),
        ExprR::Unary(_, operand) => read_from(operand.get(), view, memory, at),
        ExprR::Coindexed {
            object,
            index,
            place,
        } => {
            let from = *at;
            if let Some(read) = read_from(index.get(), view, memory, at) {
                return Some(read);
            }
            if let Some(read) = read_from(place.rank.get(), view, memory, at) {
                return Some(read);
            }
            if *at < view.held.len() {
                *at += 1;
                return None;
            }
            Some(coindexed(
                *object,
                index.get(),
                place.team,
                place.rank.get(),
                view,
                memory,
                from,
            ))
        }
        ExprR::Pointed(copointer, index) => {
            let from = *at;
            if let Some(read) = read_from(index.get(), view, memory, at) {
                return Some(read);
            }
            if *at < view.held.len() {
                *at += 1;
                return None;
            }
            Some(pointed(*copointer, index.get(), view, memory, from))
        }
        ExprR::Chain(first, rest) => {
            if let Some(read) = read_from(first.get(), view, memory, at) {
                return Some(read);
            }
            for (_, operand) in rest.as_slice() {
                if let Some(read) = read_from(operand, view, memory, at) {
                    return Some(read);
                }
            }
            None
        }
    }
}

/// The next read of a list of expressions, or none where all their values are held.
pub(crate) fn next_read(
    expressions: &[&ExprR],
    view: &View,
    memory: &ImageMemory,
) -> Option<Result<Section, Trap>>
    requires memory { IsPlaceable memory.now }
    ensures read { result ≡ read_after (reads_all (map (λ x. x.now) expressions.now) 0) 0 (seen view.now) memory.now }
    ensures held { IfNone result (count_all (map (λ x. x.now) expressions.now) ≤ length view.now.held.now) }
{
    each_held_value_has_its_read();
    let mut at = 0;
    for e in expressions {
        if let Some(read) = read_from(e, view, memory, &mut at) {
            return Some(read);
        }
    }
    None
}
