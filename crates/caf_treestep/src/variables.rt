ghost use Rattle.std.specs.Prelude.{◌≡◌, ◌+◌, ◌≤◌, Ok, Err, IsTrue, MatchResult, OnErr, OnOk, length, slice_index_or, slice_set, pos};
ghost use Rattle.caf_base.specs.Arithmetic.{Answer};
ghost use Rattle.caf_program.specs.Expressions.{count_all, of_variable};
ghost use Rattle.caf_program.specs.Value.{count};
ghost use Rattle.caf_program.specs.View.{seen};
ghost use Rattle.caf_treestep.specs.Step.{copies_out, counted as counted_value, counter as counter_of, is_own, put as put_at, store as store_at, target_of};
ghost use Rattle.caf_treestep.specs.Variables.{both};

use crate::{CopyOut, Target};
use caf_base::{Sequence, Trap};
use caf_memory::ImageMemory;
use caf_program::{LoopVariableR, VariableR, View, eval_from};

/// The left side of an assignment, with its subscript evaluated.
pub(crate) fn target(variable: &VariableR, view: &View, at: &mut usize) -> Result<Target, Trap>
    requires own { IsTrue (is_own variable.now) }
    requires held { at.old + count_all (of_variable variable.now) ≤ length view.now.held.now }
    ensures value { result ≡ target_of variable.now at.old (seen view.now) }
    ensures at { OnOk result (at.new ≡ at.old + count_all (of_variable variable.now)) }
{
    match variable {
        VariableR::Scalar(object) => Ok(Target::Scalar(*object)),
        VariableR::Local(cell) => Ok(Target::Local(*cell)),
        VariableR::Element(object, index) => {
            let index = eval_from(index, view, at)?;
            Ok(Target::Element(*object, index))
        }
        _ => unreachable!(),
    }
}

/// The variable of a `do` as what a number is put into.
pub(crate) fn counter(variable: LoopVariableR) -> Target
    ensures { result ≡ counter_of variable }
{
    match variable {
        LoopVariableR::Scalar(object) => Target::Scalar(object),
        LoopVariableR::Local(cell) => Target::Local(cell),
    }
}

/// The number in the variable of a `do`.
pub(crate) fn counted(variable: LoopVariableR, view: &View) -> Result<i64, Trap>
    ensures { result ≡ counted_value variable (seen view.now) }
{
    match variable {
        LoopVariableR::Scalar(object) => view.scalar(object),
        LoopVariableR::Local(cell) => Ok(view.local(cell)),
    }
}

/// Puts a number into a cell of a frame, where there is one.
fn set_cell(cells: &mut Sequence<i64>, at: u32, value: i64)
    ensures { cells.new ≡ slice_set cells.old at value }
{
    let at = at as usize;
    if at < cells.len() {
        cells.set(at, value);
    }
}

/// Puts a number into a variable of the image or a cell of the frame. On a trap nothing changes.
pub(crate) fn store(
    target: Target,
    value: i64,
    locals: &mut Sequence<i64>,
    memory: &mut ImageMemory,
) -> Result<(), Trap>
    ensures stored { MatchResult result (λ _. store_at target value (both locals.old memory.old) ≡ Ok (both locals.new memory.new)) (λ trap. store_at target value (both locals.old memory.old) ≡ Err trap) }
    ensures locals { OnErr result (locals.new ≡ locals.old) }
    ensures memory { OnErr result (memory.new ≡ memory.old) }
{
    match target {
        Target::Scalar(object) => memory.write(object, 1, value),
        Target::Local(cell) => {
            set_cell(locals, cell, value);
            Ok(())
        }
        Target::Element(object, index) => memory.write(object, index, value),
    }
}

/// Puts a number where the call has fixed it.
fn put(target: Target, value: i64, locals: &mut Sequence<i64>, memory: &mut ImageMemory)
    ensures { both locals.new memory.new ≡ put_at target value (both locals.old memory.old) }
{
    let _outside = store(target, value, locals, memory);
}

/// The cell of a frame, or 0 where there is none.
fn cell(cells: &[i64], at: u32) -> i64
    ensures { result ≡ slice_index_or cells.now at (pos 0) }
{
    match cells.get(at as usize) {
        Some(value) => *value,
        None => 0,
    }
}

/// Copies dummies out of the cells of their frame, from left to right.
pub(crate) fn copy_out(
    outs: &[CopyOut],
    cells: &[i64],
    locals: &mut Sequence<i64>,
    memory: &mut ImageMemory,
)
    ensures { both locals.new memory.new ≡ copies_out outs.now cells.now (both locals.old memory.old) }
{
    for out in outs {
        put(out.target, cell(cells, out.cell), locals, memory);
    }
}
