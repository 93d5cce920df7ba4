ghost use Rattle.std.specs.Prelude.{◌≡◌, ◌+◌, ◌≤◌, ◌^◌, ◌<◌, length, OnOk};
ghost use Rattle.caf_program.specs.Seen.{held};
ghost use Rattle.caf_program.specs.View.{seen};
ghost use Rattle.caf_program.specs.Value.{value, value_at, count};

use crate::{ExprR, View};
use caf_base::{Trap, truth};

/// The value of an expression, where a truth value is 1 or 0, or its first trap in post-order and written order.
/// `held` of the view has the values of the elements that the expression reads by a place or copointer, in that
/// order too.
pub fn eval(e: &ExprR, view: &View) -> Result<i64, Trap>
    requires { count e.now ≤ length view.now.held.now }
    ensures { result ≡ value e.now (seen view.now) }
{
    let mut at = 0;
    eval_from(e, view, &mut at)
}

/// The value of an expression among others of its statement, as that of [`eval`]: its first held value stands at
/// `at`, which then goes past its held values.
pub fn eval_from(e: &ExprR, view: &View, at: &mut usize) -> Result<i64, Trap>
    requires { at.old + count e.now ≤ length view.now.held.now }
    ensures value { result ≡ value_at e.now at.old (seen view.now) }
    ensures at { OnOk result (at.new ≡ at.old + count e.now) }
{
    match e {
        ExprR::Number(number) => Ok(*number),
        ExprR::Truth(holds) => Ok(truth(*holds)),
        ExprR::Scalar(object) => view.scalar(*object),
        ExprR::Local(cell) => Ok(view.local(*cell)),
        ExprR::Element(object, index) => {
            let index = eval_from(index.get(), view, at)?;
            view.element(*object, index)
        }
        ExprR::Coindexed { index, place, .. } => {
            skip_held(index.get(), at);
            skip_held(place.rank.get(), at);
            Ok(next_held(view, at))
        }
        ExprR::Pointed(_, index) => {
            skip_held(index.get(), at);
            Ok(next_held(view, at))
        }
        ExprR::Unary(operator, operand) => {
            let operand = eval_from(operand.get(), view, at)?;
            operator.apply(operand)
        }
        ExprR::Chain(first, rest) => {
            let mut total = eval_from(first.get(), view, at)?;
            for (operator, operand) in rest.as_slice() {
                let operand = eval_from(operand, view, at)?;
                total = operator.apply(total, operand)?;
            }
            Ok(total)
        }
        ExprR::Rank(team) => view.team_rank(*team),
        ExprR::Size(team) => view.team_size(*team),
    }
}

/// The held value at `at`, which goes past it.
fn next_held(view: &View, at: &mut usize) -> i64
    requires { at.old < length view.now.held.now }
    ensures value { result ≡ held (seen view.now) at.old }
    ensures at { at.new ≡ at.old + 1 }
{
    let value = view.held(*at);
    *at += 1;
    value
}

/// Goes past the held values of an expression, which begin at `at`.
pub fn skip_held(e: &ExprR, at: &mut usize)
    requires { at.old + count e.now < 2 ^ 64 }
    ensures { at.new ≡ at.old + count e.now }
{
    match e {
        ExprR::Number(_) | ExprR::Truth(_) | ExprR::Scalar(_) | ExprR::Local(_) => {}
        ExprR::Rank(_) | ExprR::Size(_) => {}
        ExprR::Element(_, index) => skip_held(index.get(), at),
        ExprR::Coindexed { index, place, .. } => {
            skip_held(index.get(), at);
            skip_held(place.rank.get(), at);
            *at += 1;
        }
        ExprR::Pointed(_, index) => {
            skip_held(index.get(), at);
            *at += 1;
        }
        ExprR::Unary(_, operand) => skip_held(operand.get(), at),
        ExprR::Chain(first, rest) => {
            skip_held(first.get(), at);
            for (_, operand) in rest.as_slice() {
                skip_held(operand, at);
            }
        }
    }
}
