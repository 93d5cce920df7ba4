ghost use Rattle.std.specs.Prelude.{◌≡◌, ◌≤◌, ◌^◌, ℕ, List, None, length, slice_get, IfSome, IfNone};
ghost use Rattle.caf_program.specs.declared.expr.ExprR.{ExprR};
ghost use Rattle.caf_program.specs.Expressions.{count_all, reads_all};
ghost use Rattle.caf_program.specs.Value.{count, reads_at};

use crate::ExprR;

impl ExprR {
    /// How many values the expression holds: one for each element that it reads by a place or copointer, none where
    /// `usize` doesn't count them.
    #[tactic(auto, using(crate::proofs::Listed::listed))]
    pub fn read_count(&self) -> Option<usize>
        ensures some { IfSome result (λ n. n ≡ count self.now) }
        ensures none { IfNone result (2 ^ 64 ≤ count self.now) }
        ensures listed { (at : ℕ) → length (reads_at self.now at) ≡ count self.now }
    {
        count_from(self)
    }
}

fn count_from(e: &ExprR) -> Option<usize>
    ensures some { IfSome result (λ n. n ≡ count e.now) }
    ensures none { IfNone result (2 ^ 64 ≤ count e.now) }
{
    match e {
        ExprR::Number(_) | ExprR::Truth(_) | ExprR::Scalar(_) | ExprR::Local(_) => Some(0),
        ExprR::Rank(_) | ExprR::Size(_) => Some(0),
        ExprR::Element(_, index) => count_from(index.get()),
        ExprR::Coindexed { index, place, .. } => {
            let index = count_from(index.get())?;
            let rank = count_from(place.rank.get())?;
            index.checked_add(rank)?.checked_add(1)
        }
        ExprR::Pointed(_, index) => count_from(index.get())?.checked_add(1),
        ExprR::Unary(_, operand) => count_from(operand.get()),
        ExprR::Chain(first, rest) => {
            let mut total = count_from(first.get())?;
            for (_, operand) in rest.as_slice() {
                let more = count_from(operand)?;
                total = total.checked_add(more)?;
            }
            Some(total)
        }
    }
}

/// The law that a list of expressions has one read for each value that it holds: so none is left where as many values
/// are held already.
#[tactic(auto, using(crate::proofs::Listed::all_listed, crate::proofs::Listed::past_reads))]
pub fn each_held_value_has_its_read()
    ensures listed { (es : List ExprR) (at : ℕ) → length (reads_all es at) ≡ count_all es }
    ensures past { (es : List ExprR) (at : ℕ) (held : ℕ) → count_all es ≤ held → slice_get (reads_all es at) held ≡ None }
{}
