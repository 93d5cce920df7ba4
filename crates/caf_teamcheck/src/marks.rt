ghost use Rattle.std.specs.Prelude.{◌≡◌, ℕ, ◌<◌, ◌≤◌, ◌⊎◌, List, Contains, IfOk, IsTrue, length, not, count_by};
ghost use Rattle.caf_program.specs.Ships.{HasCall, Reaches};
ghost use Rattle.caf_teamcheck.specs.Marks.{Marked, AreReached};

use caf_base::{Memory, Sequence};
use std::alloc::Global;

/// Marks a subroutine, if there is one at the place; tells whether it wasn't marked before.
fn mark(marks: &mut Sequence<bool>, sub: u32) -> bool
    ensures size { length marks.new ≡ length marks.old }
    ensures marked { sub < length marks.old → Marked marks.new sub }
    ensures kept { (k : ℕ) → Marked marks.old k → Marked marks.new k }
    ensures new { (k : ℕ) → Marked marks.new k → Marked marks.old k ⊎ (k ≡ sub) }
    ensures no_more { count_by not marks.new ≤ count_by not marks.old }
    ensures fewer { IsTrue result → count_by not marks.new < count_by not marks.old }
    ensures same { IsTrue (not result) → marks.new ≡ marks.old }
{
    let at = sub as usize;
    if at >= marks.len() {
        return false;
    }
    if marks.as_slice()[at] {
        return false;
    }
    marks.set(at, true);
    true
}

/// Whether one of the two holds.
fn either(a: bool, b: bool) -> bool
    ensures yes { IsTrue result → IsTrue a ⊎ IsTrue b }
    ensures no { IsTrue (not result) → IsTrue (not a) × IsTrue (not b) }
{
    a || b
}

/// Marks each of these subroutines; tells whether one of them wasn't marked before.
fn mark_row(marks: &mut Sequence<bool>, row: &[u32]) -> bool
    ensures size { length marks.new ≡ length marks.old }
    ensures marked { (k : ℕ) → Contains row.now k → k < length marks.old → Marked marks.new k }
    ensures kept { (k : ℕ) → Marked marks.old k → Marked marks.new k }
    ensures new { (k : ℕ) → Marked marks.new k → Marked marks.old k ⊎ Contains row.now k }
    ensures no_more { count_by not marks.new ≤ count_by not marks.old }
    ensures fewer { IsTrue result → count_by not marks.new < count_by not marks.old }
    ensures same { IsTrue (not result) → marks.new ≡ marks.old }
{
    let mut changed = false;
    for sub in row {
        let fresh = mark(marks, *sub);
        changed = either(changed, fresh);
    }
    changed
}

/// Marks what a subroutine calls, if it is marked; tells whether one of them wasn't marked before.
fn visit(calls: &[Sequence<u32>], marks: &mut Sequence<bool>, sub: usize) -> bool
    requires each { length marks.old ≡ length calls.now }
    requires within { sub < length calls.now }
    ensures size { length marks.new ≡ length marks.old }
    ensures kept { (k : ℕ) → Marked marks.old k → Marked marks.new k }
    ensures sound { (starts : List ℕ) → ((k : ℕ) → Marked marks.old k → Reaches calls.now starts k) → (k : ℕ) → Marked marks.new k → Reaches calls.now starts k }
    ensures closed { (b : ℕ) → Marked marks.old sub → HasCall calls.now sub b → b < length calls.now → Marked marks.new b }
    ensures no_more { count_by not marks.new ≤ count_by not marks.old }
    ensures fewer { IsTrue result → count_by not marks.new < count_by not marks.old }
    ensures same { IsTrue (not result) → marks.new ≡ marks.old }
{
    if marks.as_slice()[sub] {
        mark_row(marks, calls[sub].as_slice())
    } else {
        false
    }
}

/// Goes once over the calls of what is marked; tells whether a mark was added.
fn pass(calls: &[Sequence<u32>], marks: &mut Sequence<bool>) -> bool
    requires { length marks.old ≡ length calls.now }
    ensures size { length marks.new ≡ length marks.old }
    ensures kept { (k : ℕ) → Marked marks.old k → Marked marks.new k }
    ensures sound { (starts : List ℕ) → ((k : ℕ) → Marked marks.old k → Reaches calls.now starts k) → (k : ℕ) → Marked marks.new k → Reaches calls.now starts k }
    ensures closed { IsTrue (not result) → (a b : ℕ) → Marked marks.new a → HasCall calls.now a b → b < length calls.now → Marked marks.new b }
    ensures fewer { IsTrue result → count_by not marks.new < count_by not marks.old }
{
    let mut changed = false;
    for sub in 0..calls.len() {
        let fresh = visit(calls, marks, sub);
        changed = either(changed, fresh);
    }
    changed
}

/// Marks exactly what is among the starts or reached from one by calls, where nothing is marked.
fn close(calls: &[Sequence<u32>], starts: &[u32], marks: &mut Sequence<bool>)
    requires each { length marks.old ≡ length calls.now }
    requires none { (b : ℕ) → Marked marks.old b → ⊥ }
    ensures { AreReached calls.now starts.now marks.new }
{
    mark_row(marks, starts);
    while pass(calls, marks) {}
}

/// For each subroutine whether it is among the starts or reached from one by calls.
pub fn reached_from(
    alloc: Global,
    calls: &[Sequence<u32>],
    starts: &[u32],
) -> Result<Sequence<bool>, Memory>
    ensures { IfOk result (λ marks. AreReached calls.now starts.now marks) }
{
    let mut marks = Sequence::from_vec(vec![in alloc; false; calls.len()]?);
    close(calls, starts, &mut marks);
    Ok(marks)
}
