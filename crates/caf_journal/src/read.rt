ghost use Rattle.std.specs.Prelude.{◌≡◌, ◌∷◌, ◌++◌, List, ℕ, IfOk, IfErr, IsOkAnd, IsErrOf, MatchOption};
ghost use Rattle.caf_journal.specs.Trace.{line_text, HasLine, Spells, IsFirstBadLine, HasFault};
ghost use Rattle.caf_journal.specs.declared.entry.Entry.{Entry};

use crate::fields::{cut, entry_of};
use crate::{Entry, MAX_ENTRIES, TraceFault};
use std::alloc::Global;

/// The journal of a trace.
///
/// `BadLine` tells the first line, from 1, that isn't one of a trace. A last line without its end is such a line, and so is
/// the line after the 1,000,000th.
pub fn read_trace(alloc: Global, bytes: &[u8]) -> Result<Vec<Entry>, TraceFault>
    // The text is the trace of what is read, and a line that is refused is the first bad one.
    ensures found { IfOk result (λ journal. Spells bytes.now journal.items) }
    ensures fault { IfErr result (HasFault bytes.now) }

    // A trace is read, and a first bad line is refused, unless memory runs out.
    ensures trace { (journal : List Entry) → Spells bytes.now journal
        → ¬ (IsErrOf result TraceFault.Memory) → IsOkAnd result (λ read. read.items ≡ journal) }
    ensures bad_line { (line : ℕ) → IsFirstBadLine bytes.now line
        → ¬ (IsErrOf result TraceFault.Memory) → IsErrOf result (TraceFault.BadLine line) }
{
    read_lines(alloc, bytes)
}

fn read_lines(alloc: Global, bytes: &[u8]) -> Result<Vec<Entry>, TraceFault>
    ensures found { IfOk result (λ journal. Spells bytes.now journal.items) }
    ensures fault { IfErr result (HasFault bytes.now) }
{
    let mut journal = Vec::new(alloc);
    let mut rest = bytes;
    while !rest.is_empty() {
        let bad_line = TraceFault::BadLine(journal.len() as u32 + 1);
        if journal.len() == MAX_ENTRIES {
            return Err(bad_line);
        }
        let Some((entry, after)) = first_entry(rest) else {
            return Err(bad_line);
        };
        journal.push(entry)?;
        rest = after;
    }
    Ok(journal)
}

/// The entry of the first line, and what stands behind the line.
fn first_entry(text: &[u8]) -> Option<(Entry, &[u8])>
    ensures line { MatchOption result
        ((e : Entry) (after : List ℕ) → HasLine e → text.now ≡ line_text e ++ after → ⊥)
        (λ read. HasLine read.0 × (text.now ≡ line_text read.0 ++ read.1.now)) }
{
    let (line, after) = cut(text, b'\n')?;
    Some((entry_of(line)?, after))
}
