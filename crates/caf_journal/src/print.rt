ghost use Rattle.std.specs.Prelude.{◌≡◌, ◌∷◌, ◌++◌, ◌≤◌, ◌*◌, List, length, IfOk, OnOk};
ghost use Rattle.std.specs.Fmt.{decimal};
ghost use Rattle.std.specs.List.{join_with_byte};
ghost use Rattle.caf_journal.specs.Trace.{stage_word, operation_word, count_words, line_of, line_text, HasTrace, Spells};
ghost use Rattle.caf_journal.specs.declared.entry.Entry.{Entry};

use crate::Entry;
use caf_base::{Four, Memory, OpName, Stage};
use itoa::{Buffer, Integer};
use std::alloc::Global;

/// The trace of a journal, which is that of no other journal. A line has at most 64 bytes.
pub fn print_trace(alloc: Global, journal: &[Entry]) -> Result<Vec<u8>, Memory>
    requires { HasTrace journal.now }
    ensures spells { IfOk result (λ text. Spells text.items journal.now) }
    ensures only { IfOk result (λ text. (other : List Entry) → Spells text.items other → other ≡ journal.now) }
    ensures short { IfOk result (λ text. length text.items ≤ 64 * length journal.now) }
{
    let mut text = Vec::new(alloc);
    for entry in journal {
        push_line(&mut text, entry)?;
    }
    Ok(text)
}

fn push_line(text: &mut Vec<u8>, entry: &Entry) -> Result<(), Memory>
    ensures { OnOk result (text.new.items ≡ text.old.items ++ line_text entry.now) }
{
    push_words(text, entry)?;
    text.push(b'\n')?;
    Ok(())
}

fn push_words(text: &mut Vec<u8>, entry: &Entry) -> Result<(), Memory>
    ensures { OnOk result (text.new.items ≡ text.old.items ++ line_of entry.now) }
{
    match *entry {
        Entry::Step(image, task) => {
            push_start(text, b"step", image)?;
            push_number(text, b' ', task)
        }
        Entry::Touch(image, operation, stage) => {
            push_start(text, b"touch", image)?;
            push_operation(text, operation)?;
            push_stage(text, stage)
        }
        Entry::Part(image) => push_start(text, b"part", image),
        Entry::Leave(image) => push_start(text, b"leave", image),
        Entry::Ack(image, operation, stage) => {
            push_start(text, b"ack", image)?;
            push_operation(text, operation)?;
            push_stage(text, stage)
        }
        Entry::Return(image, operation) => {
            push_start(text, b"return", image)?;
            push_operation(text, operation)
        }
        Entry::Offer(image, from) => {
            push_start(text, b"offer", image)?;
            push_number(text, b' ', from)
        }
        Entry::Contribute(image, four) => {
            push_start(text, b"contribute", image)?;
            push_four(text, four)
        }
        Entry::Relay(image, from) => {
            push_start(text, b"relay", image)?;
            push_number(text, b' ', from)
        }
        Entry::Result(image, sum) => {
            push_start(text, b"result", image)?;
            push_number(text, b' ', sum)
        }
    }
}

/// The first word of a line, and the image.
fn push_start(text: &mut Vec<u8>, kind: &[u8], image: u32) -> Result<(), Memory>
    ensures { OnOk result (text.new.items ≡ text.old.items ++ (kind.now ++ 32 ∷ decimal image)) }
{
    text.extend_from_slice(kind)?;
    push_number(text, b' ', image)
}

fn push_operation(text: &mut Vec<u8>, operation: OpName) -> Result<(), Memory>
    ensures { OnOk result (text.new.items ≡ text.old.items ++ 32 ∷ operation_word operation) }
{
    push_number(text, b' ', operation.image)?;
    push_number(text, b'.', operation.number)
}

fn push_four(text: &mut Vec<u8>, four: Four) -> Result<(), Memory>
    ensures { OnOk result (text.new.items ≡ text.old.items ++ 32 ∷ join_with_byte 32 (count_words four)) }
{
    push_number(text, b' ', four.sent)?;
    push_number(text, b' ', four.delivered)?;
    push_number(text, b' ', four.received)?;
    push_number(text, b' ', four.completed)
}

fn push_stage(text: &mut Vec<u8>, stage: Stage) -> Result<(), Memory>
    ensures { OnOk result (text.new.items ≡ text.old.items ++ 32 ∷ stage_word stage) }
{
    text.push(b' ')?;
    text.extend_from_slice(word_of(stage))?;
    Ok(())
}

fn word_of(stage: Stage) -> &'static [u8]
    ensures { result.now ≡ stage_word stage }
{
    match stage {
        Stage::Ship => b"ship",
        Stage::Notice => b"notice",
        Stage::Start => b"start",
        Stage::Fetch => b"fetch",
        Stage::Store => b"store",
        Stage::Read => b"read",
        Stage::Write => b"write",
    }
}

/// The mark, and the number in decimal.
fn push_number<I: Integer>(text: &mut Vec<u8>, mark: u8, number: I) -> Result<(), Memory>
    ensures { OnOk result (text.new.items ≡ text.old.items ++ mark ∷ I.text number) }
{
    text.push(mark)?;
    text.extend_from_slice(Buffer::new().format(number).as_bytes())?;
    Ok(())
}
