ghost use Rattle.std.specs.Prelude.{◌≡◌, ◌++◌, codes, IfOk};
ghost use Rattle.caf_top.specs.Reading.{Says, SaysIf, told_by};
ghost use Rattle.caf_top.specs.Refusals.{at_name, refusal_line, told_of_kinds, told_of_ships, told_of_tokens};

use caf_base::{Memory, Text};
use caf_kinds::KindFault;
use caf_lexer::LexFault;
use caf_teamcheck::ShipFault;
use itoa::Buffer;
use std::alloc::Global;

/// A line of a text, and what is wrong there.
#[derive(Drop)]
pub(crate) struct Refusal {
    pub(crate) line: u32,
    pub(crate) what: Text,
}

/// Why there is no program.
#[derive(Drop)]
pub(crate) enum Stop {
    Refused(Refusal),
    Memory,
}

/// These words, about a line.
pub(crate) fn refused(alloc: Global, line: u32, what: &str) -> Stop
    ensures { Says (line, what.now) result }
{
    match Text::copy_of(alloc, what) {
        Ok(what) => Stop::Refused(Refusal { line, what }),
        Err(_) => Stop::Memory,
    }
}

fn words_at(alloc: Global, word: &str, name: &str) -> Result<Text, Memory>
    ensures { IfOk result (λ what. what ≡ at_name word.now name.now) }
{
    let mut what = String::from_str(alloc, word)?;
    what.push_str(" ")?;
    what.push_str(name)?;
    Ok(Text::from_string(what))
}

/// A word about a name of the line.
fn refused_at(alloc: Global, line: u32, word: &str, name: &str) -> Stop
    ensures { Says (line, at_name word.now name.now) result }
{
    match words_at(alloc, word, name) {
        Ok(what) => Stop::Refused(Refusal { line, what }),
        Err(_) => Stop::Memory,
    }
}

/// What a fault of the tokens tells.
pub(crate) fn of_tokens(alloc: Global, fault: LexFault) -> Stop
    ensures { SaysIf (told_of_tokens fault) result }
{
    match fault {
        LexFault::NotAscii(line) => refused(alloc, line, "not ascii"),
        LexFault::LongLine(line) => refused(alloc, line, "long line"),
        LexFault::BadToken(line) => refused(alloc, line, "bad token"),
        LexFault::BadNumber(line) => refused(alloc, line, "bad number"),
        LexFault::OpenContinuation(line) => refused(alloc, line, "open continuation"),
        LexFault::Memory => Stop::Memory,
    }
}

/// What a fault of names and kinds tells.
pub(crate) fn of_kinds(alloc: Global, fault: &KindFault) -> Stop
    ensures { SaysIf (told_of_kinds fault.now) result }
{
    match fault {
        KindFault::Undeclared(line, name) => refused_at(alloc, *line, "undeclared", name.as_str()),
        KindFault::Twice(line, name) => refused_at(alloc, *line, "twice", name.as_str()),
        KindFault::WrongKind(line, name) => refused_at(alloc, *line, "kind", name.as_str()),
        KindFault::WrongCount(line, name) => refused_at(alloc, *line, "count", name.as_str()),
        KindFault::NotCoarray(line, name) => refused_at(alloc, *line, "coarray", name.as_str()),
        KindFault::DoVariable(line, name) => {
            refused_at(alloc, *line, "do variable", name.as_str())
        }
        KindFault::ReadOnly(line, name) => refused_at(alloc, *line, "read only", name.as_str()),
        KindFault::BadConstant(line, name) => refused_at(alloc, *line, "constant", name.as_str()),
        KindFault::TooManyCells(line, name) => refused_at(alloc, *line, "cells", name.as_str()),
        KindFault::Memory => Stop::Memory,
    }
}

/// What a fault of ships tells.
pub(crate) fn of_ships(alloc: Global, fault: &ShipFault) -> Stop
    ensures { SaysIf (told_of_ships fault.now) result }
{
    match fault {
        ShipFault::CollectiveInShip(line, name) => {
            refused_at(alloc, *line, "collective", name.as_str())
        }
        ShipFault::InoutInShip(line, name) => refused_at(alloc, *line, "inout", name.as_str()),
        ShipFault::Memory => Stop::Memory,
    }
}

/// The line that is written of a refusal.
pub(crate) fn line_of(alloc: Global, refusal: &Refusal) -> Result<Vec<u8>, Memory>
    ensures { IfOk result (λ line. line.items ≡ refusal_line (told_by refusal.now)) }
{
    let mut number = Buffer::new();
    let mut line = Vec::from_slice(alloc, b"refused: line ")?;
    line.extend_from_slice(number.format(refusal.line).as_bytes())?;
    line.extend_from_slice(b": ")?;
    line.extend_from_slice(refusal.what.as_str().as_bytes())?;
    line.extend_from_slice(b"\n")?;
    Ok(line)
}
