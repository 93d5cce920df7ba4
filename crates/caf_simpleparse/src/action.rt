//! Statements without a block, at a level of blocks, parentheses and brackets.

ghost use Rattle.caf_exprparse.specs.Reading as reading;
ghost use Rattle.caf_exprparse.specs.Reads.{Reads};
ghost use Rattle.caf_exprparse.specs.Told as token;
ghost use Rattle.caf_simpleparse.specs.Reader as r;

use crate::ahead::second_is_sign;
use crate::beside::{closed, with_keys_once};
use crate::parts::Parts;
use caf_exprparse::{ParseFault, Tokens};
use caf_lexer::{Sign, What, Word};
use caf_tree::stmt::{Key, Section, Simple};
use sqlite_items::Items;

#[tactic(auto, unfolding(crate::specs::Reader::assign, crate::specs::Reader::event))]
fn assign(parts: Parts, c: &mut Tokens<'_>) -> Result<Simple, ParseFault>
    ensures { Reads (r.assign parts.depth c.old) result c.new }
{
    let target = parts.event(c)?;
    c.sign(Sign::Assign)?;
    let value = parts.value(c)?;
    Ok(Simple::Assign { target, value })
}

#[tactic(auto, unfolding(crate::specs::Reader::aim))]
fn aim(parts: Parts, c: &mut Tokens<'_>) -> Result<Simple, ParseFault>
    ensures { Reads (r.aim parts.depth c.old) result c.new }
{
    let copointer = c.name(parts.alloc)?;
    c.sign(Sign::Arrow)?;
    let section = parts.section(c)?;
    Ok(Simple::Aim { copointer, section })
}

#[tactic(auto, unfolding(crate::specs::Reader::print))]
fn print(parts: Parts, c: &mut Tokens<'_>) -> Result<Simple, ParseFault>
    ensures { Reads (r.print parts.depth c.old) result c.new }
{
    c.word(Word::Print)?;
    c.sign(Sign::Asterisk)?;
    let items = parts.more_printed(c)?;
    Ok(Simple::Print { items })
}

#[tactic(auto, unfolding(crate::specs::Reader::call_named))]
fn call_named(parts: Parts, c: &mut Tokens<'_>) -> Result<Simple, ParseFault>
    ensures { Reads (r.call_named parts.depth c.old) result c.new }
{
    let subroutine = c.name(parts.alloc)?;
    let arguments = parts.perhaps_arguments(c)?;
    Ok(Simple::Call {
        subroutine,
        arguments,
    })
}

#[tactic(auto, unfolding(crate::specs::Reader::spawn))]
fn spawn(parts: Parts, c: &mut Tokens<'_>) -> Result<Simple, ParseFault>
    ensures { Reads (r.spawn parts.depth c.old) result c.new }
{
    c.word(Word::Spawn)?;
    let done = parts.perhaps_event(c)?;
    let named = parts.beside_name(done, c)?;
    let shipped = parts.beside_arguments(named, c)?;
    let (((done, subroutine), arguments), place) = parts.beside_place(shipped, c)?;
    Ok(Simple::Spawn {
        done,
        subroutine,
        arguments,
        place,
    })
}

#[tactic(auto, unfolding(crate::specs::Reader::notify))]
fn notify(parts: Parts, c: &mut Tokens<'_>) -> Result<Simple, ParseFault>
    ensures { Reads (r.notify parts.depth c.old) result c.new }
{
    c.word(Word::EventNotify)?;
    let event = parts.event_in(c)?;
    Ok(Simple::Notify { event })
}

#[tactic(auto, unfolding(crate::specs::Reader::wait))]
fn wait(parts: Parts, c: &mut Tokens<'_>) -> Result<Simple, ParseFault>
    ensures { Reads (r.wait parts.depth c.old) result c.new }
{
    c.word(Word::EventWait)?;
    let event = parts.own_event_in(c)?;
    Ok(Simple::Wait { event })
}

fn copied(parts: Parts, c: &mut Tokens<'_>) -> Result<((Section, Section), Items<Key>), ParseFault>
    ensures { Reads (reading.lead (token.word' Word.CopyAsync) (token.in_parentheses (reading.inside r.copy_in parts.depth)) c.old) result c.new }
{
    c.word(Word::CopyAsync)?;
    c.sign(Sign::LeftParenthesis)?;
    let copied = parts.copied_inside(c)?;
    closed(copied, c)
}

#[tactic(auto, unfolding(crate::specs::Reader::copy))]
fn copy(parts: Parts, c: &mut Tokens<'_>) -> Result<Simple, ParseFault>
    ensures { Reads (r.copy parts.depth c.old) result c.new }
{
    let copied = copied(parts, c)?;
    let ((destination, source), keys) = with_keys_once(copied, c)?;
    Ok(Simple::Copy {
        destination,
        source,
        keys,
    })
}

#[tactic(auto, unfolding(crate::specs::Reader::cofence))]
fn cofence(parts: Parts, c: &mut Tokens<'_>) -> Result<Simple, ParseFault>
    ensures { Reads (r.cofence parts.depth c.old) result c.new }
{
    c.word(Word::Cofence)?;
    let fences = parts.perhaps_fences(c)?;
    Ok(Simple::Cofence { fences })
}

#[tactic(auto, unfolding(crate::specs::Reader::split))]
fn split(parts: Parts, c: &mut Tokens<'_>) -> Result<Simple, ParseFault>
    ensures { Reads (r.split parts.depth c.old) result c.new }
{
    c.word(Word::TeamSplit)?;
    c.sign(Sign::LeftParenthesis)?;
    let split = parts.split_inside(c)?;
    let (((team, colour), key), new) = closed(split, c)?;
    Ok(Simple::Split {
        team,
        colour,
        key,
        new,
    })
}

#[tactic(auto, unfolding(crate::specs::Reader::called))]
fn called(parts: Parts, c: &mut Tokens<'_>) -> Result<Simple, ParseFault>
    ensures { Reads (r.called parts.depth c.old) result c.new }
{
    c.word(Word::Call)?;
    match c.next() {
        Some(What::Name(_)) => call_named(parts, c),
        Some(What::Word(Word::EventNotify)) => notify(parts, c),
        Some(What::Word(Word::EventWait)) => wait(parts, c),
        Some(What::Word(Word::CopyAsync)) => copy(parts, c),
        Some(What::Word(Word::TeamSplit)) => split(parts, c),
        _ => Err(ParseFault::Syntax(c.fault_line())),
    }
}

#[tactic(auto, unfolding(crate::specs::Reader::assign_or_aim))]
fn assign_or_aim(parts: Parts, c: &mut Tokens<'_>) -> Result<Simple, ParseFault>
    ensures { Reads (r.assign_or_aim parts.depth c.old) result c.new }
{
    if second_is_sign(c, Sign::Arrow) {
        return aim(parts, c);
    }
    assign(parts, c)
}

fn by_word(parts: Parts, c: &mut Tokens<'_>, word: Word) -> Result<Simple, ParseFault>
    ensures { Reads (r.simple_by parts.depth (What.Word word) c.old) result c.new }
{
    match word {
        Word::Print => print(parts, c),
        Word::Call => called(parts, c),
        Word::Spawn => spawn(parts, c),
        Word::EventNotify => notify(parts, c),
        Word::EventWait => wait(parts, c),
        Word::CopyAsync => copy(parts, c),
        Word::Cofence => cofence(parts, c),
        Word::TeamSplit => split(parts, c),
        _ => Err(ParseFault::Syntax(c.fault_line())),
    }
}

/// A statement without a block, and without the end behind it.
#[tactic(auto, unfolding(crate::specs::Reader::simple))]
pub fn simple(parts: Parts, c: &mut Tokens<'_>) -> Result<Simple, ParseFault>
    ensures { Reads (r.simple parts.depth c.old) result c.new }
{
    match c.next() {
        Some(What::Name(_)) => assign_or_aim(parts, c),
        Some(What::Word(word)) => by_word(parts, c, *word),
        _ => Err(ParseFault::Syntax(c.fault_line())),
    }
}
