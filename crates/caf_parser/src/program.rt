//! Subroutines and units.

ghost use Rattle.std.specs.Prelude.{◌≡◌, List, IfOk, IfErr};
ghost use Rattle.caf_lexer.specs.declared.token.Token.{Token};
ghost use Rattle.caf_tree.specs.Forms.{or_none};
ghost use Rattle.caf_tree.specs.Units.{Spells};
ghost use Rattle.caf_tree.specs.declared.unit.Unit.{Unit as Program};
ghost use Rattle.caf_exprparse.specs.Reader as e;
ghost use Rattle.caf_exprparse.specs.Reading as reading;
ghost use Rattle.caf_exprparse.specs.Reads.{Reads};
ghost use Rattle.caf_exprparse.specs.Told as token;
ghost use Rattle.caf_parser.specs.Answer.{SpellsShallow, WhyRefused};
ghost use Rattle.caf_simpleparse.specs.Choices as choices;
ghost use Rattle.caf_parser.specs.Reader as r;

use crate::block::statements;
use crate::declaration::Declarations;
use caf_base::Text;
use caf_exprparse::{MOST_LEVELS, ParseFault, Tokens};
use caf_lexer::{Sign, Token, Word};
use caf_tree::a_unit_needs_as_many_levels_as_it_is_deep;
use caf_tree::stmt::Stmt;
use caf_tree::unit::{Decl, Sub, Unit};
use sqlite_items::Items;
use std::alloc::Global;

fn none(c: &mut Tokens<'_>) -> Result<(), ParseFault>
    ensures { Reads (reading.lead (token.word' Word.Implicit) (reading.lead (token.word' Word.None) token.end') c.old) result c.new }
{
    c.word(Word::Implicit)?;
    c.word(Word::None)?;
    c.end()
}

#[tactic(auto, unfolding(crate::specs::Reader::implicit_none))]
fn implicit_none(c: &mut Tokens<'_>) -> Result<(), ParseFault>
    ensures { Reads (r.implicit_none c.old) result c.new }
{
    let before = c.mark();
    match none(c) {
        Ok(()) => Ok(()),
        Err(ParseFault::Syntax(_)) => {
            c.back(before);
            Ok(())
        }
        Err(fault) => Err(fault),
    }
}

fn name_after(c: &mut Tokens<'_>, name: &str) -> Result<(), ParseFault>
    ensures { Reads (choices.perhaps (token.named name.now) c.old) result c.new }
{
    let before = c.mark();
    match c.named(name) {
        Ok(()) => Ok(()),
        Err(ParseFault::Syntax(_)) => {
            c.back(before);
            Ok(())
        }
        Err(fault) => Err(fault),
    }
}

fn word_and_name(c: &mut Tokens<'_>, word: Word, name: &str) -> Result<(), ParseFault>
    ensures { Reads (reading.lead (token.word' word) (choices.perhaps (token.named name.now)) c.old) result c.new }
{
    c.word(word)?;
    name_after(c, name)
}

fn perhaps_word_and_name(c: &mut Tokens<'_>, word: Word, name: &str) -> Result<(), ParseFault>
    ensures { Reads (choices.perhaps (reading.lead (token.word' word) (choices.perhaps (token.named name.now))) c.old) result c.new }
{
    let before = c.mark();
    match word_and_name(c, word, name) {
        Ok(()) => Ok(()),
        Err(ParseFault::Syntax(_)) => {
            c.back(before);
            Ok(())
        }
        Err(fault) => Err(fault),
    }
}

/// The end of what has this name: `end`, which a word and the name may follow, or one word, which the name may follow.
#[tactic(auto, unfolding(crate::specs::Reader::end_of))]
fn end_of(c: &mut Tokens<'_>, word: Word, together: Word, name: &str) -> Result<(), ParseFault>
    ensures { Reads (r.end_of word together name.now c.old) result c.new }
{
    if c.sees_word(Word::End) {
        c.word(Word::End)?;
        return perhaps_word_and_name(c, word, name);
    }
    c.word(together)?;
    name_after(c, name)
}

#[tactic(auto, unfolding(crate::specs::Reader::body))]
fn body(
    alloc: Global,
    c: &mut Tokens<'_>,
    depth: u32,
) -> Result<(Items<Decl>, Items<Stmt>), ParseFault>
    ensures { Reads (r.body depth c.old) result c.new }
{
    implicit_none(c)?;
    let declarations = Declarations { alloc, depth }.declarations(c)?;
    let body = statements(alloc, c, depth)?;
    Ok((declarations, body))
}

fn names_inside(alloc: Global, c: &mut Tokens<'_>, depth: u32) -> Result<Items<Text>, ParseFault>
    ensures { Reads (reading.inside r.names depth c.old) result c.new }
{
    if depth == 0 {
        return Err(ParseFault::Deep(c.line()));
    }
    Declarations { alloc, depth }.names(c)
}

#[tactic(auto, unfolding(caf_simpleparse::specs::Choices::list_in))]
fn name_list(alloc: Global, c: &mut Tokens<'_>, depth: u32) -> Result<Items<Text>, ParseFault>
    ensures { Reads (choices.list_in r.names depth c.old) result c.new }
{
    c.sign(Sign::LeftParenthesis)?;
    if c.sees_sign(Sign::RightParenthesis) {
        c.sign(Sign::RightParenthesis)?;
        return Ok(Items::new(alloc));
    }
    let names = names_inside(alloc, c, depth)?;
    c.sign(Sign::RightParenthesis)?;
    Ok(names)
}

fn perhaps_names(alloc: Global, c: &mut Tokens<'_>, depth: u32) -> Result<Items<Text>, ParseFault>
    ensures { Reads (choices.perhaps_list r.names depth c.old) result c.new }
{
    let before = c.mark();
    match name_list(alloc, c, depth) {
        Ok(names) => Ok(names),
        Err(ParseFault::Syntax(_)) => {
            c.back(before);
            Ok(Items::new(alloc))
        }
        Err(fault) => Err(fault),
    }
}

#[tactic(auto, unfolding(crate::specs::Reader::heading))]
fn heading(alloc: Global, c: &mut Tokens<'_>, depth: u32) -> Result<(Text, Items<Text>), ParseFault>
    ensures { Reads (r.heading depth c.old) result c.new }
{
    let name = c.name(alloc)?;
    let dummies = perhaps_names(alloc, c, depth)?;
    c.end()?;
    Ok((name, dummies))
}

/// The heading of a subroutine, and what is declared and stated in it.
type SubParts = ((Text, Items<Text>), (Items<Decl>, Items<Stmt>));

fn sub_parts(alloc: Global, c: &mut Tokens<'_>, depth: u32) -> Result<SubParts, ParseFault>
    ensures { Reads (reading.both (r.heading depth) (r.body depth) c.old) result c.new }
{
    let heading = heading(alloc, c, depth)?;
    let body = body(alloc, c, depth)?;
    Ok((heading, body))
}

#[tactic(auto, unfolding(crate::specs::Reader::sub))]
fn sub(alloc: Global, c: &mut Tokens<'_>, depth: u32) -> Result<Sub, ParseFault>
    ensures { Reads (r.sub depth c.old) result c.new }
{
    let line = c.first_line();
    c.word(Word::Subroutine)?;
    let ((name, dummies), (declarations, body)) = sub_parts(alloc, c, depth)?;
    end_of(c, Word::Subroutine, Word::EndSubroutine, name.as_str())?;
    c.end()?;
    Ok(Sub {
        line,
        name,
        dummies,
        declarations,
        body,
    })
}

fn many_subs(alloc: Global, c: &mut Tokens<'_>, depth: u32) -> Result<Items<Sub>, ParseFault>
    ensures { Reads (reading.many (r.sub depth) c.old) result c.new }
{
    let mut found = Items::new(alloc);
    for _turn in 0..c.left() {
        let before = c.mark();
        match sub(alloc, c, depth) {
            Ok(item) => found.push(item)?,
            Err(ParseFault::Syntax(_)) => {
                c.back(before);
                return Ok(found);
            }
            Err(fault) => return Err(fault),
        }
    }
    Ok(found)
}

fn contained(alloc: Global, c: &mut Tokens<'_>, depth: u32) -> Result<Items<Sub>, ParseFault>
    ensures { Reads (reading.lead (token.word' Word.Contains) (reading.lead token.end' (reading.many (r.sub depth))) c.old) result c.new }
{
    c.word(Word::Contains)?;
    c.end()?;
    many_subs(alloc, c, depth)
}

#[tactic(auto, unfolding(crate::specs::Reader::subs))]
fn subs(alloc: Global, c: &mut Tokens<'_>, depth: u32) -> Result<Items<Sub>, ParseFault>
    ensures { Reads (r.subs depth c.old) result c.new }
{
    let before = c.mark();
    match contained(alloc, c, depth) {
        Ok(subs) => Ok(subs),
        Err(ParseFault::Syntax(_)) => {
            c.back(before);
            Ok(Items::new(alloc))
        }
        Err(fault) => Err(fault),
    }
}

fn title(alloc: Global, c: &mut Tokens<'_>) -> Result<Text, ParseFault>
    ensures { Reads (reading.trail e.name token.end' c.old) result c.new }
{
    let name = c.name(alloc)?;
    c.end()?;
    Ok(name)
}

/// The name of a unit, what is declared and stated in its main part, and its subroutines.
type UnitParts = ((Text, (Items<Decl>, Items<Stmt>)), Items<Sub>);

fn unit_parts(alloc: Global, c: &mut Tokens<'_>, depth: u32) -> Result<UnitParts, ParseFault>
    ensures { Reads (reading.both (reading.both (reading.trail e.name token.end') (r.body depth)) (r.subs depth) c.old) result c.new }
{
    let name = title(alloc, c)?;
    let body = body(alloc, c, depth)?;
    let subs = subs(alloc, c, depth)?;
    Ok(((name, body), subs))
}

#[tactic(auto, unfolding(crate::specs::Reader::unit_in))]
fn unit_in(alloc: Global, c: &mut Tokens<'_>, depth: u32) -> Result<Unit, ParseFault>
    ensures { Reads (r.unit_in depth c.old) result c.new }
{
    c.word(Word::Program)?;
    let ((name, (declarations, body)), subs) = unit_parts(alloc, c, depth)?;
    end_of(c, Word::Program, Word::EndProgram, name.as_str())?;
    c.end()?;
    Ok(Unit {
        name,
        declarations,
        body,
        subs,
    })
}

/// The one unit that the tokens spell. Its blocks, parentheses and brackets nest at most 100 deep.
pub fn unit(alloc: Global, tokens: &[Token]) -> Result<Unit, ParseFault>
    // What is answered is spelled, and no deeper.
    ensures spelled { IfOk result (λ u. SpellsShallow tokens.now u) }
    // What is spelled is what is answered.
    ensures only { (v : Program) → Spells tokens.now v → IfOk result (λ u. u ≡ v) }
    ensures refused { IfErr result (WhyRefused tokens.now) }
{
    a_unit_needs_as_many_levels_as_it_is_deep();
    let mut c = Tokens::new(tokens);
    match unit_in(alloc, &mut c, MOST_LEVELS) {
        Ok(unit) => {
            if c.left() > 0 {
                return Err(ParseFault::Syntax(c.fault_line()));
            }
            Ok(unit)
        }
        Err(fault) => Err(fault),
    }
}
