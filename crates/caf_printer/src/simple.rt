//! The tokens of a statement without a block.

ghost use Rattle.std.specs.Prelude.{◌≡◌, ◌++◌, ◌∷◌, [], OnOk};
ghost use Rattle.caf_lexer.specs.declared.token.Sign.TheVariants as sign;
ghost use Rattle.caf_lexer.specs.declared.token.What.TheVariants as what;
ghost use Rattle.caf_lexer.specs.declared.token.Word.TheVariants as word;
ghost use Rattle.caf_tree.specs.Expressions.{team_what};
ghost use Rattle.caf_tree.specs.Statements as spec;
ghost use Rattle.caf_tree.specs.Said.{if_any, each_after, listed, perhaps_list, in_parentheses, of_name, comma, event_said, own_said, range_said, section_said, key_said, fence_said, printed_said, expression_said, simple_said, place_said};

use crate::expression::{
    add_expression, add_in_parentheses, add_next, add_place, add_rank, add_variable,
};
use crate::line::Line;
use caf_base::Memory;
use caf_lexer::{Sign, Word};
use caf_tree::expr::{Expr, Place, Team, Variable};
use caf_tree::stmt::{Fence, FenceClass, Key, OwnEvent, Printed, Range, Section, Simple};
use sqlite_items::Boxed;

/// Adds expressions, each behind a comma.
fn add_others<'a>(others: &'a [Expr], line: &mut Line<'a>) -> Result<(), Memory>
    ensures { OnOk result (line.new ≡ line.old ++ each_after sign.Comma expression_said others.now) }
{
    for other in others {
        add_next(other, line)?;
    }
    Ok(())
}

/// Adds expressions with commas between them.
fn add_list<'a>(items: &'a [Expr], line: &mut Line<'a>) -> Result<(), Memory>
    ensures { OnOk result (line.new ≡ line.old ++ listed expression_said items.now) }
{
    match items {
        [] => Ok(()),
        [first, others @ ..] => {
            add_expression(first, line)?;
            add_others(others, line)?;
            Ok(())
        }
    }
}

/// Adds expressions with commas between them, within parentheses.
fn add_arguments<'a>(arguments: &'a [Expr], line: &mut Line<'a>) -> Result<(), Memory>
    ensures { OnOk result (line.new ≡ line.old ++ in_parentheses (listed expression_said arguments.now)) }
{
    line.sign(Sign::LeftParenthesis)?;
    add_list(arguments, line)?;
    line.sign(Sign::RightParenthesis)
}

/// Adds an expression, if there is one.
fn add_optional<'a>(e: &'a Option<Expr>, line: &mut Line<'a>) -> Result<(), Memory>
    ensures { OnOk result (line.new ≡ line.old ++ if_any expression_said e.now) }
{
    match e {
        None => Ok(()),
        Some(e) => add_expression(e, line),
    }
}

fn add_range<'a>(range: &'a Range, line: &mut Line<'a>) -> Result<(), Memory>
    ensures { OnOk result (line.new ≡ line.old ++ range_said range.now) }
{
    match range {
        Range::Whole => Ok(()),
        Range::Element(index) => add_in_parentheses(index, line),
        Range::Between(first, last) => {
            line.sign(Sign::LeftParenthesis)?;
            add_optional(first, line)?;
            line.sign(Sign::Colon)?;
            add_optional(last, line)?;
            line.sign(Sign::RightParenthesis)?;
            Ok(())
        }
    }
}

fn add_section<'a>(section: &'a Section, line: &mut Line<'a>) -> Result<(), Memory>
    ensures { OnOk result (line.new ≡ line.old ++ section_said section.now) }
{
    line.name(section.name.as_str())?;
    add_range(&section.range, line)?;
    add_place(&section.place, line)
}

fn add_own<'a>(event: &'a OwnEvent, line: &mut Line<'a>) -> Result<(), Memory>
    ensures { OnOk result (line.new ≡ line.old ++ own_said event.now) }
{
    line.name(event.name.as_str())?;
    match &event.subscript {
        None => Ok(()),
        Some(subscript) => add_in_parentheses(subscript, line),
    }
}

/// Adds an event within parentheses.
fn add_event<'a>(event: &'a Variable<Boxed<Expr>>, line: &mut Line<'a>) -> Result<(), Memory>
    ensures { OnOk result (line.new ≡ line.old ++ in_parentheses (event_said event.now)) }
{
    line.sign(Sign::LeftParenthesis)?;
    add_variable(event, line)?;
    line.sign(Sign::RightParenthesis)
}

/// Adds the word of a key, and the sign behind it.
fn add_key_word(word: Word, line: &mut Line<'_>) -> Result<(), Memory>
    ensures { OnOk result (line.new ≡ line.old ++ what.Word word ∷ what.Sign sign.Assign ∷ []) }
{
    line.word(word)?;
    line.sign(Sign::Assign)
}

fn add_key<'a>(key: &'a Key, line: &mut Line<'a>) -> Result<(), Memory>
    ensures { OnOk result (line.new ≡ line.old ++ key_said key.now) }
{
    match key {
        Key::Pre(event) => {
            add_key_word(Word::Pre, line)?;
            add_own(event, line)?;
            Ok(())
        }
        Key::Srce(event) => {
            add_key_word(Word::Srce, line)?;
            add_variable(event, line)?;
            Ok(())
        }
        Key::Deste(event) => {
            add_key_word(Word::Deste, line)?;
            add_variable(event, line)?;
            Ok(())
        }
    }
}

fn add_keys<'a>(keys: &'a [Key], line: &mut Line<'a>) -> Result<(), Memory>
    ensures { OnOk result (line.new ≡ line.old ++ each_after sign.Comma key_said keys.now) }
{
    for key in keys {
        line.sign(Sign::Comma)?;
        add_key(key, line)?;
    }
    Ok(())
}

fn class_name<'a>(class: FenceClass) -> &'a str
    ensures { result.now ≡ spec.class_name class }
{
    match class {
        FenceClass::Read => "read",
        FenceClass::Write => "write",
        FenceClass::Any => "any",
    }
}

/// Adds a name, `=` and a class of accesses.
fn add_way<'a>(name: &'a str, class: FenceClass, line: &mut Line<'a>) -> Result<(), Memory>
    ensures { OnOk result (line.new ≡ line.old ++ what.Name name.now ∷ what.Sign sign.Assign ∷ of_name (spec.class_name class)) }
{
    let class = class_name(class);
    line.name(name)?;
    line.sign(Sign::Assign)?;
    line.name(class)
}

fn add_fence(fence: Fence, line: &mut Line<'_>) -> Result<(), Memory>
    ensures { OnOk result (line.new ≡ line.old ++ fence_said fence) }
{
    match fence {
        Fence::Down(class) => add_way("down", class, line),
        Fence::Up(class) => add_way("up", class, line),
    }
}

fn add_other_fences(fences: &[Fence], line: &mut Line<'_>) -> Result<(), Memory>
    ensures { OnOk result (line.new ≡ line.old ++ each_after sign.Comma fence_said fences.now) }
{
    for fence in fences {
        line.sign(Sign::Comma)?;
        add_fence(*fence, line)?;
    }
    Ok(())
}

fn add_fences(fences: &[Fence], line: &mut Line<'_>) -> Result<(), Memory>
    ensures { OnOk result (line.new ≡ line.old ++ perhaps_list fence_said fences.now) }
{
    match fences {
        [] => Ok(()),
        [first, others @ ..] => {
            line.sign(Sign::LeftParenthesis)?;
            add_fence(*first, line)?;
            add_other_fences(others, line)?;
            line.sign(Sign::RightParenthesis)?;
            Ok(())
        }
    }
}

fn add_printed<'a>(item: &'a Printed, line: &mut Line<'a>) -> Result<(), Memory>
    ensures { OnOk result (line.new ≡ line.old ++ printed_said item.now) }
{
    match item {
        Printed::Value(e) => add_expression(e, line),
        Printed::Text(content) => line.text(content.as_str()),
    }
}

fn add_print<'a>(items: &'a [Printed], line: &mut Line<'a>) -> Result<(), Memory>
    ensures { OnOk result (line.new ≡ line.old ++ what.Word word.Print ∷ what.Sign sign.Asterisk ∷ each_after sign.Comma printed_said items.now) }
{
    line.word(Word::Print)?;
    line.sign(Sign::Asterisk)?;
    for item in items {
        line.sign(Sign::Comma)?;
        add_printed(item, line)?;
    }
    Ok(())
}

fn add_assign<'a>(
    target: &'a Variable<Boxed<Expr>>,
    value: &'a Expr,
    line: &mut Line<'a>,
) -> Result<(), Memory>
    ensures { OnOk result (line.new ≡ line.old ++ event_said target.now ++ what.Sign sign.Assign ∷ expression_said value.now) }
{
    add_variable(target, line)?;
    line.sign(Sign::Assign)?;
    add_expression(value, line)
}

fn add_aim<'a>(copointer: &'a str, section: &'a Section, line: &mut Line<'a>) -> Result<(), Memory>
    ensures { OnOk result (line.new ≡ line.old ++ what.Name copointer.now ∷ what.Sign sign.Arrow ∷ section_said section.now) }
{
    line.name(copointer)?;
    line.sign(Sign::Arrow)?;
    add_section(section, line)
}

fn add_call<'a>(
    subroutine: &'a str,
    arguments: &'a [Expr],
    line: &mut Line<'a>,
) -> Result<(), Memory>
    ensures { OnOk result (line.new ≡ line.old ++ what.Word word.Call ∷ what.Name subroutine.now ∷ perhaps_list expression_said arguments.now) }
{
    line.word(Word::Call)?;
    line.name(subroutine)?;
    match arguments {
        [] => Ok(()),
        _ => add_arguments(arguments, line),
    }
}

/// Adds the event of a `spawn`, if there is one.
fn add_done<'a>(done: &'a Option<Variable<Boxed<Expr>>>, line: &mut Line<'a>) -> Result<(), Memory>
    ensures { OnOk result (line.new ≡ line.old ++ if_any (λ v. in_parentheses (event_said v)) done.now) }
{
    match done {
        None => Ok(()),
        Some(event) => add_event(event, line),
    }
}

/// Adds what a `spawn` begins, and where.
fn add_spawned<'a>(
    subroutine: &'a str,
    arguments: &'a [Expr],
    place: &'a Place<Expr>,
    line: &mut Line<'a>,
) -> Result<(), Memory>
    ensures { OnOk result (line.new ≡ line.old ++ what.Name subroutine.now ∷ in_parentheses (listed expression_said arguments.now) ++ place_said expression_said place.now) }
{
    line.name(subroutine)?;
    add_arguments(arguments, line)?;
    add_rank(&place.rank, &place.team, line)
}

/// Adds what stands within the parentheses of a copy.
fn add_copied<'a>(
    destination: &'a Section,
    source: &'a Section,
    keys: &'a [Key],
    line: &mut Line<'a>,
) -> Result<(), Memory>
    ensures { OnOk result (line.new ≡ line.old ++ section_said destination.now ++ comma (section_said source.now) ++ each_after sign.Comma key_said keys.now) }
{
    add_section(destination, line)?;
    line.sign(Sign::Comma)?;
    add_section(source, line)?;
    add_keys(keys, line)
}

fn add_copy<'a>(
    destination: &'a Section,
    source: &'a Section,
    keys: &'a [Key],
    line: &mut Line<'a>,
) -> Result<(), Memory>
    ensures { OnOk result (line.new ≡ line.old ++ what.Word word.CopyAsync ∷ in_parentheses (section_said destination.now ++ comma (section_said source.now) ++ each_after sign.Comma key_said keys.now)) }
{
    line.word(Word::CopyAsync)?;
    line.sign(Sign::LeftParenthesis)?;
    add_copied(destination, source, keys, line)?;
    line.sign(Sign::RightParenthesis)
}

/// Adds a team, as it is named where it can't be missing.
fn add_named_team<'a>(team: &'a Team, line: &mut Line<'a>) -> Result<(), Memory>
    ensures { OnOk result (line.new ≡ line.old ++ team_what team.now ∷ []) }
{
    match team {
        Team::World => line.word(Word::TeamWorld),
        Team::Named(name) => line.name(name.as_str()),
    }
}

/// Adds what stands within the parentheses of a split.
fn add_parted<'a>(
    team: &'a Team,
    colour: &'a Expr,
    key: &'a Expr,
    new: &'a str,
    line: &mut Line<'a>,
) -> Result<(), Memory>
    ensures { OnOk result (line.new ≡ line.old ++ team_what team.now ∷ comma (expression_said colour.now) ++ comma (expression_said key.now) ++ comma (of_name new.now)) }
{
    add_named_team(team, line)?;
    add_next(colour, line)?;
    add_next(key, line)?;
    line.sign(Sign::Comma)?;
    line.name(new)
}

/// Adds a statement without a block.
pub fn add_simple<'a>(action: &'a Simple, line: &mut Line<'a>) -> Result<(), Memory>
    ensures { OnOk result (line.new ≡ line.old ++ simple_said action.now) }
{
    match action {
        Simple::Assign { target, value } => add_assign(target, value, line),
        Simple::Aim { copointer, section } => add_aim(copointer.as_str(), section, line),
        Simple::Print { items } => add_print(items.as_slice(), line),
        Simple::Call {
            subroutine,
            arguments,
        } => add_call(subroutine.as_str(), arguments.as_slice(), line),
        Simple::Spawn {
            done,
            subroutine,
            arguments,
            place,
        } => {
            line.word(Word::Spawn)?;
            add_done(done, line)?;
            add_spawned(subroutine.as_str(), arguments.as_slice(), place, line)?;
            Ok(())
        }
        Simple::Notify { event } => {
            line.word(Word::EventNotify)?;
            add_event(event, line)?;
            Ok(())
        }
        Simple::Wait { event } => {
            line.word(Word::EventWait)?;
            line.sign(Sign::LeftParenthesis)?;
            add_own(event, line)?;
            line.sign(Sign::RightParenthesis)?;
            Ok(())
        }
        Simple::Copy {
            destination,
            source,
            keys,
        } => add_copy(destination, source, keys.as_slice(), line),
        Simple::Cofence { fences } => {
            line.word(Word::Cofence)?;
            add_fences(fences.as_slice(), line)?;
            Ok(())
        }
        Simple::Split {
            team,
            colour,
            key,
            new,
        } => {
            line.word(Word::TeamSplit)?;
            line.sign(Sign::LeftParenthesis)?;
            add_parted(team, colour, key, new.as_str(), line)?;
            line.sign(Sign::RightParenthesis)?;
            Ok(())
        }
    }
}
