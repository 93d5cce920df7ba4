//! The lines of declarations.

ghost use Rattle.std.specs.Prelude.{◌≡◌, ◌≤◌, ◌++◌, ◌∷◌, [], List, ℕ, OnOk};
ghost use Rattle.std.specs.List.{flat_map};
ghost use Rattle.caf_lexer.specs.declared.token.Sign.TheVariants as sign;
ghost use Rattle.caf_lexer.specs.declared.token.What.TheVariants as what;
ghost use Rattle.caf_lexer.specs.declared.token.Word.TheVariants as word;
ghost use Rattle.caf_tree.specs.declared.expr.Expr.{Expr as Tree};
ghost use Rattle.caf_tree.specs.declared.unit.Decl.{Decl as Declared};
ghost use Rattle.caf_tree.specs.Units as grammar;
ghost use Rattle.caf_tree.specs.Said as spec;
ghost use Rattle.caf_tree.specs.Text.{line_text};

use crate::expression::add_expression;
use crate::line::Line;
use caf_base::{Memory, Text};
use caf_lexer::{Sign, Word};
use caf_tree::expr::Expr;
use caf_tree::unit::{Bounds, Decl, Intent, Item, ValueKind};
use std::alloc::Global;

fn kind_word(kind: ValueKind) -> Word
    ensures { result ≡ grammar.kind_word kind }
{
    match kind {
        ValueKind::Integer => Word::Integer,
        ValueKind::Logical => Word::Logical,
    }
}

fn intent_word(intent: Intent) -> Word
    ensures { result ≡ spec.intent_word intent }
{
    match intent {
        Intent::In => Word::In,
        Intent::InOut => Word::InOut,
    }
}

/// Adds the lower bound and the colon behind it, if there is one.
fn add_lower<'a>(lower: &'a Option<Expr>, line: &mut Line<'a>) -> Result<(), Memory>
    ensures { OnOk result (line.new ≡ line.old ++ spec.if_any (λ e. spec.expression_said e ++ spec.of_sign sign.Colon) lower.now) }
{
    match lower {
        None => Ok(()),
        Some(lower) => {
            add_expression(lower, line)?;
            line.sign(Sign::Colon)?;
            Ok(())
        }
    }
}

fn add_bounds<'a>(bounds: &'a Option<Bounds>, line: &mut Line<'a>) -> Result<(), Memory>
    ensures { OnOk result (line.new ≡ line.old ++ spec.if_any spec.bounds_said bounds.now) }
{
    match bounds {
        None => Ok(()),
        Some(bounds) => {
            line.sign(Sign::LeftParenthesis)?;
            add_lower(&bounds.lower, line)?;
            add_expression(&bounds.upper, line)?;
            line.sign(Sign::RightParenthesis)?;
            Ok(())
        }
    }
}

/// Adds `[*]`, where it stands.
fn add_shared(shared: bool, line: &mut Line<'_>) -> Result<(), Memory>
    ensures { OnOk result (line.new ≡ line.old ++ spec.shared_said shared) }
{
    if !shared {
        return Ok(());
    }
    line.sign(Sign::LeftBracket)?;
    line.sign(Sign::Asterisk)?;
    line.sign(Sign::RightBracket)
}

fn add_item<'a>(item: &'a Item, line: &mut Line<'a>) -> Result<(), Memory>
    ensures { OnOk result (line.new ≡ line.old ++ spec.item_said item.now) }
{
    line.name(item.name.as_str())?;
    add_bounds(&item.bounds, line)?;
    add_shared(item.shared, line)
}

fn add_other_items<'a>(items: &'a [Item], line: &mut Line<'a>) -> Result<(), Memory>
    ensures { OnOk result (line.new ≡ line.old ++ spec.each_after sign.Comma spec.item_said items.now) }
{
    for item in items {
        line.sign(Sign::Comma)?;
        add_item(item, line)?;
    }
    Ok(())
}

fn add_items<'a>(items: &'a [Item], line: &mut Line<'a>) -> Result<(), Memory>
    ensures { OnOk result (line.new ≡ line.old ++ spec.listed spec.item_said items.now) }
{
    match items {
        [] => Ok(()),
        [first, others @ ..] => {
            add_item(first, line)?;
            add_other_items(others, line)?;
            Ok(())
        }
    }
}

fn add_other_names<'a>(names: &'a [Text], line: &mut Line<'a>) -> Result<(), Memory>
    ensures { OnOk result (line.new ≡ line.old ++ spec.each_after sign.Comma spec.of_name names.now) }
{
    for name in names {
        line.sign(Sign::Comma)?;
        line.name(name.as_str())?;
    }
    Ok(())
}

/// Adds names with commas between them.
fn add_names<'a>(names: &'a [Text], line: &mut Line<'a>) -> Result<(), Memory>
    ensures { OnOk result (line.new ≡ line.old ++ spec.listed spec.of_name names.now) }
{
    match names {
        [] => Ok(()),
        [first, others @ ..] => {
            line.name(first.as_str())?;
            add_other_names(others, line)?;
            Ok(())
        }
    }
}

/// Adds names with commas between them, within parentheses, or nothing where there is none.
pub fn add_dummies<'a>(names: &'a [Text], line: &mut Line<'a>) -> Result<(), Memory>
    ensures { OnOk result (line.new ≡ line.old ++ spec.perhaps_list spec.of_name names.now) }
{
    match names {
        [] => Ok(()),
        _ => {
            line.sign(Sign::LeftParenthesis)?;
            add_names(names, line)?;
            line.sign(Sign::RightParenthesis)?;
            Ok(())
        }
    }
}

fn add_value<'a>(name: &'a str, value: &'a Expr, line: &mut Line<'a>) -> Result<(), Memory>
    ensures { OnOk result (line.new ≡ line.old ++ spec.value_said (name.now, value.now)) }
{
    line.name(name)?;
    line.sign(Sign::Assign)?;
    add_expression(value, line)
}

fn add_other_values<'a>(values: &'a [(Text, Expr)], line: &mut Line<'a>) -> Result<(), Memory>
    ensures { OnOk result (line.new ≡ line.old ++ spec.each_after sign.Comma spec.value_said values.now) }
{
    for (name, value) in values {
        line.sign(Sign::Comma)?;
        add_value(name.as_str(), value, line)?;
    }
    Ok(())
}

/// Adds parameters, each with its value.
fn add_values<'a>(values: &'a [(Text, Expr)], line: &mut Line<'a>) -> Result<(), Memory>
    ensures { OnOk result (line.new ≡ line.old ++ spec.listed spec.value_said values.now) }
{
    match values {
        [] => Ok(()),
        [(name, value), others @ ..] => {
            add_value(name.as_str(), value, line)?;
            add_other_values(others, line)?;
            Ok(())
        }
    }
}

fn add_pointer<'a>(name: &'a str, line: &mut Line<'a>) -> Result<(), Memory>
    ensures { OnOk result (line.new ≡ line.old ++ spec.pointer_said name.now) }
{
    line.name(name)?;
    line.sign(Sign::LeftParenthesis)?;
    line.sign(Sign::Colon)?;
    line.sign(Sign::RightParenthesis)
}

fn add_other_pointers<'a>(names: &'a [Text], line: &mut Line<'a>) -> Result<(), Memory>
    ensures { OnOk result (line.new ≡ line.old ++ spec.each_after sign.Comma spec.pointer_said names.now) }
{
    for name in names {
        line.sign(Sign::Comma)?;
        add_pointer(name.as_str(), line)?;
    }
    Ok(())
}

/// Adds copointers.
fn add_pointers<'a>(names: &'a [Text], line: &mut Line<'a>) -> Result<(), Memory>
    ensures { OnOk result (line.new ≡ line.old ++ spec.listed spec.pointer_said names.now) }
{
    match names {
        [] => Ok(()),
        [first, others @ ..] => {
            add_pointer(first.as_str(), line)?;
            add_other_pointers(others, line)?;
            Ok(())
        }
    }
}

/// Adds a kind, a comma and a word.
fn add_kind_with(kind: ValueKind, word: Word, line: &mut Line<'_>) -> Result<(), Memory>
    ensures { OnOk result (line.new ≡ line.old ++ what.Word (grammar.kind_word kind) ∷ spec.comma (spec.of_word word)) }
{
    line.word(kind_word(kind))?;
    line.sign(Sign::Comma)?;
    line.word(word)
}

/// Adds what stands before the names of dummies.
fn add_intent(kind: ValueKind, intent: Intent, line: &mut Line<'_>) -> Result<(), Memory>
    ensures { OnOk result (line.new ≡ line.old ++ spec.kind_said kind (spec.comma (what.Word word.Intent ∷ spec.in_parentheses (spec.of_word (spec.intent_word intent))))) }
{
    add_kind_with(kind, Word::Intent, line)?;
    line.sign(Sign::LeftParenthesis)?;
    line.word(intent_word(intent))?;
    line.sign(Sign::RightParenthesis)?;
    line.sign(Sign::DoubleColon)
}

/// Adds a declaration.
fn add_declaration<'a>(declaration: &'a Decl, line: &mut Line<'a>) -> Result<(), Memory>
    ensures { OnOk result (line.new ≡ line.old ++ spec.declaration_said declaration.now) }
{
    match declaration {
        Decl::Parameters { kind, values, .. } => {
            add_kind_with(*kind, Word::Parameter, line)?;
            line.sign(Sign::DoubleColon)?;
            add_values(values.as_slice(), line)?;
            Ok(())
        }
        Decl::Copointers { kind, names, .. } => {
            add_kind_with(*kind, Word::Copointer, line)?;
            line.sign(Sign::DoubleColon)?;
            add_pointers(names.as_slice(), line)?;
            Ok(())
        }
        Decl::Dummies {
            kind,
            intent,
            names,
            ..
        } => {
            add_intent(*kind, *intent, line)?;
            add_names(names.as_slice(), line)?;
            Ok(())
        }
        Decl::Variables { kind, items, .. } => {
            line.word(kind_word(*kind))?;
            line.sign(Sign::DoubleColon)?;
            add_items(items.as_slice(), line)?;
            Ok(())
        }
        Decl::Events { items, .. } => {
            line.word(Word::Event)?;
            line.sign(Sign::DoubleColon)?;
            add_items(items.as_slice(), line)?;
            Ok(())
        }
        Decl::Teams { names, .. } => {
            line.word(Word::Team)?;
            line.sign(Sign::DoubleColon)?;
            add_names(names.as_slice(), line)?;
            Ok(())
        }
    }
}

fn print_declaration(
    declaration: &Decl,
    alloc: Global,
    indent: usize,
    text: &mut Vec<u8>,
) -> Result<(), Memory>
    requires { indent ≤ 40 }
    ensures { OnOk result (text.new.items ≡ text.old.items ++ line_text (indent, spec.declaration_said declaration.now)) }
{
    let mut line = Line::new(alloc);
    add_declaration(declaration, &mut line)?;
    line.print(alloc, indent, text)
}

/// Prints declarations, each on a line.
pub fn print_declarations(
    declarations: &[Decl],
    alloc: Global,
    indent: usize,
    text: &mut Vec<u8>,
) -> Result<(), Memory>
    requires { indent ≤ 40 }
    ensures { OnOk result (text.new.items ≡ text.old.items ++ flat_map (λ (d : Declared). line_text (indent, spec.declaration_said d)) declarations.now) }
{
    for declaration in declarations {
        print_declaration(declaration, alloc, indent, text)?;
    }
    Ok(())
}
