//! The lines of statements.

ghost use Rattle.std.specs.Prelude.{◌≡◌, ◌≤◌, ◌++◌, ◌∷◌, [], OnOk, map, false};
ghost use Rattle.std.specs.List.{flat_map};
ghost use Rattle.caf_lexer.specs.declared.token.Sign.TheVariants as sign;
ghost use Rattle.caf_lexer.specs.declared.token.What.TheVariants as what;
ghost use Rattle.caf_lexer.specs.declared.token.Word.TheVariants as word;
ghost use Rattle.caf_tree.specs.Said as spec;
ghost use Rattle.caf_tree.specs.Text.{line_text};

use crate::expression::{add_expression, add_in_parentheses, add_next};
use crate::line::Line;
use crate::simple::add_simple;
use caf_base::Memory;
use caf_lexer::{Sign, Word};
use caf_tree::expr::{Expr, Team};
use caf_tree::stmt::{Simple, Stmt};
use std::alloc::Global;

/// The most blanks in front of a line.
const MOST_INDENT: usize = 40;

/// The indent of one level more.
pub fn deeper(indent: usize) -> usize
    requires { indent ≤ 40 }
    ensures value { result ≡ spec.deeper indent }
    ensures within { result ≤ 40 }
{
    (indent + 2).min(MOST_INDENT)
}

/// Prints a line of one word.
pub fn print_word(
    alloc: Global,
    word: Word,
    indent: usize,
    text: &mut Vec<u8>,
) -> Result<(), Memory>
    requires { indent ≤ 40 }
    ensures { OnOk result (text.new.items ≡ text.old.items ++ line_text (indent, spec.of_word word)) }
{
    let mut line = Line::new(alloc);
    line.word(word)?;
    line.print(alloc, indent, text)
}

/// Prints a line of `end` and a word.
pub fn print_end(alloc: Global, word: Word, indent: usize, text: &mut Vec<u8>) -> Result<(), Memory>
    requires { indent ≤ 40 }
    ensures { OnOk result (text.new.items ≡ text.old.items ++ line_text (indent, spec.end_said word)) }
{
    let mut line = Line::new(alloc);
    line.word(Word::End)?;
    line.word(word)?;
    line.print(alloc, indent, text)
}

fn print_simple(
    action: &Simple,
    alloc: Global,
    indent: usize,
    text: &mut Vec<u8>,
) -> Result<(), Memory>
    requires { indent ≤ 40 }
    ensures { OnOk result (text.new.items ≡ text.old.items ++ line_text (indent, spec.simple_said action.now)) }
{
    let mut line = Line::new(alloc);
    add_simple(action, &mut line)?;
    line.print(alloc, indent, text)
}

/// Prints an `if` without a block.
fn print_guarded(
    condition: &Expr,
    action: &Simple,
    alloc: Global,
    indent: usize,
    text: &mut Vec<u8>,
) -> Result<(), Memory>
    requires { indent ≤ 40 }
    ensures { OnOk result (text.new.items ≡ text.old.items ++ line_text (indent, what.Word word.If ∷ spec.condition_said condition.now ++ spec.simple_said action.now)) }
{
    let mut line = Line::new(alloc);
    line.word(Word::If)?;
    add_in_parentheses(condition, &mut line)?;
    add_simple(action, &mut line)?;
    line.print(alloc, indent, text)
}

/// Adds the first line of an `if` with a block.
fn add_then<'a>(condition: &'a Expr, line: &mut Line<'a>) -> Result<(), Memory>
    ensures { OnOk result (line.new ≡ line.old ++ what.Word word.If ∷ spec.condition_said condition.now ++ spec.of_word word.Then) }
{
    line.word(Word::If)?;
    add_in_parentheses(condition, line)?;
    line.word(Word::Then)
}

/// Prints the first line of an `if` with a block.
fn print_then(
    condition: &Expr,
    alloc: Global,
    indent: usize,
    text: &mut Vec<u8>,
) -> Result<(), Memory>
    requires { indent ≤ 40 }
    ensures { OnOk result (text.new.items ≡ text.old.items ++ line_text (indent, what.Word word.If ∷ spec.condition_said condition.now ++ spec.of_word word.Then)) }
{
    let mut line = Line::new(alloc);
    add_then(condition, &mut line)?;
    line.print(alloc, indent, text)
}

/// Prints the line of an `else if`.
fn print_else_if(
    condition: &Expr,
    alloc: Global,
    indent: usize,
    text: &mut Vec<u8>,
) -> Result<(), Memory>
    requires { indent ≤ 40 }
    ensures { OnOk result (text.new.items ≡ text.old.items ++ line_text (indent, what.Word word.Else ∷ what.Word word.If ∷ spec.condition_said condition.now ++ spec.of_word word.Then)) }
{
    let mut line = Line::new(alloc);
    line.word(Word::Else)?;
    add_then(condition, &mut line)?;
    line.print(alloc, indent, text)
}

/// Adds an expression behind a comma, if there is one.
fn add_step<'a>(step: &'a Option<Expr>, line: &mut Line<'a>) -> Result<(), Memory>
    ensures { OnOk result (line.new ≡ line.old ++ spec.if_any (λ e. spec.comma (spec.expression_said e)) step.now) }
{
    match step {
        None => Ok(()),
        Some(step) => add_next(step, line),
    }
}

/// Adds the bounds of a loop, and its step, if there is one.
fn add_turns<'a>(
    first: &'a Expr,
    last: &'a Expr,
    step: &'a Option<Expr>,
    line: &mut Line<'a>,
) -> Result<(), Memory>
    ensures { OnOk result (line.new ≡ line.old ++ spec.expression_said first.now ++ spec.comma (spec.expression_said last.now) ++ spec.if_any (λ e. spec.comma (spec.expression_said e)) step.now) }
{
    add_expression(first, line)?;
    add_next(last, line)?;
    add_step(step, line)
}

/// Prints the first line of a loop over a variable.
fn print_counted(
    variable: &str,
    first: &Expr,
    last: &Expr,
    step: &Option<Expr>,
    alloc: Global,
    indent: usize,
    text: &mut Vec<u8>,
) -> Result<(), Memory>
    requires { indent ≤ 40 }
    ensures { OnOk result (text.new.items ≡ text.old.items ++ line_text (
      indent,
      what.Word word.Do ∷ what.Name variable.now ∷ what.Sign sign.Assign
          ∷ spec.expression_said first.now ++ spec.comma (spec.expression_said last.now) ++ spec.if_any (λ e. spec.comma (spec.expression_said e)) step.now,
    )) }
{
    let mut line = Line::new(alloc);
    line.word(Word::Do)?;
    line.name(variable)?;
    line.sign(Sign::Assign)?;
    add_turns(first, last, step, &mut line)?;
    line.print(alloc, indent, text)
}

/// Prints the first line of a `do while`.
fn print_while(
    condition: &Expr,
    alloc: Global,
    indent: usize,
    text: &mut Vec<u8>,
) -> Result<(), Memory>
    requires { indent ≤ 40 }
    ensures { OnOk result (text.new.items ≡ text.old.items ++ line_text (indent, what.Word word.Do ∷ what.Word word.While ∷ spec.condition_said condition.now)) }
{
    let mut line = Line::new(alloc);
    line.word(Word::Do)?;
    line.word(Word::While)?;
    add_in_parentheses(condition, &mut line)?;
    line.print(alloc, indent, text)
}

/// Adds a team within parentheses, where it isn't `team_world`.
fn add_finish_team<'a>(team: &'a Team, line: &mut Line<'a>) -> Result<(), Memory>
    ensures { OnOk result (line.new ≡ line.old ++ spec.finish_team team.now) }
{
    match team {
        Team::World => Ok(()),
        Team::Named(name) => {
            line.sign(Sign::LeftParenthesis)?;
            line.name(name.as_str())?;
            line.sign(Sign::RightParenthesis)?;
            Ok(())
        }
    }
}

/// Prints the first line of a `finish`.
fn print_finish(team: &Team, alloc: Global, indent: usize, text: &mut Vec<u8>) -> Result<(), Memory>
    requires { indent ≤ 40 }
    ensures { OnOk result (text.new.items ≡ text.old.items ++ line_text (indent, what.Word word.Finish ∷ spec.finish_team team.now)) }
{
    let mut line = Line::new(alloc);
    line.word(Word::Finish)?;
    add_finish_team(team, &mut line)?;
    line.print(alloc, indent, text)
}

/// Prints a statement.
#[cycle(statement)]
fn print_statement(
    statement: &Stmt,
    alloc: Global,
    indent: usize,
    text: &mut Vec<u8>,
) -> Result<(), Memory>
    requires { indent ≤ 40 }
    ensures { OnOk result (text.new.items ≡ text.old.items ++ flat_map line_text (spec.lines_at indent (spec.shown statement.now))) }
{
    match statement {
        Stmt::Simple { action, .. } => print_simple(action, alloc, indent, text),
        Stmt::IfLine {
            condition,
            action,
            ..
        } => print_guarded(condition, action, alloc, indent, text),
        Stmt::If {
            condition,
            block,
            otherwise,
            ..
        } => {
            print_then(condition, alloc, indent, text)?;
            print_statements(block.as_slice(), alloc, deeper(indent), text)?;
            print_else(otherwise.as_slice(), alloc, indent, text)?;
            Ok(())
        }
        Stmt::Do {
            variable,
            first,
            last,
            step,
            body,
            ..
        } => {
            print_counted(variable.as_str(), first, last, step, alloc, indent, text)?;
            print_body(body.as_slice(), Word::Do, alloc, indent, text)?;
            Ok(())
        }
        Stmt::While {
            condition,
            body,
            ..
        } => {
            print_while(condition, alloc, indent, text)?;
            print_body(body.as_slice(), Word::Do, alloc, indent, text)?;
            Ok(())
        }
        Stmt::Finish { team, body, .. } => {
            print_finish(team, alloc, indent, text)?;
            print_body(body.as_slice(), Word::Finish, alloc, indent, text)?;
            Ok(())
        }
    }
}

/// Prints statements.
#[cycle(statement)]
fn print_statements(
    block: &[Stmt],
    alloc: Global,
    indent: usize,
    text: &mut Vec<u8>,
) -> Result<(), Memory>
    requires { indent ≤ 40 }
    ensures { OnOk result (text.new.items ≡ text.old.items ++ flat_map (λ (s : spec.Shown). flat_map line_text (spec.lines_at indent s)) (map spec.shown block.now)) }
{
    for statement in block {
        print_statement(statement, alloc, indent, text)?;
    }
    Ok(())
}

/// Prints the statements of a block and the line that ends it.
#[cycle(statement)]
fn print_body(
    block: &[Stmt],
    word: Word,
    alloc: Global,
    indent: usize,
    text: &mut Vec<u8>,
) -> Result<(), Memory>
    requires { indent ≤ 40 }
    ensures { OnOk result (text.new.items ≡ text.old.items ++ flat_map line_text (spec.block_at (spec.deeper indent) (map spec.shown block.now) ++ (indent, spec.end_said word) ∷ [])) }
{
    print_statements(block, alloc, deeper(indent), text)?;
    print_end(alloc, word, indent, text)?;
    Ok(())
}

/// Prints the else part of an `if`, and the line that ends it.
#[cycle(statement)]
fn print_else(
    otherwise: &[Stmt],
    alloc: Global,
    indent: usize,
    text: &mut Vec<u8>,
) -> Result<(), Memory>
    requires { indent ≤ 40 }
    ensures { OnOk result (text.new.items ≡ text.old.items ++ flat_map line_text (spec.else_lines indent (map spec.shown otherwise.now))) }
{
    match otherwise {
        [] => print_end(alloc, Word::If, indent, text),
        [one] => print_else_one(one, alloc, indent, text),
        [_, _, ..] => {
            print_word(alloc, Word::Else, indent, text)?;
            print_body(otherwise, Word::If, alloc, indent, text)?;
            Ok(())
        }
    }
}

/// Prints a statement that is the whole else part, and the line that ends it: an `if` with a block as an `else if`.
#[cycle(statement)]
fn print_else_one(
    one: &Stmt,
    alloc: Global,
    indent: usize,
    text: &mut Vec<u8>,
) -> Result<(), Memory>
    requires { indent ≤ 40 }
    ensures { OnOk result (text.new.items ≡ text.old.items ++ flat_map line_text (spec.else_lines indent (spec.shown one.now ∷ []))) }
{
    match one {
        Stmt::If {
            condition,
            block,
            otherwise,
            ..
        } => {
            print_else_if(condition, alloc, indent, text)?;
            print_statements(block.as_slice(), alloc, deeper(indent), text)?;
            print_else(otherwise.as_slice(), alloc, indent, text)?;
            Ok(())
        }
        Stmt::Simple { .. } => print_nested(one, alloc, indent, text),
        Stmt::IfLine { .. } => print_nested(one, alloc, indent, text),
        Stmt::Do { .. } => print_nested(one, alloc, indent, text),
        Stmt::While { .. } => print_nested(one, alloc, indent, text),
        Stmt::Finish { .. } => print_nested(one, alloc, indent, text),
    }
}

/// Prints a statement that is the whole else part and no `if` with a block, and the line that ends it.
#[cycle(statement)]
fn print_nested(one: &Stmt, alloc: Global, indent: usize, text: &mut Vec<u8>) -> Result<(), Memory>
    requires within { indent ≤ 40 }
    requires plain { (spec.shown one.now).is_branching ≡ false }
    ensures { OnOk result (text.new.items ≡ text.old.items ++ flat_map line_text (spec.else_lines indent (spec.shown one.now ∷ []))) }
{
    print_word(alloc, Word::Else, indent, text)?;
    print_statement(one, alloc, deeper(indent), text)?;
    print_end(alloc, Word::If, indent, text)?;
    Ok(())
}

/// Prints the statements of a part of the program.
pub fn print_all(
    body: &[Stmt],
    alloc: Global,
    indent: usize,
    text: &mut Vec<u8>,
) -> Result<(), Memory>
    requires { indent ≤ 40 }
    ensures { OnOk result (text.new.items ≡ text.old.items ++ flat_map line_text (spec.statements_said indent body.now)) }
{
    print_statements(body, alloc, indent, text)?;
    Ok(())
}
