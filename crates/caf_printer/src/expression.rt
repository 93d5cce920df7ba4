//! The tokens of an expression.

ghost use Rattle.std.specs.Prelude.{◌≡◌, ◌++◌, ◌∷◌, [], List, OnOk, map};
ghost use Rattle.std.specs.List.{flat_map};
ghost use Rattle.caf_lexer.specs.declared.token.Sign.TheVariants as sign;
ghost use Rattle.caf_lexer.specs.declared.token.What.{What};
ghost use Rattle.caf_lexer.specs.declared.token.What.TheVariants as what;
ghost use Rattle.caf_tree.specs.declared.expr.Expr.{Expr as Tree};
ghost use Rattle.caf_tree.specs.declared.expr.Operator.{Operator as Chained};
ghost use Rattle.caf_tree.specs.Expressions as spec;
ghost use Rattle.caf_tree.specs.Said.{in_parentheses, in_brackets, if_any, each_after, team_after, place_said, variable_said, comma, expression_said, of_sign};

use crate::line::Line;
use caf_base::Memory;
use caf_lexer::{Sign, Word};
use caf_tree::expr::{Expr, FrontSign, Operator, Place, Relation, Team, Variable};
use sqlite_items::Boxed;

fn operator_sign(operator: Operator) -> Sign
    ensures { result ≡ spec.operator_sign operator }
{
    match operator {
        Operator::Multiply => Sign::Asterisk,
        Operator::Divide => Sign::Slash,
        Operator::Add => Sign::Plus,
        Operator::Subtract => Sign::Minus,
        Operator::And => Sign::And,
        Operator::Or => Sign::Or,
        Operator::Equivalent => Sign::Equivalent,
        Operator::NotEquivalent => Sign::NotEquivalent,
    }
}

fn relation_sign(relation: Relation) -> Sign
    ensures { result ≡ spec.relation_sign relation }
{
    match relation {
        Relation::Equal => Sign::Equal,
        Relation::NotEqual => Sign::NotEqual,
        Relation::Less => Sign::Less,
        Relation::LessEqual => Sign::LessEqual,
        Relation::Greater => Sign::Greater,
        Relation::GreaterEqual => Sign::GreaterEqual,
    }
}

fn front_sign(front: FrontSign) -> Sign
    ensures { result ≡ spec.front_sign front }
{
    match front {
        FrontSign::Plus => Sign::Plus,
        FrontSign::Minus => Sign::Minus,
    }
}

fn truth_sign(holds: bool) -> Sign
    ensures { result ≡ spec.truth_sign holds }
{
    if holds { Sign::True } else { Sign::False }
}

/// Adds the team of a place, where it isn't `team_world`.
pub fn add_team_of_place<'a>(team: &'a Team, line: &mut Line<'a>) -> Result<(), Memory>
    ensures { OnOk result (line.new ≡ line.old ++ team_after (of_sign sign.At) team.now) }
{
    match team {
        Team::World => Ok(()),
        Team::Named(name) => {
            line.sign(Sign::At)?;
            line.name(name.as_str())
        }
    }
}

/// Adds a team, where it isn't `team_world`.
fn add_team<'a>(team: &'a Team, line: &mut Line<'a>) -> Result<(), Memory>
    ensures { OnOk result (line.new ≡ line.old ++ team_after [] team.now) }
{
    match team {
        Team::World => Ok(()),
        Team::Named(name) => line.name(name.as_str()),
    }
}

/// Adds a word, and a team within parentheses, or parentheses around nothing.
fn add_query<'a>(word: Word, team: &'a Team, line: &mut Line<'a>) -> Result<(), Memory>
    ensures { OnOk result (line.new ≡ line.old ++ what.Word word ∷ in_parentheses (team_after [] team.now)) }
{
    line.word(word)?;
    line.sign(Sign::LeftParenthesis)?;
    add_team(team, line)?;
    line.sign(Sign::RightParenthesis)
}

/// Adds an expression.
#[cycle(expression)]
pub fn add_expression<'a>(e: &'a Expr, line: &mut Line<'a>) -> Result<(), Memory>
    ensures { OnOk result (line.new ≡ line.old ++ expression_said e.now) }
{
    match e {
        Expr::Number(number) => line.number(*number),
        Expr::Truth(holds) => line.sign(truth_sign(*holds)),
        Expr::Parenthesized(inner) => add_in_parentheses(inner.get(), line),
        Expr::Variable(variable) => add_variable(variable, line),
        Expr::Mod(first, second) => {
            add_first(first.get(), Word::Mod, line)?;
            add_next(second.get(), line)?;
            line.sign(Sign::RightParenthesis)?;
            Ok(())
        }
        Expr::Abs(operand) => {
            line.word(Word::Abs)?;
            add_in_parentheses(operand.get(), line)?;
            Ok(())
        }
        Expr::Min(first, second, others) => {
            add_first(first.get(), Word::Min, line)?;
            add_next(second.get(), line)?;
            add_others(others.as_slice(), line)?;
            line.sign(Sign::RightParenthesis)?;
            Ok(())
        }
        Expr::Max(first, second, others) => {
            add_first(first.get(), Word::Max, line)?;
            add_next(second.get(), line)?;
            add_others(others.as_slice(), line)?;
            line.sign(Sign::RightParenthesis)?;
            Ok(())
        }
        Expr::TeamRank(team) => add_query(Word::TeamRank, team, line),
        Expr::TeamSize(team) => add_query(Word::TeamSize, team, line),
        Expr::Signed(front, operand) => {
            line.sign(front_sign(*front))?;
            add_expression(operand.get(), line)?;
            Ok(())
        }
        Expr::Chain(first, others) => {
            add_expression(first.get(), line)?;
            add_chain(others.as_slice(), line)?;
            Ok(())
        }
        Expr::Compare(first, relation, second) => {
            add_expression(first.get(), line)?;
            line.sign(relation_sign(*relation))?;
            add_expression(second.get(), line)?;
            Ok(())
        }
        Expr::Not(operand) => {
            line.sign(Sign::Not)?;
            add_expression(operand.get(), line)?;
            Ok(())
        }
    }
}

/// Adds an expression within parentheses.
#[cycle(expression)]
pub fn add_in_parentheses<'a>(e: &'a Expr, line: &mut Line<'a>) -> Result<(), Memory>
    ensures { OnOk result (line.new ≡ line.old ++ in_parentheses (expression_said e.now)) }
{
    line.sign(Sign::LeftParenthesis)?;
    add_expression(e, line)?;
    line.sign(Sign::RightParenthesis)
}

/// Adds operators, each with its operand.
#[cycle(expression)]
fn add_chain<'a>(pairs: &'a [(Operator, Expr)], line: &mut Line<'a>) -> Result<(), Memory>
    ensures { OnOk result (line.new ≡ line.old ++ flat_map (λ (p : Chained × List What). what.Sign (spec.operator_sign p.0) ∷ p.1) (map (λ (p : Chained × Tree). (p.0, expression_said p.1)) pairs.now)) }
{
    for (operator, operand) in pairs {
        line.sign(operator_sign(*operator))?;
        add_expression(operand, line)?;
    }
    Ok(())
}

/// Adds expressions, each behind a comma.
#[cycle(expression)]
fn add_others<'a>(others: &'a [Expr], line: &mut Line<'a>) -> Result<(), Memory>
    ensures { OnOk result (line.new ≡ line.old ++ each_after sign.Comma (λ (e : List What). e) (map expression_said others.now)) }
{
    for other in others {
        add_next(other, line)?;
    }
    Ok(())
}

/// Adds a word, an opening parenthesis and an expression.
#[cycle(expression)]
fn add_first<'a>(first: &'a Expr, word: Word, line: &mut Line<'a>) -> Result<(), Memory>
    ensures { OnOk result (line.new ≡ line.old ++ what.Word word ∷ what.Sign sign.LeftParenthesis ∷ expression_said first.now) }
{
    line.word(word)?;
    line.sign(Sign::LeftParenthesis)?;
    add_expression(first, line)
}

/// Adds an expression behind a comma.
#[cycle(expression)]
pub fn add_next<'a>(e: &'a Expr, line: &mut Line<'a>) -> Result<(), Memory>
    ensures { OnOk result (line.new ≡ line.old ++ comma (expression_said e.now)) }
{
    line.sign(Sign::Comma)?;
    add_expression(e, line)
}

/// Adds a place, of which the rank and the team are given.
#[cycle(expression)]
pub fn add_rank<'a>(rank: &'a Expr, team: &'a Team, line: &mut Line<'a>) -> Result<(), Memory>
    ensures { OnOk result (line.new ≡ line.old ++ in_brackets (expression_said rank.now ++ team_after (of_sign sign.At) team.now)) }
{
    line.sign(Sign::LeftBracket)?;
    add_expression(rank, line)?;
    add_team_of_place(team, line)?;
    line.sign(Sign::RightBracket)
}

/// Adds a variable or an event.
#[cycle(expression)]
pub fn add_variable<'a>(
    variable: &'a Variable<Boxed<Expr>>,
    line: &mut Line<'a>,
) -> Result<(), Memory>
    ensures { OnOk result (line.new ≡ line.old ++ variable_said expression_said variable.now) }
{
    line.name(variable.name.as_str())?;
    match (&variable.subscript, &variable.place) {
        (None, None) => Ok(()),
        (Some(subscript), None) => add_in_parentheses(subscript.get(), line),
        (None, Some(place)) => add_rank(place.rank.get(), &place.team, line),
        (Some(subscript), Some(place)) => {
            add_in_parentheses(subscript.get(), line)?;
            add_rank(place.rank.get(), &place.team, line)
        }
    }
}

/// Adds a place, if there is one.
pub fn add_place<'a>(place: &'a Option<Place<Expr>>, line: &mut Line<'a>) -> Result<(), Memory>
    ensures { OnOk result (line.new ≡ line.old ++ if_any (place_said expression_said) place.now) }
{
    match place {
        None => Ok(()),
        Some(place) => add_rank(&place.rank, &place.team, line),
    }
}
