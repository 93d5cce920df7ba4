ghost use Rattle.std.specs.Prelude.{◌≡◌, Result, IfOk, map, unwrap_or};
ghost use Rattle.caf_base.specs.Arithmetic.{Answer};
ghost use Rattle.caf_declare.specs.Names.{Tells};
ghost use Rattle.caf_declare.specs.Operators.{kind_of_constant};
ghost use Rattle.caf_declare.specs.Constants.{known_in, number_of as number_meant, constant_of as constant_meant, untrapped as untrapped_meant, constant_kind, constant_operand, under_worth, one_more_worth, chained as chained_meant, first_worth, applied as applied_meant, earlier as earlier_meant, worth_of, value_of};

use crate::fault::{Rule, Stop, broken};
use crate::operator::{is_kind, of_operator, of_relation, operand_kind, result_kind, spelling};
use crate::symbol::{Constant, Symbol, Taken};
use crate::table::Table;
use caf_base::{BinaryOperator, Memory, Text, Trap, UnaryOperator, truth};
use caf_program::ValueKind;
use caf_tree::expr::{Expr, FrontSign, Operator, Variable};
use std::alloc::Global;

/// Where a value is reckoned: on a line, in the declaration of an item, behind the names that its part declared so far.
#[derive(Clone, Copy)]
pub struct Declaring<'a> {
    pub own: &'a Table<Symbol>,
    /// All names that the part declares. They hide those of the main program.
    pub heads: &'a Table<Option<Taken>>,
    pub main: &'a Table<Symbol>,
    pub line: u32,
    pub item: &'a str,
}

/// What a name stands for there.
fn known(at: &Declaring, name: &str) -> Option<Symbol>
    ensures { result ≡ known_in at.now name.now }
{
    match at.own.look(name) {
        Some(symbol) => Some(symbol),
        None => match at.heads.look(name) {
            Some(_) => None,
            None => at.main.look(name),
        },
    }
}

/// A value as a number: 1 and 0 stand for the truth values.
pub fn number_of(constant: Constant) -> i64
    ensures { result ≡ number_meant constant }
{
    match constant {
        Constant::Integer(number) => number,
        Constant::Logical(holds) => truth(holds),
    }
}

/// A number as a value of a kind.
fn constant_of(kind: ValueKind, number: i64) -> Constant
    ensures { result ≡ constant_meant kind number }
{
    match kind {
        ValueKind::Integer => Constant::Integer(number),
        ValueKind::Logical => Constant::Logical(number != 0),
    }
}

/// The kind of a value.
fn kind_of(constant: Constant) -> ValueKind
    ensures { result ≡ kind_of_constant constant }
{
    match constant {
        Constant::Integer(_) => ValueKind::Integer,
        Constant::Logical(_) => ValueKind::Logical,
    }
}

/// A value without a trap.
fn untrapped(
    alloc: Global,
    at: &Declaring,
    kind: ValueKind,
    answer: Result<i64, Trap>,
) -> Result<Constant, Stop>
    ensures { Tells (untrapped_meant at.now.line at.now.item.now kind answer) result }
{
    match answer {
        Ok(number) => Ok(constant_of(kind, number)),
        Err(_) => Err(broken(alloc, Rule::BadConstant, at.line, at.item)),
    }
}

/// A value that has the kind that is wanted.
fn of_kind(
    alloc: Global,
    line: u32,
    name: &str,
    kind: ValueKind,
    constant: Constant,
) -> Result<Constant, Stop>
    ensures { Tells (constant_kind line name.now kind constant) result }
{
    if is_kind(kind_of(constant), kind) {
        Ok(constant)
    } else {
        Err(broken(alloc, Rule::WrongKind, line, name))
    }
}

/// What an operator gives.
fn applied(
    alloc: Global,
    at: &Declaring,
    operator: BinaryOperator,
    first: Constant,
    second: Constant,
) -> Result<Constant, Stop>
    ensures { Tells (applied_meant at.now.line at.now.item.now operator first second) result }
{
    let answer = operator.apply(number_of(first), number_of(second));
    untrapped(alloc, at, result_kind(operator), answer)
}

/// The value of an earlier parameter.
fn earlier(alloc: Global, at: &Declaring, symbol: Option<Symbol>) -> Result<Constant, Stop>
    ensures { Tells (earlier_meant at.now.line at.now.item.now symbol) result }
{
    match symbol {
        Some(Symbol::Constant(constant)) => Ok(constant),
        _ => Err(broken(alloc, Rule::BadConstant, at.line, at.item)),
    }
}

/// The name that a fault of an operand gives: the operand's, where it is a bare name, else the sign.
fn culprit(alloc: Global, at: &Declaring, e: &Expr, sign: &str) -> Result<Text, Memory>
    ensures { IfOk result (λ name. name ≡ unwrap_or (worth_of (known_in at.now) at.now.line at.now.item.now e.now).bare sign.now) }
{
    match e {
        Expr::Variable(
            Variable {
                name,
                subscript: None,
                place: None,
            },
        ) => Text::copy_of(alloc, name.as_str()),
        _ => Text::copy_of(alloc, sign),
    }
}

/// The value of an operand.
#[cycle(values)]
fn operand(
    alloc: Global,
    at: &Declaring,
    sign: &str,
    kind: ValueKind,
    e: &Expr,
) -> Result<Constant, Stop>
    ensures { Tells (constant_operand at.now.line sign.now kind (worth_of (known_in at.now) at.now.line at.now.item.now e.now)) result }
{
    let constant = worth(alloc, at, e)?;
    let name = culprit(alloc, at, e, sign)?;
    of_kind(alloc, at.line, name.as_str(), kind, constant)
}

/// The value of an operand of an operator.
#[cycle(values)]
fn under(
    alloc: Global,
    at: &Declaring,
    operator: BinaryOperator,
    e: &Expr,
) -> Result<Constant, Stop>
    ensures { Tells (under_worth at.now.line operator (worth_of (known_in at.now) at.now.line at.now.item.now e.now)) result }
{
    operand(alloc, at, spelling(operator), operand_kind(operator), e)
}

/// The value of the first operand of a chain.
#[cycle(values)]
fn first(
    alloc: Global,
    at: &Declaring,
    e: &Expr,
    others: &[(Operator, Expr)],
) -> Result<Constant, Stop>
    ensures { Tells (first_worth at.now.line (worth_of (known_in at.now) at.now.line at.now.item.now e.now) (map (λ p. (p.0, worth_of (known_in at.now) at.now.line at.now.item.now p.1)) others.now)) result }
{
    match others {
        [] => worth(alloc, at, e),
        [(operator, _), ..] => under(alloc, at, of_operator(*operator), e),
    }
}

/// The value behind one operator with its operand more.
#[cycle(values)]
fn one_more(
    alloc: Global,
    at: &Declaring,
    so_far: Constant,
    operator: BinaryOperator,
    e: &Expr,
) -> Result<Constant, Stop>
    ensures { Tells (one_more_worth at.now.line at.now.item.now operator so_far (worth_of (known_in at.now) at.now.line at.now.item.now e.now)) result }
{
    let so_far = of_kind(
        alloc,
        at.line,
        spelling(operator),
        operand_kind(operator),
        so_far,
    )?;
    let second = under(alloc, at, operator, e)?;
    applied(alloc, at, operator, so_far, second)
}

/// The value behind operators with their operands, from the left.
#[cycle(values)]
fn chained(
    alloc: Global,
    at: &Declaring,
    first: Constant,
    others: &[(Operator, Expr)],
) -> Result<Constant, Stop>
    ensures { Tells (chained_meant at.now.line at.now.item.now first (map (λ p. (p.0, worth_of (known_in at.now) at.now.line at.now.item.now p.1)) others.now)) result }
{
    let mut so_far = first;
    for (operator, e) in others {
        so_far = one_more(alloc, at, so_far, of_operator(*operator), e)?;
    }
    Ok(so_far)
}

/// The value of an expression in a declaration.
#[cycle(values)]
fn worth(alloc: Global, at: &Declaring, e: &Expr) -> Result<Constant, Stop>
    ensures { Tells (worth_of (known_in at.now) at.now.line at.now.item.now e.now).worth result }
{
    match e {
        Expr::Number(number) => Ok(Constant::Integer(*number)),
        Expr::Truth(holds) => Ok(Constant::Logical(*holds)),
        Expr::Parenthesized(inner) => worth(alloc, at, inner.get()),
        Expr::Variable(
            Variable {
                name,
                subscript: None,
                place: None,
            },
        ) => earlier(alloc, at, known(at, name.as_str())),
        Expr::Signed(FrontSign::Plus, a) => operand(alloc, at, "+", ValueKind::Integer, a.get()),
        Expr::Signed(FrontSign::Minus, a) => {
            let a = operand(alloc, at, "-", ValueKind::Integer, a.get())?;
            let answer = UnaryOperator::Negate.apply(number_of(a));
            untrapped(alloc, at, ValueKind::Integer, answer)
        }
        Expr::Chain(a, others) => {
            let first = first(alloc, at, a.get(), others.as_slice())?;
            chained(alloc, at, first, others.as_slice())
        }
        Expr::Compare(a, relation, b) => {
            let operator = of_relation(*relation);
            let a = under(alloc, at, operator, a.get())?;
            let b = under(alloc, at, operator, b.get())?;
            applied(alloc, at, operator, a, b)
        }
        Expr::Not(a) => {
            let a = operand(alloc, at, ".not.", ValueKind::Logical, a.get())?;
            let answer = UnaryOperator::Not.apply(number_of(a));
            untrapped(alloc, at, ValueKind::Logical, answer)
        }
        _ => Err(broken(alloc, Rule::BadConstant, at.line, at.item)),
    }
}

/// The value of an expression in a declaration, which has the kind that is wanted.
pub fn value(alloc: Global, at: &Declaring, kind: ValueKind, e: &Expr) -> Result<Constant, Stop>
    ensures { Tells (value_of (known_in at.now) at.now.line at.now.item.now kind e.now) result }
{
    operand(alloc, at, at.item, kind, e)
}
