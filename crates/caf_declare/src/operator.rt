ghost use Rattle.std.specs.Prelude.{◌≡◌};
ghost use Rattle.caf_program.specs.Kinds.{operand_kind as kind_wanted, result_kind as kind_given};
ghost use Rattle.caf_declare.specs.Operators.{is_kind as same_kind, kind_meant as meant, of_operator as binary_of, of_relation as relation_of, spelling as spelled, front_spelling as front_spelled};

use caf_base::BinaryOperator;
use caf_program::ValueKind;
use caf_tree::expr::{FrontSign, Operator, Relation};
use caf_tree::unit;

/// Whether two kinds are one.
pub fn is_kind(a: ValueKind, b: ValueKind) -> bool
    ensures { result ≡ same_kind a b }
{
    match (a, b) {
        (ValueKind::Integer, ValueKind::Integer) => true,
        (ValueKind::Logical, ValueKind::Logical) => true,
        _ => false,
    }
}

/// An operator of a chain as one of two numbers.
pub fn of_operator(operator: Operator) -> BinaryOperator
    ensures { result ≡ binary_of operator }
{
    match operator {
        Operator::Multiply => BinaryOperator::Multiply,
        Operator::Divide => BinaryOperator::Divide,
        Operator::Add => BinaryOperator::Add,
        Operator::Subtract => BinaryOperator::Subtract,
        Operator::And => BinaryOperator::And,
        Operator::Or => BinaryOperator::Or,
        Operator::Equivalent => BinaryOperator::Equivalent,
        Operator::NotEquivalent => BinaryOperator::NotEquivalent,
    }
}

/// A relation as an operator of two numbers.
pub fn of_relation(relation: Relation) -> BinaryOperator
    ensures { result ≡ relation_of relation }
{
    match relation {
        Relation::Equal => BinaryOperator::Equal,
        Relation::NotEqual => BinaryOperator::NotEqual,
        Relation::Less => BinaryOperator::Less,
        Relation::LessEqual => BinaryOperator::LessEqual,
        Relation::Greater => BinaryOperator::Greater,
        Relation::GreaterEqual => BinaryOperator::GreaterEqual,
    }
}

/// How an operator is spelled.
pub fn spelling(operator: BinaryOperator) -> &'static str
    ensures { result.now ≡ spelled operator }
{
    match operator {
        BinaryOperator::Add => "+",
        BinaryOperator::Subtract => "-",
        BinaryOperator::Multiply => "*",
        BinaryOperator::Divide => "/",
        BinaryOperator::Modulo => "mod",
        BinaryOperator::Minimum => "min",
        BinaryOperator::Maximum => "max",
        BinaryOperator::Equal => "==",
        BinaryOperator::NotEqual => "/=",
        BinaryOperator::Less => "<",
        BinaryOperator::LessEqual => "<=",
        BinaryOperator::Greater => ">",
        BinaryOperator::GreaterEqual => ">=",
        BinaryOperator::And => ".and.",
        BinaryOperator::Or => ".or.",
        BinaryOperator::Equivalent => ".eqv.",
        BinaryOperator::NotEquivalent => ".neqv.",
    }
}

/// The kind that an operator wants of its operands.
pub fn operand_kind(operator: BinaryOperator) -> ValueKind
    ensures { result ≡ kind_wanted operator }
{
    match operator {
        BinaryOperator::And
        | BinaryOperator::Or
        | BinaryOperator::Equivalent
        | BinaryOperator::NotEquivalent => ValueKind::Logical,
        _ => ValueKind::Integer,
    }
}

/// The kind of what an operator gives.
pub fn result_kind(operator: BinaryOperator) -> ValueKind
    ensures { result ≡ kind_given operator }
{
    match operator {
        BinaryOperator::Add
        | BinaryOperator::Subtract
        | BinaryOperator::Multiply
        | BinaryOperator::Divide
        | BinaryOperator::Modulo
        | BinaryOperator::Minimum
        | BinaryOperator::Maximum => ValueKind::Integer,
        _ => ValueKind::Logical,
    }
}

/// How a sign before a sum is spelled.
pub fn front_spelling(sign: FrontSign) -> &'static str
    ensures { result.now ≡ front_spelled sign }
{
    match sign {
        FrontSign::Plus => "+",
        FrontSign::Minus => "-",
    }
}

/// A kind as it is written.
pub fn kind_meant(kind: unit::ValueKind) -> ValueKind
    ensures { result ≡ meant kind }
{
    match kind {
        unit::ValueKind::Integer => ValueKind::Integer,
        unit::ValueKind::Logical => ValueKind::Logical,
    }
}
