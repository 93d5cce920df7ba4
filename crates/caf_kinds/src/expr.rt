ghost use Rattle.std.specs.Prelude.{◌≡◌, ◌∷◌, [], List, IfOk, Ok, Result, Some, None, map, unwrap_or};
ghost use Rattle.caf_program.specs.declared.expr.ExprR.TheVariants as R;
ghost use Rattle.caf_declare.specs.Table.{Name};
ghost use Rattle.caf_declare.specs.Names.{Tells};
ghost use Rattle.caf_declare.specs.Operators.{kind_of_constant};
ghost use Rattle.caf_kinds.specs.declared.scope.Scope.{Scope};
ghost use Rattle.caf_kinds.specs.Names.{look};
ghost use Rattle.caf_kinds.specs.Expressions.{of_team, team_meant, place_meant, coarray as shared_with_others, scalar_as, array_as, pointed_as, local_as, parameter_as, variable_as, value_as, of_variable as value_of, of_constant as constant_value, if_said, place_said, sense, operand as operand_meant, operands as operands_meant, under as under_meant, alike as alike_meant, further as further_meant, listed as listed_meant, leading as leading_meant, first_meant as first_said};

use crate::scope::{Scope, look};
use caf_base::{BinaryOperator, Memory, Text, UnaryOperator};
use caf_declare::{
    Constant, Rule, Stop, Symbol, broken, is_kind, of_operator, of_relation, operand_kind,
    result_kind, spelling,
};
use caf_program::{ExprR, PlaceR, TeamR, ValueKind, VariableR};
use caf_tree::expr::{Expr, FrontSign, Operator, Team, Variable};
use sqlite_items::{Boxed, Items};
use std::alloc::Global;

/// The team that a name names.
fn named_team(alloc: Global, scope: &Scope, line: u32, name: &str) -> Result<TeamR, Stop>
    ensures { Tells (of_team line name.now (look scope.now name.now)) result }
{
    match look(scope, name) {
        None => Err(broken(alloc, Rule::Undeclared, line, name)),
        Some(Symbol::Team(object)) => Ok(TeamR::Object(object)),
        Some(_) => Err(broken(alloc, Rule::WrongKind, line, name)),
    }
}

/// The team that is meant.
pub fn team(alloc: Global, scope: &Scope, line: u32, team: &Team) -> Result<TeamR, Stop>
    ensures { Tells (team_meant scope.now line team.now) result }
{
    match team {
        Team::World => Ok(TeamR::World),
        Team::Named(name) => named_team(alloc, scope, line, name.as_str()),
    }
}

/// A place stands on coarrays only.
pub fn coarray(alloc: Global, line: u32, name: &str, shared: bool) -> Result<(), Stop>
    ensures { Tells (shared_with_others line name.now shared) result }
{
    if shared {
        Ok(())
    } else {
        Err(broken(alloc, Rule::NotCoarray, line, name))
    }
}

/// The name that a fault of an operand gives: the operand's, where it is a bare name, else the sign.
fn culprit(alloc: Global, scope: &Scope, line: u32, e: &Expr, sign: &str) -> Result<Text, Memory>
    ensures { IfOk result (λ name. name ≡ unwrap_or (sense scope.now line e.now).bare sign.now) }
{
    match e {
        Expr::Variable(
            Variable {
                name,
                subscript: None,
                place: None,
            },
        ) => Text::copy_of(alloc, name.as_str()),
        _ => Text::copy_of(alloc, sign),
    }
}

/// An expression where a kind is wanted: an operand, a subscript, a bound and the like. `sign` is what a fault names
/// where the expression is no bare name.
#[cycle(exprs)]
pub fn operand(
    alloc: Global,
    scope: &Scope,
    line: u32,
    sign: &str,
    kind: ValueKind,
    e: &Expr,
) -> Result<ExprR, Stop>
    ensures { Tells (operand_meant line sign.now kind (sense scope.now line e.now)) result }
{
    let (found, code) = expr(alloc, scope, line, e)?;
    if is_kind(found, kind) {
        return Ok(code);
    }
    let name = culprit(alloc, scope, line, e, sign)?;
    Err(broken(alloc, Rule::WrongKind, line, name.as_str()))
}

/// A place: a rank, which is an integer, in a team.
#[cycle(exprs)]
pub fn place(
    alloc: Global,
    scope: &Scope,
    line: u32,
    name: &str,
    rank: &Expr,
    team_of: &Team,
) -> Result<PlaceR<ExprR>, Stop>
    ensures { Tells (place_meant scope.now line name.now (record { rank = sense scope.now line rank.now; team = team_of.now })) result }
{
    let rank = operand(alloc, scope, line, name, ValueKind::Integer, rank)?;
    let team = team(alloc, scope, line, team_of)?;
    Ok(PlaceR { rank, team })
}

/// A scalar of the main program, which has no subscript.
#[cycle(exprs)]
fn scalar(
    alloc: Global,
    scope: &Scope,
    line: u32,
    v: &Variable<Boxed<Expr>>,
    kind: ValueKind,
    object: u32,
    shared: bool,
) -> Result<(ValueKind, VariableR), Stop>
    ensures { Tells (scalar_as scope.now line v.now.name kind object shared (if_said scope.now line v.now.subscript) (place_said scope.now line v.now.place)) result }
{
    let name = v.name.as_str();
    match (&v.subscript, &v.place) {
        (None, None) => Ok((kind, VariableR::Scalar(object))),
        (None, Some(at)) => {
            coarray(alloc, line, name, shared)?;
            let place = place(alloc, scope, line, name, at.rank.get(), &at.team)?;
            let index = ExprR::Number(1);
            let variable = VariableR::Coindexed {
                object,
                index,
                place,
            };
            Ok((kind, variable))
        }
        (Some(_), _) => Err(broken(alloc, Rule::WrongKind, line, name)),
    }
}

/// An array of the main program, which has a subscript.
#[cycle(exprs)]
fn array(
    alloc: Global,
    scope: &Scope,
    line: u32,
    v: &Variable<Boxed<Expr>>,
    kind: ValueKind,
    object: u32,
    shared: bool,
) -> Result<(ValueKind, VariableR), Stop>
    ensures { Tells (array_as scope.now line v.now.name kind object shared (if_said scope.now line v.now.subscript) (place_said scope.now line v.now.place)) result }
{
    let name = v.name.as_str();
    match (&v.subscript, &v.place) {
        (None, _) => Err(broken(alloc, Rule::WrongKind, line, name)),
        (Some(index), None) => {
            let index = operand(alloc, scope, line, name, ValueKind::Integer, index.get())?;
            Ok((kind, VariableR::Element(object, index)))
        }
        (Some(index), Some(at)) => {
            let index = operand(alloc, scope, line, name, ValueKind::Integer, index.get())?;
            coarray(alloc, line, name, shared)?;
            let place = place(alloc, scope, line, name, at.rank.get(), &at.team)?;
            let variable = VariableR::Coindexed {
                object,
                index,
                place,
            };
            Ok((kind, variable))
        }
    }
}

/// An element by a copointer, which has a subscript and no place.
#[cycle(exprs)]
fn pointed(
    alloc: Global,
    scope: &Scope,
    line: u32,
    v: &Variable<Boxed<Expr>>,
    kind: ValueKind,
    object: u32,
) -> Result<(ValueKind, VariableR), Stop>
    ensures { Tells (pointed_as line v.now.name kind object (if_said scope.now line v.now.subscript) (place_said scope.now line v.now.place)) result }
{
    let name = v.name.as_str();
    match &v.subscript {
        None => Err(broken(alloc, Rule::WrongKind, line, name)),
        Some(index) => {
            let index = operand(alloc, scope, line, name, ValueKind::Integer, index.get())?;
            if v.place.is_none() {
                Ok((kind, VariableR::Pointed(object, index)))
            } else {
                Err(broken(alloc, Rule::WrongKind, line, name))
            }
        }
    }
}

/// A dummy or local, which has neither.
fn local(
    alloc: Global,
    scope: &Scope,
    line: u32,
    v: &Variable<Boxed<Expr>>,
    kind: ValueKind,
    cell: u32,
) -> Result<(ValueKind, VariableR), Stop>
    ensures { Tells (local_as line v.now.name kind cell (if_said scope.now line v.now.subscript) (place_said scope.now line v.now.place)) result }
{
    let name = v.name.as_str();
    match (&v.subscript, &v.place) {
        (None, None) => Ok((kind, VariableR::Local(cell))),
        (None, Some(_)) => Err(broken(alloc, Rule::NotCoarray, line, name)),
        (Some(_), _) => Err(broken(alloc, Rule::WrongKind, line, name)),
    }
}

/// A parameter where a variable is wanted.
fn parameter(
    alloc: Global,
    scope: &Scope,
    line: u32,
    v: &Variable<Boxed<Expr>>,
) -> Result<(ValueKind, VariableR), Stop>
    ensures { Tells (parameter_as line v.now.name (if_said scope.now line v.now.subscript) (place_said scope.now line v.now.place)) result }
{
    let name = v.name.as_str();
    match (&v.subscript, &v.place) {
        (None, None) => Err(broken(alloc, Rule::ReadOnly, line, name)),
        (None, Some(_)) => Err(broken(alloc, Rule::NotCoarray, line, name)),
        (Some(_), _) => Err(broken(alloc, Rule::WrongKind, line, name)),
    }
}

/// A variable of a part.
#[cycle(exprs)]
pub fn variable(
    alloc: Global,
    scope: &Scope,
    line: u32,
    v: &Variable<Boxed<Expr>>,
) -> Result<(ValueKind, VariableR), Stop>
    ensures { Tells (variable_as scope.now line v.now.name (look scope.now v.now.name) (if_said scope.now line v.now.subscript) (place_said scope.now line v.now.place)) result }
{
    let name = v.name.as_str();
    match look(scope, name) {
        None => Err(broken(alloc, Rule::Undeclared, line, name)),
        Some(
            Symbol::Scalar {
                kind,
                object,
                shared,
            },
        ) => scalar(alloc, scope, line, v, kind, object, shared),
        Some(
            Symbol::Array {
                kind,
                object,
                shared,
            },
        ) => array(alloc, scope, line, v, kind, object, shared),
        Some(Symbol::Copointer { kind, object }) => pointed(alloc, scope, line, v, kind, object),
        Some(Symbol::Local { kind, cell, .. }) => local(alloc, scope, line, v, kind, cell),
        Some(Symbol::Constant(_)) => parameter(alloc, scope, line, v),
        Some(_) => Err(broken(alloc, Rule::WrongKind, line, name)),
    }
}

/// The value of a variable.
fn of_variable(alloc: Global, v: VariableR) -> Result<ExprR, Memory>
    ensures { IfOk result (λ e. e ≡ value_of v) }
{
    match v {
        VariableR::Scalar(object) => Ok(ExprR::Scalar(object)),
        VariableR::Local(cell) => Ok(ExprR::Local(cell)),
        VariableR::Element(object, index) => {
            Ok(ExprR::Element(object, Boxed::new(alloc, index)?))
        }
        VariableR::Coindexed {
            object,
            index,
            place,
        } => {
            let index = Boxed::new(alloc, index)?;
            let PlaceR { rank, team } = place;
            let rank = Boxed::new(alloc, rank)?;
            Ok(ExprR::Coindexed {
                object,
                index,
                place: PlaceR { rank, team },
            })
        }
        VariableR::Pointed(copointer, index) => {
            Ok(ExprR::Pointed(copointer, Boxed::new(alloc, index)?))
        }
    }
}

/// The value of a parameter.
fn of_constant(constant: Constant) -> (ValueKind, ExprR)
    ensures { (result.0 ≡ kind_of_constant constant) × (result.1 ≡ constant_value constant) }
{
    match constant {
        Constant::Integer(number) => (ValueKind::Integer, ExprR::Number(number)),
        Constant::Logical(holds) => (ValueKind::Logical, ExprR::Truth(holds)),
    }
}

/// A name in an expression: a parameter, or a variable.
#[cycle(exprs)]
fn value(
    alloc: Global,
    scope: &Scope,
    line: u32,
    v: &Variable<Boxed<Expr>>,
) -> Result<(ValueKind, ExprR), Stop>
    ensures { Tells (value_as scope.now line v.now.name (look scope.now v.now.name) (if_said scope.now line v.now.subscript) (place_said scope.now line v.now.place)) result }
{
    if let (Some(Symbol::Constant(constant)), None, None) = (
        look(scope, v.name.as_str()),
        &v.subscript,
        &v.place,
    ) {
        return Ok(of_constant(constant));
    }
    let (kind, variable) = variable(alloc, scope, line, v)?;
    let value = of_variable(alloc, variable)?;
    Ok((kind, value))
}

/// The operand before those of a chain.
#[cycle(exprs)]
fn leading(
    alloc: Global,
    scope: &Scope,
    line: u32,
    operator: BinaryOperator,
    e: &Expr,
) -> Result<(ValueKind, ExprR), Stop>
    ensures { Tells (leading_meant line operator (sense scope.now line e.now)) result }
{
    let sign = spelling(operator);
    let first = operand(alloc, scope, line, sign, operand_kind(operator), e)?;
    Ok((result_kind(operator), first))
}

/// The first operand of a chain, before the operators of one level with their operands.
#[cycle(exprs)]
fn first_meant(
    alloc: Global,
    scope: &Scope,
    line: u32,
    e: &Expr,
    others: &[(Operator, Expr)],
) -> Result<(ValueKind, ExprR), Stop>
    ensures { Tells (first_said line (sense scope.now line e.now) (map (λ p. (p.0, sense scope.now line p.1)) others.now)) result }
{
    match others {
        [] => expr(alloc, scope, line, e),
        [(operator, _), ..] => leading(alloc, scope, line, of_operator(*operator), e),
    }
}

/// An operand of an operator.
#[cycle(exprs)]
fn under(
    alloc: Global,
    scope: &Scope,
    line: u32,
    operator: BinaryOperator,
    e: &Expr,
) -> Result<ExprR, Stop>
    ensures { Tells (under_meant line operator (sense scope.now line e.now)) result }
{
    operand(
        alloc,
        scope,
        line,
        spelling(operator),
        operand_kind(operator),
        e,
    )
}

/// An operator of a chain takes operands of the chain's kind.
fn alike(alloc: Global, line: u32, operator: BinaryOperator, kind: ValueKind) -> Result<(), Stop>
    ensures { Tells (alike_meant line operator kind) result }
{
    if is_kind(operand_kind(operator), kind) {
        Ok(())
    } else {
        Err(broken(alloc, Rule::WrongKind, line, spelling(operator)))
    }
}

/// A further operand of a chain.
#[cycle(exprs)]
fn further(
    alloc: Global,
    scope: &Scope,
    line: u32,
    kind: ValueKind,
    operator: BinaryOperator,
    e: &Expr,
) -> Result<ExprR, Stop>
    ensures { Tells (further_meant line kind operator (sense scope.now line e.now)) result }
{
    alike(alloc, line, operator, kind)?;
    under(alloc, scope, line, operator, e)
}

/// The operators of one level with their operands.
#[cycle(exprs)]
fn operands(
    alloc: Global,
    scope: &Scope,
    line: u32,
    kind: ValueKind,
    others: &[(Operator, Expr)],
) -> Result<Items<(BinaryOperator, ExprR)>, Stop>
    ensures { Tells (operands_meant line kind (map (λ p. (p.0, sense scope.now line p.1)) others.now)) result }
{
    let mut done = Items::new(alloc);
    for (operator, e) in others {
        let operator = of_operator(*operator);
        let e = further(alloc, scope, line, kind, operator, e)?;
        done.push((operator, e))?;
    }
    Ok(done)
}

/// Operands behind one operator that stands once for all of them.
#[cycle(exprs)]
fn listed(
    alloc: Global,
    scope: &Scope,
    line: u32,
    operator: BinaryOperator,
    others: &[Expr],
) -> Result<Items<(BinaryOperator, ExprR)>, Stop>
    ensures { Tells (listed_meant line operator (map (sense scope.now line) others.now)) result }
{
    let mut done = Items::new(alloc);
    for e in others {
        let e = under(alloc, scope, line, operator, e)?;
        done.push((operator, e))?;
    }
    Ok(done)
}

/// A first operand and those that follow it.
fn chain_of(
    alloc: Global,
    first: (ValueKind, ExprR),
    others: Items<(BinaryOperator, ExprR)>,
) -> Result<(ValueKind, ExprR), Memory>
    ensures { IfOk result (λ t. (t.0 ≡ first.0) × (t.1 ≡ R.Chain first.1 others)) }
{
    let (kind, first) = first;
    let first = Boxed::new(alloc, first)?;
    Ok((kind, ExprR::Chain(first, others)))
}

/// The same, as what an expression means.
fn chained(
    alloc: Global,
    first: (ValueKind, ExprR),
    others: Items<(BinaryOperator, ExprR)>,
) -> Result<(ValueKind, ExprR), Stop>
    ensures { Tells (Ok (first.0, R.Chain first.1 others)) result }
{
    let chain = chain_of(alloc, first, others)?;
    Ok(chain)
}

/// A first operand and one that follows it.
fn paired(
    alloc: Global,
    first: (ValueKind, ExprR),
    operator: BinaryOperator,
    second: ExprR,
) -> Result<(ValueKind, ExprR), Memory>
    ensures { IfOk result (λ t. (t.0 ≡ first.0) × (t.1 ≡ R.Chain first.1 ((operator, second) ∷ []))) }
{
    let mut others = Items::new(alloc);
    others.push((operator, second))?;
    chain_of(alloc, first, others)
}

/// An operand and those that follow it, of which the first stands apart.
fn behind(
    alloc: Global,
    operator: BinaryOperator,
    second: ExprR,
    others: Items<(BinaryOperator, ExprR)>,
) -> Result<Items<(BinaryOperator, ExprR)>, Memory>
    ensures { IfOk result (λ all. all ≡ (operator, second) ∷ others) }
{
    let mut all = Items::new(alloc);
    all.push((operator, second))?;
    all.append(others)?;
    Ok(all)
}

/// A first operand, one that follows it, and those that follow.
fn joined(
    alloc: Global,
    first: (ValueKind, ExprR),
    operator: BinaryOperator,
    second: ExprR,
    others: Items<(BinaryOperator, ExprR)>,
) -> Result<(ValueKind, ExprR), Stop>
    ensures { Tells (Ok (first.0, R.Chain first.1 ((operator, second) ∷ others))) result }
{
    let all = behind(alloc, operator, second, others)?;
    chained(alloc, first, all)
}

/// An operator before its operand.
fn applied(
    alloc: Global,
    operator: UnaryOperator,
    kind: ValueKind,
    e: ExprR,
) -> Result<(ValueKind, ExprR), Memory>
    ensures { IfOk result (λ t. (t.0 ≡ kind) × (t.1 ≡ R.Unary operator e)) }
{
    Ok((kind, ExprR::Unary(operator, Boxed::new(alloc, e)?)))
}

/// What an expression means in a part: its kind, and what stands for it.
#[cycle(exprs)]
pub fn expr(alloc: Global, scope: &Scope, line: u32, e: &Expr) -> Result<(ValueKind, ExprR), Stop>
    ensures { Tells (sense scope.now line e.now).says result }
{
    match e {
        Expr::Number(number) => Ok((ValueKind::Integer, ExprR::Number(*number))),
        Expr::Truth(holds) => Ok((ValueKind::Logical, ExprR::Truth(*holds))),
        Expr::Parenthesized(inner) => expr(alloc, scope, line, inner.get()),
        Expr::Variable(v) => value(alloc, scope, line, v),
        Expr::Mod(a, b) => {
            let first = leading(alloc, scope, line, BinaryOperator::Modulo, a.get())?;
            let second = under(alloc, scope, line, BinaryOperator::Modulo, b.get())?;
            Ok(paired(alloc, first, BinaryOperator::Modulo, second)?)
        }
        Expr::Abs(a) => {
            let a = operand(alloc, scope, line, "abs", ValueKind::Integer, a.get())?;
            Ok(applied(alloc, UnaryOperator::Absolute, ValueKind::Integer, a)?)
        }
        Expr::Min(a, b, others) => {
            let first = leading(alloc, scope, line, BinaryOperator::Minimum, a.get())?;
            let second = under(alloc, scope, line, BinaryOperator::Minimum, b.get())?;
            let others = listed(
                alloc,
                scope,
                line,
                BinaryOperator::Minimum,
                others.as_slice(),
            )?;
            joined(alloc, first, BinaryOperator::Minimum, second, others)
        }
        Expr::Max(a, b, others) => {
            let first = leading(alloc, scope, line, BinaryOperator::Maximum, a.get())?;
            let second = under(alloc, scope, line, BinaryOperator::Maximum, b.get())?;
            let others = listed(
                alloc,
                scope,
                line,
                BinaryOperator::Maximum,
                others.as_slice(),
            )?;
            joined(alloc, first, BinaryOperator::Maximum, second, others)
        }
        Expr::TeamRank(t) => Ok((
            ValueKind::Integer,
            ExprR::Rank(team(alloc, scope, line, t)?),
        )),
        Expr::TeamSize(t) => Ok((
            ValueKind::Integer,
            ExprR::Size(team(alloc, scope, line, t)?),
        )),
        Expr::Signed(FrontSign::Plus, a) => {
            let a = operand(alloc, scope, line, "+", ValueKind::Integer, a.get())?;
            Ok((ValueKind::Integer, a))
        }
        Expr::Signed(FrontSign::Minus, a) => {
            let a = operand(alloc, scope, line, "-", ValueKind::Integer, a.get())?;
            Ok(applied(alloc, UnaryOperator::Negate, ValueKind::Integer, a)?)
        }
        Expr::Chain(a, others) => {
            let first = first_meant(alloc, scope, line, a.get(), others.as_slice())?;
            let others = operands(alloc, scope, line, first.0, others.as_slice())?;
            chained(alloc, first, others)
        }
        Expr::Compare(a, relation, b) => {
            let operator = of_relation(*relation);
            let first = leading(alloc, scope, line, operator, a.get())?;
            let second = under(alloc, scope, line, operator, b.get())?;
            Ok(paired(alloc, first, operator, second)?)
        }
        Expr::Not(a) => {
            let a = operand(alloc, scope, line, ".not.", ValueKind::Logical, a.get())?;
            Ok(applied(alloc, UnaryOperator::Not, ValueKind::Logical, a)?)
        }
    }
}
