use caf_base::{BinaryOperator, Kind, Memory, Object, Sequence, Team, Text, Trap, UnaryOperator};
use caf_program::{
    Accepted, ActualR, DummyR, ExprR, Intent, PlaceR, PrintR, Program, StmtR, SubR, TeamR,
    ValueKind, View, copy_block, eval,
};
use sqlite_items::{Boxed, Items};
use std::alloc::{AllocError, Global};
use std::process::Abort;
use std::test::Fail;

/// Expects this value or trap of an expression that names no slot.
fn expect_alone<R: Abort>(rt: &R, e: &ExprR, wanted: Result<i64, Trap>) {
    let view = View {
        objects: &[],
        cells: &[],
        locals: &[],
        held: &[],
        image: 0,
        images: 1,
        teams: &[],
    };
    expect(rt, e, &view, wanted);
}

fn unary(alloc: Global, operator: UnaryOperator, operand: ExprR) -> Result<ExprR, AllocError> {
    Ok(ExprR::Unary(operator, Boxed::new(alloc, operand)?))
}

fn chain(
    alloc: Global,
    first: ExprR,
    operator: BinaryOperator,
    second: ExprR,
) -> Result<ExprR, AllocError> {
    let mut rest = Items::new(alloc);
    rest.push((operator, second))?;
    Ok(ExprR::Chain(Boxed::new(alloc, first)?, rest))
}

fn coindexed(alloc: Global, index: i64) -> Result<ExprR, AllocError> {
    let index = Boxed::new(alloc, ExprR::Number(index))?;
    let rank = Boxed::new(alloc, ExprR::Number(1))?;
    let team = TeamR::World;
    Ok(ExprR::Coindexed {
        object: 0,
        index,
        place: PlaceR { rank, team },
    })
}

fn expect<R: Abort>(rt: &R, e: &ExprR, view: &View, wanted: Result<i64, Trap>) {
    assert_eq!(rt; e.read_count(), Some(view.held.len()));
    assert_eq!(rt; eval(e, view), wanted);
}

#[test]
fn two_numbers_give_the_exact_result_or_a_trap(rt: HostRuntime) -> Result<(), Fail> {
    let alloc = rt.alloc();
    let rows = [
        (7, BinaryOperator::Divide, 2, Ok(3)),
        (-7, BinaryOperator::Divide, 2, Ok(-3)),
        (-7, BinaryOperator::Modulo, 2, Ok(-1)),
        (7, BinaryOperator::Modulo, -2, Ok(1)),
        (i64::MAX, BinaryOperator::Add, 1, Err(Trap::Number)),
        (i64::MIN, BinaryOperator::Divide, -1, Err(Trap::Number)),
        (i64::MIN, BinaryOperator::Modulo, -1, Ok(0)),
        (1, BinaryOperator::Divide, 0, Err(Trap::Divisor)),
        (1, BinaryOperator::Modulo, 0, Err(Trap::Divisor)),
        (3, BinaryOperator::Minimum, 1, Ok(1)),
        (3, BinaryOperator::LessEqual, 3, Ok(1)),
        (1, BinaryOperator::Equivalent, 0, Ok(0)),
    ];
    for (left, operator, right, wanted) in rows {
        let (left, right) = (ExprR::Number(left), ExprR::Number(right));
        expect_alone(&rt, &chain(alloc, left, operator, right)?, wanted);
    }
    for operator in [UnaryOperator::Negate, UnaryOperator::Absolute] {
        let e = unary(alloc, operator, ExprR::Number(i64::MIN))?;
        expect_alone(&rt, &e, Err(Trap::Number));
    }
    Ok(())
}

/// `first + second * third`
fn sum_with_product(
    alloc: Global,
    first: i64,
    second: i64,
    third: i64,
) -> Result<ExprR, AllocError> {
    let (second, third) = (ExprR::Number(second), ExprR::Number(third));
    let product = chain(alloc, second, BinaryOperator::Multiply, third)?;
    chain(alloc, ExprR::Number(first), BinaryOperator::Add, product)
}

/// `first - second - third`
fn difference(alloc: Global, first: i64, second: i64, third: i64) -> Result<ExprR, AllocError> {
    let mut rest = Items::new(alloc);
    rest.push((BinaryOperator::Subtract, ExprR::Number(second)))?;
    rest.push((BinaryOperator::Subtract, ExprR::Number(third)))?;
    Ok(ExprR::Chain(Boxed::new(alloc, ExprR::Number(first))?, rest))
}

/// `.false. .and. 1/0 == 0`
fn false_and_trap(alloc: Global) -> Result<ExprR, AllocError> {
    let (one, zero) = (ExprR::Number(1), ExprR::Number(0));
    let quotient = chain(alloc, one, BinaryOperator::Divide, zero)?;
    let relation = chain(alloc, quotient, BinaryOperator::Equal, ExprR::Number(0))?;
    chain(alloc, ExprR::Truth(false), BinaryOperator::And, relation)
}

#[test]
fn operators_group_by_their_level_and_from_the_left(rt: HostRuntime) -> Result<(), Fail> {
    let alloc = rt.alloc();
    expect_alone(&rt, &sum_with_product(alloc, 2, 3, 4)?, Ok(14));
    expect_alone(&rt, &difference(alloc, 7, 2, 1)?, Ok(4));
    expect_alone(&rt, &false_and_trap(alloc)?, Err(Trap::Divisor));

    // -2*3 and -7/2
    let rows = [
        (2, BinaryOperator::Multiply, 3, -6),
        (7, BinaryOperator::Divide, 2, -3),
    ];
    for (left, operator, right, wanted) in rows {
        let (left, right) = (ExprR::Number(left), ExprR::Number(right));
        let term = chain(alloc, left, operator, right)?;
        let e = unary(alloc, UnaryOperator::Negate, term)?;
        expect_alone(&rt, &e, Ok(wanted));
    }
    Ok(())
}

#[test]
fn elements_values_read_and_teams_come_from_the_view(rt: HostRuntime) -> Result<(), Fail> {
    let alloc = rt.alloc();
    let objects = [Object {
        kind: Kind::Integer,
        lower: 2,
        extent: 3,
        shared: true,
    }];
    let cells = [Sequence::from_slice(alloc, &[20, 30, 40])?];
    let members = Sequence::from_slice(alloc, &[4, 2, 9])?;
    let path = Sequence::new(alloc);
    let teams = [None, Some(Team { path, members })];
    let view = View {
        objects: &objects,
        cells: &cells,
        locals: &[5, 6],
        held: &[],
        image: 9,
        images: 12,
        teams: &teams,
    };
    for (index, wanted) in [
        (1, Err(Trap::Index)),
        (2, Ok(20)),
        (4, Ok(40)),
        (5, Err(Trap::Index)),
    ] {
        let index = Boxed::new(alloc, ExprR::Number(index))?;
        expect(&rt, &ExprR::Element(0, index), &view, wanted);
    }
    expect(&rt, &ExprR::Local(1), &view, Ok(6));
    for (team, rank, size) in [
        (TeamR::World, Ok(9), Ok(12)),
        (TeamR::Object(0), Err(Trap::Team), Err(Trap::Team)),
        (TeamR::Object(1), Ok(2), Ok(3)),
    ] {
        expect(&rt, &ExprR::Rank(team), &view, rank);
        expect(&rt, &ExprR::Size(team), &view, size);
    }

    // a(2)[1] - a(3)[1], with the two values read
    let (first, second) = (coindexed(alloc, 2)?, coindexed(alloc, 3)?);
    let e = chain(alloc, first, BinaryOperator::Subtract, second)?;
    let held = &[70, 1];
    expect(&rt, &e, &View { held, ..view }, Ok(69));
    let copy = e.copy(alloc)?;
    expect(&rt, &copy, &View { held, ..view }, Ok(69));
    Ok(())
}

/// A program that ships `f(7)` to image 1, where `f(k)` prints `k`.
fn shipping(alloc: Global) -> Result<Accepted, Memory> {
    let mut parts = Items::new(alloc);
    parts.push(PrintR::Number(ExprR::Local(0)))?;
    let mut printing = Items::new(alloc);
    printing.push(StmtR::Print { line: 5, parts })?;
    let mut dummies = Sequence::new(alloc);
    dummies.push(DummyR {
        name: Text::copy_of(alloc, "k")?,
        kind: ValueKind::Integer,
        intent: Intent::In,
    })?;
    let mut subs = Sequence::new(alloc);
    subs.push(SubR {
        name: Text::copy_of(alloc, "f")?,
        dummies,
        locals: Sequence::new(alloc),
        body: printing,
    })?;
    let mut actuals = Items::new(alloc);
    actuals.push(ActualR::Value(ExprR::Number(7)))?;
    let (rank, team) = (ExprR::Number(1), TeamR::World);
    let mut body = Items::new(alloc);
    body.push(StmtR::Spawn {
        line: 2,
        done: None,
        sub: 0,
        actuals,
        place: PlaceR { rank, team },
    })?;
    Ok(Accepted::of(Program {
        objects: Sequence::new(alloc),
        names: Sequence::new(alloc),
        subs,
        body,
    }))
}

#[test]
fn a_program_that_ships_is_accepted_and_its_statements_are_copied(
    rt: HostRuntime,
) -> Result<(), Fail> {
    let alloc = rt.alloc();
    let accepted = shipping(alloc)?;
    let copies = copy_block(alloc, accepted.program().body.as_slice())?;
    assert_eq!(rt; copies.len(), 1);
    assert!(rt;
        matches!(
            copies.get(0),
            Some(StmtR::Spawn {
                line: 2,
                sub: 0,
                ..
            })
        )
    );
    Ok(())
}
