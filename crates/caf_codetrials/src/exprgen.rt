use caf_base::{BinaryOperator, Memory, UnaryOperator};
use caf_code::{
    Arithmetic, CellUse, ElementForm, Instr, Logical, PlaceForm, Reach, Relation, TeamName,
    TeamQuery,
};
use caf_exprgen::{gen_expr, gen_reads};
use caf_program::{ExprR, PlaceR, TeamR};
use sqlite_items::{Boxed, Items};
use std::alloc::{AllocError, Global};
use std::test::Fail;

fn chain(
    alloc: Global,
    first: ExprR,
    operator: BinaryOperator,
    second: ExprR,
) -> Result<ExprR, AllocError> {
    let mut rest = Items::new(alloc);
    rest.push((operator, second))?;
    Ok(ExprR::Chain(Boxed::new(alloc, first)?, rest))
}

/// The element 1 of object 0 at an image.
fn coindexed(alloc: Global, rank: ExprR) -> Result<ExprR, AllocError> {
    let index = Boxed::new(alloc, ExprR::Number(1))?;
    let rank = Boxed::new(alloc, rank)?;
    let team = TeamR::World;
    Ok(ExprR::Coindexed {
        object: 0,
        index,
        place: PlaceR { rank, team },
    })
}

fn pointed(alloc: Global, index: ExprR) -> Result<ExprR, AllocError> {
    Ok(ExprR::Pointed(5, Boxed::new(alloc, index)?))
}

/// The code of an expression whose values are held from a place on.
fn code_of(alloc: Global, e: &ExprR, held: u32) -> Result<Vec<Instr>, Memory> {
    let mut out = Vec::new(alloc);
    match e.read_count() {
        Some(count) if count < 100 && held < 100 => gen_expr(e, held, &mut out)?,
        _ => {}
    }
    Ok(out)
}

/// The code of an expression's reads.
fn reads_of(alloc: Global, e: &ExprR) -> Result<Vec<Instr>, Memory> {
    let mut out = Vec::new(alloc);
    match e.read_count() {
        Some(count) if count < 100 => gen_reads(e, 0, &mut out)?,
        _ => {}
    }
    Ok(out)
}

#[test]
fn operands_stand_before_their_operators(rt: HostRuntime) -> Result<(), Fail> {
    let alloc = rt.alloc();
    // mod(x, a(j + 1))
    let sum = chain(
        alloc,
        ExprR::Local(2),
        BinaryOperator::Add,
        ExprR::Number(1),
    )?;
    let element = ExprR::Element(1, Boxed::new(alloc, sum)?);
    let e = chain(alloc, ExprR::Scalar(3), BinaryOperator::Modulo, element)?;
    let code = code_of(alloc, &e, 0)?;
    assert!(rt;
        matches!(
            code.as_slice(),
            [
                Instr::Load(Reach::Scalar, 3),
                Instr::Cell(CellUse::Get, 2),
                Instr::Push(1),
                Instr::Arithmetic(Arithmetic::Add),
                Instr::Load(Reach::Element, 1),
                Instr::Arithmetic(Arithmetic::Modulo),
            ]
        )
    );
    Ok(())
}

#[test]
fn teams_and_logicals_have_their_instructions(rt: HostRuntime) -> Result<(), Fail> {
    let alloc = rt.alloc();
    // .not. (.true. .and. team_rank(t) == q[0]), where three values are held before
    let read = coindexed(alloc, ExprR::Number(0))?;
    let test = chain(
        alloc,
        ExprR::Rank(TeamR::Object(4)),
        BinaryOperator::Equal,
        read,
    )?;
    let both = chain(alloc, ExprR::Truth(true), BinaryOperator::And, test)?;
    let e = ExprR::Unary(UnaryOperator::Not, Boxed::new(alloc, both)?);
    let code = code_of(alloc, &e, 3)?;
    assert!(rt;
        matches!(
            code.as_slice(),
            [
                Instr::Push(1),
                Instr::Team(TeamQuery::Rank, TeamName::Object(4)),
                Instr::Held(3),
                Instr::Relation(Relation::Equal),
                Instr::Logical(Logical::And),
                Instr::Logical(Logical::Not),
            ]
        )
    );
    Ok(())
}

#[test]
fn each_read_is_the_last_of_those_that_it_needs(rt: HostRuntime) -> Result<(), Fail> {
    let alloc = rt.alloc();
    // c[p(1)] + p(c[team_size()])
    let first = coindexed(alloc, pointed(alloc, ExprR::Number(1))?)?;
    let second = pointed(alloc, coindexed(alloc, ExprR::Size(TeamR::World))?)?;
    let e = chain(alloc, first, BinaryOperator::Add, second)?;
    let code = code_of(alloc, &e, 0)?;
    assert!(rt;
        matches!(
            code.as_slice(),
            [
                Instr::Held(1),
                Instr::Held(3),
                Instr::Arithmetic(Arithmetic::Add),
            ]
        )
    );
    Ok(())
}

#[test]
fn reads_stand_in_post_order(rt: HostRuntime) -> Result<(), Fail> {
    let alloc = rt.alloc();
    // c[p(1)] + p(c[team_size()])
    let first = coindexed(alloc, pointed(alloc, ExprR::Number(1))?)?;
    let second = pointed(alloc, coindexed(alloc, ExprR::Size(TeamR::World))?)?;
    let e = chain(alloc, first, BinaryOperator::Add, second)?;
    let code = reads_of(alloc, &e)?;
    assert!(rt;
        matches!(
            code.as_slice(),
            [
                Instr::Push(1),
                Instr::Ask(ElementForm::Pointed(5)),
                Instr::Push(1),
                Instr::Held(0),
                Instr::Ask(ElementForm::Coindexed(0, PlaceForm::World)),
                Instr::Push(1),
                Instr::Team(TeamQuery::Size, TeamName::World),
                Instr::Ask(ElementForm::Coindexed(0, PlaceForm::World)),
                Instr::Held(2),
                Instr::Ask(ElementForm::Pointed(5)),
            ]
        )
    );
    Ok(())
}
