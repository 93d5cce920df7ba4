ghost use Rattle.std.specs.Prelude.{◌≡◌, ◌<◌, ◌≤◌, ◌∷◌, [], IfOk, length};
ghost use Rattle.caf_program.specs.declared.expr.ExprR.TheVariants as expr;
ghost use Rattle.caf_program.specs.declared.parts.PrintR.TheVariants as part;
ghost use Rattle.caf_program.specs.declared.stmt.LoopVariableR.TheVariants as counter;
ghost use Rattle.caf_program.specs.declared.stmt.StmtR.TheVariants as stmt;

use caf_base::{
    BinaryOperator, Ending, Kind, Memory, Object, OpName, Sequence, Summary, Text, Trap,
    UnaryOperator,
};
use caf_program::{
    Accepted, ActualR, DummyR, ExprR, Intent, LoopVariableR, PlaceR, PrintR, Program, StmtR, SubR,
    TeamR, ValueKind, VariableR,
};
use caf_source::{Certified, Choice, State, certify, step};
use sqlite_items::{Boxed, Items};
use std::alloc::{AllocError, Global};
use std::process::Abort;
use std::test::Fail;

/// Makes Steps of the main task as long as they are defined, at most so many, and then leaves the program's finish.
fn run(alloc: Global, a: &Accepted, most: u32) -> Result<Summary, Memory>
    requires { most < 999999 }
{
    let mut state = State::new(alloc, a, 1)?;
    for _step in 0..most {
        step(a, &mut state, Choice::Step(0, 0))?;
    }
    step(a, &mut state, Choice::Leave(0))?;
    state.summary(a)
}

fn expect<R: Abort>(rt: &R, summary: &Summary, lines: &[&str], trap: Option<Trap>, ending: Ending) {
    let image = summary.images.get(0).expect(rt, "there is one image");
    let printed = image.lines.as_slice();
    assert_eq!(rt; printed.len(), lines.len());
    for (line, wanted) in printed.iter().zip(lines) {
        assert_eq!(rt; line.as_str(), *wanted);
    }
    assert_eq!(rt; image.trap, trap);
    assert_eq!(rt; summary.ending, ending);
}

fn chain(
    alloc: Global,
    first: i64,
    operator: BinaryOperator,
    second: i64,
) -> Result<ExprR, AllocError>
    ensures { IfOk result (λ e. e ≡ expr.Chain (expr.Number first) ((operator, expr.Number second) ∷ [])) }
{
    let mut rest = Items::new(alloc);
    rest.push((operator, ExprR::Number(second)))?;
    Ok(ExprR::Chain(Boxed::new(alloc, ExprR::Number(first))?, rest))
}

/// `print *, -7/2, mod(-7, 2), -2*3`
fn printed_numbers(alloc: Global) -> Result<Accepted, Memory> {
    let half = chain(alloc, 7, BinaryOperator::Divide, 2)?;
    let product = chain(alloc, 2, BinaryOperator::Multiply, 3)?;
    let mut parts = Items::new(alloc);
    parts.push(PrintR::Number(ExprR::Unary(UnaryOperator::Negate, Boxed::new(alloc, half)?)))?;
    parts.push(PrintR::Number(chain(alloc, -7, BinaryOperator::Modulo, 2)?))?;
    parts.push(PrintR::Number(ExprR::Unary(UnaryOperator::Negate, Boxed::new(alloc, product)?)))?;
    let mut body = Items::new(alloc);
    body.push(StmtR::Print { line: 2, parts })?;
    Ok(Accepted::of(Program {
        objects: Sequence::new(alloc),
        names: Sequence::new(alloc),
        subs: Sequence::new(alloc),
        body,
    }))
}

#[test]
fn a_front_sign_applies_to_its_term_and_division_truncates(rt: HostRuntime) -> Result<(), Fail> {
    let alloc = rt.alloc();
    let program = printed_numbers(alloc)?;
    let summary = run(alloc, &program, 5)?;
    expect(&rt, &summary, &["-3 -1 -6"], None, Ending::Done);
    Ok(())
}

/// The variable `i`.
const INTEGER: Object = Object {
    kind: Kind::Integer,
    lower: 1,
    extent: 1,
    shared: false,
};

fn names(alloc: Global) -> Result<Sequence<Text>, Memory>
    ensures { IfOk result (λ names. length names ≡ 1) }
{
    let mut names = Sequence::new(alloc);
    names.push(Text::copy_of(alloc, "i")?)?;
    Ok(names)
}

fn print_variable(alloc: Global, line: u32) -> Result<StmtR, Memory>
    ensures { IfOk result (λ s. s ≡ stmt.Print line (part.Number (expr.Scalar 0) ∷ [])) }
{
    let mut parts = Items::new(alloc);
    parts.push(PrintR::Number(ExprR::Scalar(0)))?;
    Ok(StmtR::Print { line, parts })
}

/// `do i = first, last, step`, with a body that prints `i`.
fn counting(alloc: Global, first: i64, last: i64, step: i64) -> Result<Accepted, Memory> {
    let mut block = Items::new(alloc);
    block.push(print_variable(alloc, 4)?)?;
    let mut body = Items::new(alloc);
    body.push(loop_over(3, first, last, step, block))?;
    body.push(print_variable(alloc, 6)?)?;
    Ok(Accepted::of(Program {
        objects: Sequence::from_slice(alloc, &[INTEGER])?,
        names: names(alloc)?,
        subs: Sequence::new(alloc),
        body,
    }))
}

#[test]
fn a_loop_counts_its_turns_in_exact_numbers(rt: HostRuntime) -> Result<(), Fail> {
    let alloc = rt.alloc();
    let summary = run(alloc, &counting(alloc, 1, 5, 2)?, 9)?;
    expect(&rt, &summary, &["1", "3", "5", "7"], None, Ending::Done);
    let summary = run(alloc, &counting(alloc, 1, 5, 0)?, 9)?;
    expect(&rt, &summary, &[], Some(Trap::Step), Ending::Trapped);
    // The last turn ends by an addition that 64 bits don't hold.
    let greatest = i64::MAX;
    let summary = run(alloc, &counting(alloc, greatest - 1, greatest, 1)?, 9)?;
    let lines = &["9223372036854775806", "9223372036854775807"];
    expect(&rt, &summary, lines, Some(Trap::Number), Ending::Trapped);
    // (greatest - least + greatest) / greatest is 3.
    let summary = run(alloc, &counting(alloc, i64::MIN, greatest, greatest)?, 9)?;
    let lines = &["-9223372036854775808", "-1", "9223372036854775806"];
    expect(&rt, &summary, lines, Some(Trap::Number), Ending::Trapped);
    Ok(())
}

/// `do i = first, last, step`, with this body.
fn loop_over(line: u32, first: i64, last: i64, step: i64, body: Items<StmtR>) -> StmtR
    ensures { result ≡ stmt.Do line (counter.Scalar 0) (expr.Number first) (expr.Number last) (expr.Number step) body }
{
    StmtR::Do {
        line,
        variable: LoopVariableR::Scalar(0),
        first: ExprR::Number(first),
        last: ExprR::Number(last),
        step: ExprR::Number(step),
        body,
    }
}

/// A loop without turns that would print, `i`, a loop of three turns, and `i` again.
fn two_loops(alloc: Global) -> Result<Accepted, Memory> {
    let mut parts = Items::new(alloc);
    parts.push(PrintR::Text(Text::copy_of(alloc, "never")?))?;
    let mut never = Items::new(alloc);
    never.push(StmtR::Print { line: 4, parts })?;
    let mut body = Items::new(alloc);
    body.push(loop_over(3, 5, 1, 1, never))?;
    body.push(print_variable(alloc, 6)?)?;
    body.push(loop_over(7, 1, 5, 2, Items::new(alloc)))?;
    body.push(print_variable(alloc, 9)?)?;
    Ok(Accepted::of(Program {
        objects: Sequence::from_slice(alloc, &[INTEGER])?,
        names: names(alloc)?,
        subs: Sequence::new(alloc),
        body,
    }))
}

#[test]
fn a_loop_that_is_over_leaves_the_first_number_past_its_last(rt: HostRuntime) -> Result<(), Fail> {
    let alloc = rt.alloc();
    let summary = run(alloc, &two_loops(alloc)?, 9)?;
    expect(&rt, &summary, &["5", "7"], None, Ending::Done);
    Ok(())
}

/// A subroutine `f(n)` that prints `n` and calls `f(n + 1)`, called with 1.
fn calling_itself(alloc: Global) -> Result<Accepted, Memory> {
    let mut parts = Items::new(alloc);
    parts.push(PrintR::Number(ExprR::Local(0)))?;
    let mut rest = Items::new(alloc);
    rest.push((BinaryOperator::Add, ExprR::Number(1)))?;
    let mut deeper = Items::new(alloc);
    deeper.push(ActualR::Value(ExprR::Chain(Boxed::new(alloc, ExprR::Local(0))?, rest)))?;
    let mut printing = Items::new(alloc);
    printing.push(StmtR::Print { line: 6, parts })?;
    printing.push(StmtR::Call {
        line: 7,
        sub: 0,
        actuals: deeper,
    })?;
    let mut dummies = Sequence::new(alloc);
    dummies.push(DummyR {
        name: Text::copy_of(alloc, "n")?,
        kind: ValueKind::Integer,
        intent: Intent::In,
    })?;
    let mut subs = Sequence::new(alloc);
    subs.push(SubR {
        name: Text::copy_of(alloc, "f")?,
        dummies,
        locals: Sequence::new(alloc),
        body: printing,
    })?;
    let mut actuals = Items::new(alloc);
    actuals.push(ActualR::Value(ExprR::Number(1)))?;
    let mut body = Items::new(alloc);
    body.push(StmtR::Call {
        line: 2,
        sub: 0,
        actuals,
    })?;
    Ok(Accepted::of(Program {
        objects: Sequence::new(alloc),
        names: Sequence::new(alloc),
        subs,
        body,
    }))
}

#[test]
fn the_two_hundred_and_first_call_traps(rt: HostRuntime) -> Result<(), Fail> {
    let alloc = rt.alloc();
    let summary = run(alloc, &calling_itself(alloc)?, 500)?;
    let image = summary.images.get(0).expect(&rt, "there is one image");
    let lines = image.lines.as_slice();
    assert_eq!(rt; lines.len(), 200);
    assert_eq!(rt; lines[0].as_str(), "1");
    assert_eq!(rt; lines[199].as_str(), "200");
    assert_eq!(rt; image.trap, Some(Trap::Depth));
    assert_eq!(rt; summary.ending, Ending::Trapped);
    Ok(())
}

/// A coarray of one integer.
const SHARED: Object = Object {
    kind: Kind::Integer,
    lower: 1,
    extent: 1,
    shared: true,
};

/// A variable that holds a team.
const TEAM: Object = Object {
    kind: Kind::Team,
    lower: 1,
    extent: 1,
    shared: false,
};

/// `a[1] = 5` and `print *, a`.
fn writing_far(alloc: Global) -> Result<Accepted, Memory> {
    let target = VariableR::Coindexed {
        object: 0,
        index: ExprR::Number(1),
        place: PlaceR {
            rank: ExprR::Number(1),
            team: TeamR::World,
        },
    };
    let mut body = Items::new(alloc);
    body.push(StmtR::Assign {
        line: 3,
        target,
        value: ExprR::Number(5),
    })?;
    body.push(print_variable(alloc, 4)?)?;
    Ok(Accepted::of(Program {
        objects: Sequence::from_slice(alloc, &[SHARED])?,
        names: names(alloc)?,
        subs: Sequence::new(alloc),
        body,
    }))
}

/// `spawn f(7)[1]`, with a subroutine `f(n)` that prints `n`.
fn shipping(alloc: Global) -> Result<Accepted, Memory> {
    let mut parts = Items::new(alloc);
    parts.push(PrintR::Number(ExprR::Local(0)))?;
    let mut printing = Items::new(alloc);
    printing.push(StmtR::Print { line: 5, parts })?;
    let mut dummies = Sequence::new(alloc);
    dummies.push(DummyR {
        name: Text::copy_of(alloc, "n")?,
        kind: ValueKind::Integer,
        intent: Intent::In,
    })?;
    let mut subs = Sequence::new(alloc);
    subs.push(SubR {
        name: Text::copy_of(alloc, "f")?,
        dummies,
        locals: Sequence::new(alloc),
        body: printing,
    })?;
    let mut actuals = Items::new(alloc);
    actuals.push(ActualR::Value(ExprR::Number(7)))?;
    let mut body = Items::new(alloc);
    body.push(StmtR::Spawn {
        line: 2,
        done: None,
        sub: 0,
        actuals,
        place: PlaceR {
            rank: ExprR::Number(1),
            team: TeamR::World,
        },
    })?;
    Ok(Accepted::of(Program {
        objects: Sequence::new(alloc),
        names: Sequence::new(alloc),
        subs,
        body,
    }))
}

/// `team_split(team_world, 0, -team_rank(), t)` and `print *, team_rank(t)`.
fn splitting(alloc: Global) -> Result<Accepted, Memory> {
    let rank = Boxed::new(alloc, ExprR::Rank(TeamR::World))?;
    let mut parts = Items::new(alloc);
    parts.push(PrintR::Number(ExprR::Rank(TeamR::Object(0))))?;
    let mut body = Items::new(alloc);
    body.push(StmtR::Split {
        line: 3,
        team: TeamR::World,
        colour: ExprR::Number(0),
        key: ExprR::Unary(UnaryOperator::Negate, rank),
        new: 0,
    })?;
    body.push(StmtR::Print { line: 4, parts })?;
    Ok(Accepted::of(Program {
        objects: Sequence::from_slice(alloc, &[TEAM])?,
        names: names(alloc)?,
        subs: Sequence::new(alloc),
        body,
    }))
}

/// The operation that an image began first.
fn first_of(image: u32) -> Choice {
    Choice::Touch(OpName { image, number: 1 })
}

/// Two images, whose choices are all defined, and the line that each has printed at their end.
fn expect_both<R: Abort>(
    rt: &R,
    alloc: Global,
    a: &Accepted,
    choices: &[Choice],
    lines: [&[&str]; 2],
) -> Result<(), Memory>
    requires { length choices.now ≤ 1000000 }
{
    let Certified::Runs(state) = certify(alloc, a, 2, choices)? else {
        assert!(rt; false);
        return Ok(());
    };
    let summary = state.summary(a)?;
    assert_eq!(rt; summary.ending, Ending::Done);
    for (image, wanted) in summary.images.as_slice().iter().zip(lines) {
        let printed = image.lines.as_slice();
        assert_eq!(rt; printed.len(), wanted.len());
        for (line, due) in printed.iter().zip(wanted) {
            assert_eq!(rt; line.as_str(), *due);
        }
    }
    Ok(())
}

/// The place of the first of these choices on two images that isn't defined.
fn refused(alloc: Global, a: &Accepted, choices: &[Choice]) -> Result<Option<usize>, Memory>
    requires { length choices.now ≤ 1000000 }
{
    match certify(alloc, a, 2, choices)? {
        Certified::Runs(_) => Ok(None),
        Certified::Refused(at) => Ok(Some(at)),
    }
}

#[test]
fn a_task_goes_on_once_its_write_was_performed(rt: HostRuntime) -> Result<(), Fail> {
    let alloc = rt.alloc();
    let program = writing_far(alloc)?;
    let (step, other) = (Choice::Step(0, 0), Choice::Step(1, 0));
    assert_eq!(rt; refused(alloc, &program, &[step, step])?, Some(1));
    let choices = [
        step,
        other,
        first_of(1),
        first_of(0),
        step,
        other,
        Choice::Leave(0),
        Choice::Leave(1),
    ];
    expect_both(&rt, alloc, &program, &choices, [&["0"], &["5"]])?;
    Ok(())
}

#[test]
fn no_image_leaves_while_a_ship_is_pending_or_its_task_is_live(
    rt: HostRuntime,
) -> Result<(), Fail> {
    let alloc = rt.alloc();
    let program = shipping(alloc)?;
    let (step, other) = (Choice::Step(0, 0), Choice::Step(1, 0));
    let leave = Choice::Leave(0);
    assert_eq!(rt; refused(alloc, &program, &[step, leave])?, Some(1));
    assert_eq!(rt; refused(alloc, &program, &[step, other, leave])?, Some(2));
    assert_eq!(rt;
        refused(
            alloc,
            &program,
            &[step, other, first_of(0), first_of(1), leave]
        )?,
        Some(4)
    );
    let choices = [
        step,
        other,
        first_of(0),
        first_of(1),
        Choice::Step(1, 1),
        Choice::Step(1, 2),
        Choice::Step(1, 1),
        Choice::Step(1, 2),
        leave,
        Choice::Leave(1),
    ];
    expect_both(&rt, alloc, &program, &choices, [&[], &["7", "7"]])?;
    Ok(())
}

#[test]
fn a_split_is_passed_once_all_have_arrived(rt: HostRuntime) -> Result<(), Fail> {
    let alloc = rt.alloc();
    let program = splitting(alloc)?;
    let (step, other) = (Choice::Step(0, 0), Choice::Step(1, 0));
    let part = Choice::Part(0);
    assert_eq!(rt; refused(alloc, &program, &[step, part])?, Some(1));
    let choices = [
        step,
        other,
        part,
        Choice::Part(1),
        step,
        other,
        Choice::Leave(0),
        Choice::Leave(1),
    ];
    expect_both(&rt, alloc, &program, &choices, [&["1"], &["0"]])?;
    Ok(())
}
