ghost use Rattle.std.specs.Prelude.{◌≡◌, ◌∷◌, [], IfOk, length};
ghost use Rattle.caf_program.specs.declared.expr.ExprR.TheVariants as expr;
ghost use Rattle.caf_program.specs.declared.parts.PrintR.TheVariants as part;
ghost use Rattle.caf_program.specs.declared.stmt.LoopVariableR.TheVariants as counter;
ghost use Rattle.caf_program.specs.declared.stmt.StmtR.TheVariants as stmt;

use caf_base::{
    BinaryOperator, Ending, Four, Kind, Memory, Object, Sequence, Text, Trap, UnaryOperator,
};
use caf_codegen::compile;
use caf_journal::Entry;
use caf_program::{
    Accepted, ActualR, DummyR, ExprR, Intent, LoopVariableR, PrintR, Program, StmtR, SubR,
    ValueKind,
};
use caf_solo::{Run, run_alone};
use caf_source::is_built;
use sqlite_items::{Boxed, Items};
use std::alloc::{AllocError, Global};
use std::process::Abort;
use std::test::Fail;

/// Compiles a program and runs it up to so many entries.
fn run<R: Abort>(rt: &R, alloc: Global, a: &Accepted, most: u32) -> Result<Run, Memory> {
    assert!(rt; is_built(a));
    let code = compile(alloc, a)?;
    run_alone(alloc, a, &code, most)
}

fn expect<R: Abort>(rt: &R, run: &Run, lines: &[&str], trap: Option<Trap>, ending: Ending) {
    let image = run.summary.images.get(0).expect(rt, "there is one image");
    let printed = image.lines.as_slice();
    assert_eq!(rt; printed.len(), lines.len());
    for (line, wanted) in printed.iter().zip(lines) {
        assert_eq!(rt; line.as_str(), *wanted);
    }
    assert_eq!(rt; image.trap, trap);
    assert_eq!(rt; run.summary.ending, ending);
}

fn chain(
    alloc: Global,
    first: i64,
    operator: BinaryOperator,
    second: i64,
) -> Result<ExprR, AllocError>
    ensures { IfOk result (λ e. e ≡ expr.Chain (expr.Number first) ((operator, expr.Number second) ∷ [])) }
{
    let mut rest = Items::new(alloc);
    rest.push((operator, ExprR::Number(second)))?;
    Ok(ExprR::Chain(Boxed::new(alloc, ExprR::Number(first))?, rest))
}

/// `print *, -7/2, mod(-7, 2), -2*3`
fn printed_numbers(alloc: Global) -> Result<Accepted, Memory> {
    let half = chain(alloc, 7, BinaryOperator::Divide, 2)?;
    let product = chain(alloc, 2, BinaryOperator::Multiply, 3)?;
    let mut parts = Items::new(alloc);
    parts.push(PrintR::Number(ExprR::Unary(UnaryOperator::Negate, Boxed::new(alloc, half)?)))?;
    parts.push(PrintR::Number(chain(alloc, -7, BinaryOperator::Modulo, 2)?))?;
    parts.push(PrintR::Number(ExprR::Unary(UnaryOperator::Negate, Boxed::new(alloc, product)?)))?;
    let mut body = Items::new(alloc);
    body.push(StmtR::Print { line: 2, parts })?;
    Ok(Accepted::of(Program {
        objects: Sequence::new(alloc),
        names: Sequence::new(alloc),
        subs: Sequence::new(alloc),
        body,
    }))
}

#[test]
fn a_compiled_line_runs_through_one_wave(rt: HostRuntime) -> Result<(), Fail> {
    let alloc = rt.alloc();
    let program = printed_numbers(alloc)?;
    let done = run(&rt, alloc, &program, 4)?;
    expect(&rt, &done, &["-3 -1 -6"], None, Ending::Done);
    let none = Four {
        sent: 0,
        delivered: 0,
        received: 0,
        completed: 0,
    };
    let journal = [
        Entry::Step(0, 0),
        Entry::Contribute(0, none),
        Entry::Result(0, 0),
        Entry::Leave(0),
    ];
    assert_eq!(rt; done.journal.as_slice(), journal.as_slice());
    let spent = run(&rt, alloc, &program, 3)?;
    expect(&rt, &spent, &["-3 -1 -6"], None, Ending::Going);
    assert_eq!(rt; spent.journal.len(), 3);
    Ok(())
}

/// The variable `i`.
const INTEGER: Object = Object {
    kind: Kind::Integer,
    lower: 1,
    extent: 1,
    shared: false,
};

fn names(alloc: Global) -> Result<Sequence<Text>, Memory>
    ensures { IfOk result (λ names. length names ≡ 1) }
{
    let mut names = Sequence::new(alloc);
    names.push(Text::copy_of(alloc, "i")?)?;
    Ok(names)
}

fn print_variable(alloc: Global, line: u32) -> Result<StmtR, Memory>
    ensures { IfOk result (λ s. s ≡ stmt.Print line (part.Number (expr.Scalar 0) ∷ [])) }
{
    let mut parts = Items::new(alloc);
    parts.push(PrintR::Number(ExprR::Scalar(0)))?;
    Ok(StmtR::Print { line, parts })
}

/// `do i = first, last, step`, with this body.
fn loop_over(line: u32, first: i64, last: i64, step: i64, body: Items<StmtR>) -> StmtR
    ensures { result ≡ stmt.Do line (counter.Scalar 0) (expr.Number first) (expr.Number last) (expr.Number step) body }
{
    StmtR::Do {
        line,
        variable: LoopVariableR::Scalar(0),
        first: ExprR::Number(first),
        last: ExprR::Number(last),
        step: ExprR::Number(step),
        body,
    }
}

/// A loop without turns that would print, `i`, a loop of three turns, and `i` again.
fn two_loops(alloc: Global) -> Result<Accepted, Memory> {
    let mut parts = Items::new(alloc);
    parts.push(PrintR::Text(Text::copy_of(alloc, "never")?))?;
    let mut never = Items::new(alloc);
    never.push(StmtR::Print { line: 4, parts })?;
    let mut body = Items::new(alloc);
    body.push(loop_over(3, 5, 1, 1, never))?;
    body.push(print_variable(alloc, 6)?)?;
    body.push(loop_over(7, 1, 5, 2, Items::new(alloc)))?;
    body.push(print_variable(alloc, 9)?)?;
    Ok(Accepted::of(Program {
        objects: Sequence::from_slice(alloc, &[INTEGER])?,
        names: names(alloc)?,
        subs: Sequence::new(alloc),
        body,
    }))
}

/// `do i = first, last, step`, with a body that prints `i`.
fn counting(alloc: Global, first: i64, last: i64, step: i64) -> Result<Accepted, Memory> {
    let mut block = Items::new(alloc);
    block.push(print_variable(alloc, 4)?)?;
    let mut body = Items::new(alloc);
    body.push(loop_over(3, first, last, step, block))?;
    body.push(print_variable(alloc, 6)?)?;
    Ok(Accepted::of(Program {
        objects: Sequence::from_slice(alloc, &[INTEGER])?,
        names: names(alloc)?,
        subs: Sequence::new(alloc),
        body,
    }))
}

#[test]
fn compiled_loops_run_to_their_lines_and_traps(rt: HostRuntime) -> Result<(), Fail> {
    let alloc = rt.alloc();
    let done = run(&rt, alloc, &two_loops(alloc)?, 100)?;
    expect(&rt, &done, &["5", "7"], None, Ending::Done);
    let trapped = run(&rt, alloc, &counting(alloc, 1, 5, 0)?, 100)?;
    expect(&rt, &trapped, &[], Some(Trap::Step), Ending::Trapped);
    assert_eq!(rt; trapped.journal.as_slice(), [Entry::Step(0, 0)].as_slice());
    let greatest = i64::MAX;
    let trapped = run(
        &rt,
        alloc,
        &counting(alloc, greatest - 1, greatest, 1)?,
        100,
    )?;
    let lines = &["9223372036854775806", "9223372036854775807"];
    expect(&rt, &trapped, lines, Some(Trap::Number), Ending::Trapped);
    Ok(())
}

/// A subroutine `f(n)` that prints `n` and calls `f(n + 1)`, called with 1.
fn calling_itself(alloc: Global) -> Result<Accepted, Memory> {
    let mut parts = Items::new(alloc);
    parts.push(PrintR::Number(ExprR::Local(0)))?;
    let mut rest = Items::new(alloc);
    rest.push((BinaryOperator::Add, ExprR::Number(1)))?;
    let mut deeper = Items::new(alloc);
    deeper.push(ActualR::Value(ExprR::Chain(Boxed::new(alloc, ExprR::Local(0))?, rest)))?;
    let mut printing = Items::new(alloc);
    printing.push(StmtR::Print { line: 6, parts })?;
    printing.push(StmtR::Call {
        line: 7,
        sub: 0,
        actuals: deeper,
    })?;
    let mut dummies = Sequence::new(alloc);
    dummies.push(DummyR {
        name: Text::copy_of(alloc, "n")?,
        kind: ValueKind::Integer,
        intent: Intent::In,
    })?;
    let mut subs = Sequence::new(alloc);
    subs.push(SubR {
        name: Text::copy_of(alloc, "f")?,
        dummies,
        locals: Sequence::new(alloc),
        body: printing,
    })?;
    let mut actuals = Items::new(alloc);
    actuals.push(ActualR::Value(ExprR::Number(1)))?;
    let mut body = Items::new(alloc);
    body.push(StmtR::Call {
        line: 2,
        sub: 0,
        actuals,
    })?;
    Ok(Accepted::of(Program {
        objects: Sequence::new(alloc),
        names: Sequence::new(alloc),
        subs,
        body,
    }))
}

#[test]
fn the_two_hundred_and_first_compiled_call_traps(rt: HostRuntime) -> Result<(), Fail> {
    let alloc = rt.alloc();
    let trapped = run(&rt, alloc, &calling_itself(alloc)?, 1000)?;
    let image = trapped
        .summary
        .images
        .get(0)
        .expect(&rt, "there is one image");
    let lines = image.lines.as_slice();
    assert_eq!(rt; lines.len(), 200);
    assert_eq!(rt; lines[0].as_str(), "1");
    assert_eq!(rt; lines[199].as_str(), "200");
    assert_eq!(rt; image.trap, Some(Trap::Depth));
    assert_eq!(rt; trapped.summary.ending, Ending::Trapped);
    Ok(())
}
