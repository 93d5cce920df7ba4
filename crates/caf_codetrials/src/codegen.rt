ghost use Rattle.std.specs.Prelude.{◌≡◌, ◌∷◌, [], IfOk, codes, length, pos};
ghost use Rattle.caf_base.specs.declared.arithmetic.BinaryOperator.TheVariants as word;
ghost use Rattle.caf_program.specs.declared.expr.ExprR.TheVariants as expr;
ghost use Rattle.caf_program.specs.declared.parts.PrintR.TheVariants as part;
ghost use Rattle.caf_program.specs.declared.stmt.LoopVariableR.TheVariants as counter;
ghost use Rattle.caf_program.specs.declared.stmt.StmtR.TheVariants as stmt;

use caf_base::{BinaryOperator, Kind, Memory, Object, Sequence, Text};
use caf_code::print_listing;
use caf_codegen::compile;
use caf_program::{
    Accepted, ActualR, DummyR, ExprR, Intent, LoopVariableR, PrintR, Program, StmtR, SubR,
    ValueKind, VariableR,
};
use sqlite_items::{Boxed, Items};
use std::alloc::{AllocError, Global};
use std::process::Abort;
use std::test::Fail;

/// Expects this listing of a program's code.
fn expect<R: Abort>(rt: &R, alloc: Global, a: &Accepted, wanted: &[u8]) -> Result<(), Memory> {
    let code = compile(alloc, a)?;
    assert_eq!(rt; print_listing(alloc, &code)?.as_slice(), wanted);
    Ok(())
}

/// The variable `i`.
const INTEGER: Object = Object {
    kind: Kind::Integer,
    lower: 1,
    extent: 1,
    shared: false,
};

fn names(alloc: Global) -> Result<Sequence<Text>, Memory>
    ensures { IfOk result (λ names. length names ≡ 1) }
{
    let mut names = Sequence::new(alloc);
    names.push(Text::copy_of(alloc, "i")?)?;
    Ok(names)
}

fn print_variable(alloc: Global, line: u32) -> Result<StmtR, Memory>
    ensures { IfOk result (λ s. s ≡ stmt.Print line (part.Number (expr.Scalar 0) ∷ [])) }
{
    let mut parts = Items::new(alloc);
    parts.push(PrintR::Number(ExprR::Scalar(0)))?;
    Ok(StmtR::Print { line, parts })
}

/// `do i = first, last, step`, with this body.
fn loop_over(line: u32, first: i64, last: i64, step: i64, body: Items<StmtR>) -> StmtR
    ensures { result ≡ stmt.Do line (counter.Scalar 0) (expr.Number first) (expr.Number last) (expr.Number step) body }
{
    StmtR::Do {
        line,
        variable: LoopVariableR::Scalar(0),
        first: ExprR::Number(first),
        last: ExprR::Number(last),
        step: ExprR::Number(step),
        body,
    }
}

/// A loop without turns that would print, `i`, a loop of three turns, and `i` again.
fn two_loops(alloc: Global) -> Result<Accepted, Memory> {
    let mut parts = Items::new(alloc);
    parts.push(PrintR::Text(Text::copy_of(alloc, "never")?))?;
    let mut never = Items::new(alloc);
    never.push(StmtR::Print { line: 4, parts })?;
    let mut body = Items::new(alloc);
    body.push(loop_over(3, 5, 1, 1, never))?;
    body.push(print_variable(alloc, 6)?)?;
    body.push(loop_over(7, 1, 5, 2, Items::new(alloc)))?;
    body.push(print_variable(alloc, 9)?)?;
    Ok(Accepted::of(Program {
        objects: Sequence::from_slice(alloc, &[INTEGER])?,
        names: names(alloc)?,
        subs: Sequence::new(alloc),
        body,
    }))
}

#[test]
fn loops_lead_back_to_their_bodies_and_out(rt: HostRuntime) -> Result<(), Fail> {
    let alloc = rt.alloc();
    // Worked by hand after the table of instructions.
    let wanted = b"caf code 3\nobject 0 integer 1 1 own\ntext 0 'never'\n\
        0: push 5\n1: push 1\n2: push 1\n3: loop\n4: store 0\n5: enter 13\n6: printt 0\n7: line\n\
        8: load 0\n9: stepby\n10: add\n11: store 0\n12: again 6\n13: load 0\n14: printn\n15: line\n\
        16: push 1\n17: push 5\n18: push 2\n19: loop\n20: store 0\n21: enter 27\n\
        22: load 0\n23: stepby\n24: add\n25: store 0\n26: again 22\n27: load 0\n28: printn\n29: line\n\
        30: close\n31: halt\n";
    expect(&rt, alloc, &two_loops(alloc)?, wanted.as_slice())?;
    Ok(())
}

/// `i` and a number under an operator.
fn variable_and(alloc: Global, operator: BinaryOperator, number: i64) -> Result<ExprR, AllocError>
    ensures { IfOk result (λ e. e ≡ expr.Chain (expr.Scalar 0) ((operator, expr.Number number) ∷ [])) }
{
    let mut rest = Items::new(alloc);
    rest.push((operator, ExprR::Number(number)))?;
    Ok(ExprR::Chain(Boxed::new(alloc, ExprR::Scalar(0))?, rest))
}

/// `if (i == 2) print 'two' else print i > 1`
fn choice(alloc: Global) -> Result<StmtR, Memory>
    ensures { IfOk result (λ s. s ≡ stmt.If 5 (expr.Chain (expr.Scalar 0) ((word.Equal, expr.Number (pos 2)) ∷ [])) (stmt.Print 6 (part.Text (codes "two") ∷ []) ∷ []) (stmt.Print 8 (part.Logical (expr.Chain (expr.Scalar 0) ((word.Greater, expr.Number (pos 1)) ∷ [])) ∷ []) ∷ [])) }
{
    let mut parts = Items::new(alloc);
    parts.push(PrintR::Text(Text::copy_of(alloc, "two")?))?;
    let mut block = Items::new(alloc);
    block.push(StmtR::Print { line: 6, parts })?;
    let mut parts = Items::new(alloc);
    parts.push(PrintR::Logical(variable_and(alloc, BinaryOperator::Greater, 1)?))?;
    let mut otherwise = Items::new(alloc);
    otherwise.push(StmtR::Print { line: 8, parts })?;
    Ok(StmtR::If {
        line: 5,
        condition: variable_and(alloc, BinaryOperator::Equal, 2)?,
        block,
        otherwise,
    })
}

/// `i = 3`, and while it is positive the choice and `i = i - 1`.
fn counting_down(alloc: Global) -> Result<Accepted, Memory> {
    let mut turn = Items::new(alloc);
    turn.push(choice(alloc)?)?;
    turn.push(StmtR::Assign {
        line: 10,
        target: VariableR::Scalar(0),
        value: variable_and(alloc, BinaryOperator::Subtract, 1)?,
    })?;
    let mut body = Items::new(alloc);
    body.push(StmtR::Assign {
        line: 3,
        target: VariableR::Scalar(0),
        value: ExprR::Number(3),
    })?;
    body.push(StmtR::While {
        line: 4,
        condition: variable_and(alloc, BinaryOperator::Greater, 0)?,
        body: turn,
    })?;
    Ok(Accepted::of(Program {
        objects: Sequence::from_slice(alloc, &[INTEGER])?,
        names: names(alloc)?,
        subs: Sequence::new(alloc),
        body,
    }))
}

#[test]
fn a_choice_leads_to_one_block_and_a_while_back_to_its_test(rt: HostRuntime) -> Result<(), Fail> {
    let alloc = rt.alloc();
    // Worked by hand after the table of instructions.
    let wanted = b"caf code 3\nobject 0 integer 1 1 own\ntext 0 'two'\n\
        0: push 3\n1: store 0\n2: next\n3: load 0\n4: push 0\n5: gt\n6: test 25\n\
        7: load 0\n8: push 2\n9: eq\n10: test 14\n11: printt 0\n12: line\n13: go 19\n\
        14: load 0\n15: push 1\n16: gt\n17: printl\n18: line\n\
        19: load 0\n20: push 1\n21: sub\n22: store 0\n23: next\n24: go 3\n25: close\n26: halt\n";
    expect(&rt, alloc, &counting_down(alloc)?, wanted.as_slice())?;
    Ok(())
}

/// A subroutine `f(n)` with a local `k`: `k = n`, `a(n) = k`.
fn with_subroutine(alloc: Global) -> Result<Accepted, Memory> {
    let array = Object {
        kind: Kind::Integer,
        lower: 0,
        extent: 4,
        shared: false,
    };
    let mut block = Items::new(alloc);
    block.push(StmtR::Assign {
        line: 6,
        target: VariableR::Local(1),
        value: ExprR::Local(0),
    })?;
    block.push(StmtR::Assign {
        line: 7,
        target: VariableR::Element(0, ExprR::Local(0)),
        value: ExprR::Local(1),
    })?;
    let mut dummies = Sequence::new(alloc);
    dummies.push(DummyR {
        name: Text::copy_of(alloc, "n")?,
        kind: ValueKind::Integer,
        intent: Intent::InOut,
    })?;
    let mut subs = Sequence::new(alloc);
    subs.push(SubR {
        name: Text::copy_of(alloc, "f")?,
        dummies,
        locals: Sequence::from_slice(alloc, &[ValueKind::Integer])?,
        body: block,
    })?;
    Ok(Accepted::of(Program {
        objects: Sequence::from_slice(alloc, &[array])?,
        names: names(alloc)?,
        subs,
        body: Items::new(alloc),
    }))
}

#[test]
fn a_subroutine_stands_behind_the_end_of_the_program(rt: HostRuntime) -> Result<(), Fail> {
    let alloc = rt.alloc();
    // Worked by hand after the table of instructions.
    let wanted = b"caf code 3\nobject 0 integer 0 4 own\nsub 0 2 o 1\n\
        0: close\n1: halt\n2: local 0\n3: setlocal 1\n4: next\n\
        5: local 0\n6: local 1\n7: storex 0\n8: next\n9: ret\n";
    expect(&rt, alloc, &with_subroutine(alloc)?, wanted.as_slice())?;
    Ok(())
}

/// A call `f(a(2))` of a subroutine with an `intent(inout)` dummy that does nothing.
fn copying_out(alloc: Global) -> Result<Accepted, Memory> {
    let array = Object {
        kind: Kind::Integer,
        lower: 0,
        extent: 4,
        shared: false,
    };
    let mut dummies = Sequence::new(alloc);
    dummies.push(DummyR {
        name: Text::copy_of(alloc, "n")?,
        kind: ValueKind::Integer,
        intent: Intent::InOut,
    })?;
    let mut subs = Sequence::new(alloc);
    subs.push(SubR {
        name: Text::copy_of(alloc, "f")?,
        dummies,
        locals: Sequence::new(alloc),
        body: Items::new(alloc),
    })?;
    let mut actuals = Items::new(alloc);
    actuals.push(ActualR::Element(0, ExprR::Number(2)))?;
    let mut body = Items::new(alloc);
    body.push(StmtR::Call {
        line: 2,
        sub: 0,
        actuals,
    })?;
    Ok(Accepted::of(Program {
        objects: Sequence::from_slice(alloc, &[array])?,
        names: names(alloc)?,
        subs,
        body,
    }))
}

#[test]
fn a_call_fixes_the_places_of_its_dummies(rt: HostRuntime) -> Result<(), Fail> {
    let alloc = rt.alloc();
    // Worked by hand after the table of instructions.
    let wanted = b"caf code 3\nobject 0 integer 0 4 own\nsub 0 7 o 0\n\
        0: push 2\n1: loadx 0\n2: push 2\n3: outx 0\n4: call 0\n5: close\n6: halt\n7: ret\n";
    expect(&rt, alloc, &copying_out(alloc)?, wanted.as_slice())?;
    Ok(())
}
