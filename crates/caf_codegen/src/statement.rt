ghost use Rattle.std.specs.Prelude.{◌≡◌, ◌+◌, ◌<◌, ◌++◌, [], ◌∷◌, length, IfOk, OnOk};
ghost use Rattle.caf_codegen.specs.StmtCode.{block as block_code, bounds_code, codes, do_code, finish_code, guarded, last_code, load_of, sizes, stmt_code, store_of, texts_in, turn_code};

use crate::ask::ask_statement;
use crate::assign::gen_assign;
use crate::call::gen_call;
use crate::copy::gen_copy;
use crate::emit::{gen_value, place, put};
use crate::event::{gen_notify, gen_wait};
use crate::print::gen_print;
use crate::section::gen_aim;
use crate::ship::gen_ship;
use crate::split::gen_split;
use caf_base::{Memory, Sequence, Text};
use caf_code::{Arithmetic, CellUse, Instr, Reach, TeamName};
use caf_exprgen::named;
use caf_program::{ExprR, LoopVariableR, StmtR};
use std::alloc::Global;

/// The code of statements one after another.
#[cycle(statements)]
pub(crate) fn gen_block(
    alloc: Global,
    block: &[StmtR],
    code: &mut Vec<Instr>,
    texts: &mut Sequence<Text>,
) -> Result<(), Memory>
    ensures code { OnOk result (code.new.items ≡ code.old.items ++ block_code (codes block.now) (length code.old.items) (length texts.old)) }
    ensures texts { OnOk result (texts.new ≡ texts.old ++ texts_in (codes block.now)) }
{
    for statement in block {
        gen_statement(alloc, statement, code, texts)?;
    }
    Ok(())
}

/// The reads of a statement, each a step of its own, and then its last step with the blocks that follow it.
#[cycle(statements)]
fn gen_statement(
    alloc: Global,
    statement: &StmtR,
    code: &mut Vec<Instr>,
    texts: &mut Sequence<Text>,
) -> Result<(), Memory>
    ensures code { OnOk result (code.new.items ≡ code.old.items ++ (stmt_code statement.now).code (length code.old.items) (length texts.old)) }
    ensures texts { OnOk result (texts.new ≡ texts.old ++ (stmt_code statement.now).texts) }
{
    let start = place(code.len())?;
    ask_statement(statement, code)?;
    gen_last(alloc, statement, start, code, texts)
}

/// The last step of a statement that begins at the address `start`.
#[cycle(statements)]
fn gen_last(
    alloc: Global,
    statement: &StmtR,
    start: u32,
    code: &mut Vec<Instr>,
    texts: &mut Sequence<Text>,
) -> Result<(), Memory>
    ensures code { OnOk result (code.new.items ≡ code.old.items ++ (last_code start statement.now).code (length code.old.items) (length texts.old)) }
    ensures texts { OnOk result (texts.new ≡ texts.old ++ (last_code start statement.now).texts) }
{
    match statement {
        StmtR::Assign { target, value, .. } => gen_assign(target, value, code),
        StmtR::Print { parts, .. } => gen_print(alloc, parts.as_slice(), code, texts),
        StmtR::If {
            condition,
            block,
            otherwise,
            ..
        } => {
            gen_value(condition, 0, code)?;
            let go = gen_guarded(alloc, block.as_slice(), 0, code, texts)?;
            gen_block(alloc, otherwise.as_slice(), code, texts)?;
            let end = place(code.len())?;
            code[go] = Instr::Go(end);
            Ok(())
        }
        StmtR::Do {
            variable,
            first,
            last,
            step,
            body,
            ..
        } => {
            gen_bounds(first, last, step, code)?;
            gen_loop(alloc, *variable, body.as_slice(), code, texts)
        }
        StmtR::While {
            condition,
            body,
            ..
        } => {
            gen_value(condition, 0, code)?;
            gen_guarded(alloc, body.as_slice(), start, code, texts)?;
            Ok(())
        }
        StmtR::Call { sub, actuals, .. } => gen_call(*sub, actuals.as_slice(), code),
        StmtR::Aim {
            copointer,
            region,
            ..
        } => gen_aim(*copointer, region, code),
        StmtR::Spawn {
            done,
            sub,
            actuals,
            place,
            ..
        } => gen_ship(done, *sub, actuals.as_slice(), place, code),
        StmtR::Copy {
            dest,
            source,
            events,
            ..
        } => gen_copy(dest, source, events.as_slice(), code),
        StmtR::Notify { event, .. } => gen_notify(event, code),
        StmtR::Wait { event, .. } => gen_wait(event, code),
        StmtR::Cofence { down, .. } => put(code, Instr::Cofence(*down)),
        StmtR::Split {
            team,
            colour,
            key,
            new,
            ..
        } => gen_split(*team, colour, key, *new, code),
        StmtR::Finish { team, body, .. } => {
            gen_finish(alloc, named(*team), body.as_slice(), code, texts)
        }
    }
}

/// A finish: its beginning, its body, and its end.
#[cycle(statements)]
fn gen_finish(
    alloc: Global,
    name: TeamName,
    body: &[StmtR],
    code: &mut Vec<Instr>,
    texts: &mut Sequence<Text>,
) -> Result<(), Memory>
    ensures code { OnOk result (code.new.items ≡ code.old.items ++ (finish_code name (codes body.now)).code (length code.old.items) (length texts.old)) }
    ensures texts { OnOk result (texts.new ≡ texts.old ++ texts_in (codes body.now)) }
{
    put(code, Instr::Finish(name))?;
    gen_block(alloc, body, code, texts)?;
    put(code, Instr::Close)
}

/// A block behind a test of the number on the stack, which leads past it where it fails, and behind the block a jump to an
/// address. The place of the jump is the result.
#[cycle(statements)]
fn gen_guarded(
    alloc: Global,
    block: &[StmtR],
    next: u32,
    code: &mut Vec<Instr>,
    texts: &mut Sequence<Text>,
) -> Result<usize, Memory>
    ensures code { OnOk result (code.new.items ≡ code.old.items ++ guarded (codes block.now) next (length code.old.items) (length texts.old)) }
    ensures texts { OnOk result (texts.new ≡ texts.old ++ texts_in (codes block.now)) }
    ensures go { IfOk result (λ go. go ≡ length code.old.items + 1 + sizes (codes block.now)) }
    ensures inside { IfOk result (λ go. go < length code.new.items) }
{
    let test = code.len();
    put(code, Instr::Test(0))?;
    gen_block(alloc, block, code, texts)?;
    let go = code.len();
    put(code, Instr::Go(next))?;
    let out = place(code.len())?;
    code[test] = Instr::Test(out);
    Ok(go)
}

/// A loop whose three numbers stand on the stack: its beginning leads out where there is no iteration, and its end back to
/// the body.
#[cycle(statements)]
fn gen_loop(
    alloc: Global,
    variable: LoopVariableR,
    body: &[StmtR],
    code: &mut Vec<Instr>,
    texts: &mut Sequence<Text>,
) -> Result<(), Memory>
    ensures code { OnOk result (code.new.items ≡ code.old.items ++ (do_code variable [] (codes body.now)).code (length code.old.items) (length texts.old)) }
    ensures texts { OnOk result (texts.new ≡ texts.old ++ texts_in (codes body.now)) }
{
    put(code, Instr::Loop)?;
    put(code, store(variable))?;
    let enter = code.len();
    put(code, Instr::Enter(0))?;
    let top = place(code.len())?;
    gen_block(alloc, body, code, texts)?;
    gen_turn(variable, top, code)?;
    let out = place(code.len())?;
    code[enter] = Instr::Enter(out);
    Ok(())
}

/// The first number of a loop, its last one and its step.
fn gen_bounds(
    first: &ExprR,
    last: &ExprR,
    step: &ExprR,
    code: &mut Vec<Instr>,
) -> Result<(), Memory>
    ensures { OnOk result (code.new.items ≡ code.old.items ++ bounds_code first.now last.now step.now) }
{
    let held = gen_value(first, 0, code)?;
    let held = gen_value(last, held, code)?;
    gen_value(step, held, code)?;
    Ok(())
}

/// The end of an iteration, where the body begins at an address.
fn gen_turn(variable: LoopVariableR, top: u32, code: &mut Vec<Instr>) -> Result<(), Memory>
    ensures { OnOk result (code.new.items ≡ code.old.items ++ turn_code variable top) }
{
    put(code, load(variable))?;
    put(code, Instr::StepBy)?;
    put(code, Instr::Arithmetic(Arithmetic::Add))?;
    put(code, store(variable))?;
    put(code, Instr::Again(top))
}

fn load(variable: LoopVariableR) -> Instr
    ensures { result ≡ load_of variable }
{
    match variable {
        LoopVariableR::Scalar(object) => Instr::Load(Reach::Scalar, object),
        LoopVariableR::Local(cell) => Instr::Cell(CellUse::Get, cell),
    }
}

fn store(variable: LoopVariableR) -> Instr
    ensures { result ≡ store_of variable }
{
    match variable {
        LoopVariableR::Scalar(object) => Instr::Store(Reach::Scalar, object),
        LoopVariableR::Local(cell) => Instr::Cell(CellUse::Set, cell),
    }
}
