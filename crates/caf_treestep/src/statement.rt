ghost use Rattle.std.specs.Prelude.{◌≡◌, ◌+◌, ◌≤◌, ◌++◌, [], ◌∷◌, Ok, Err, IfOk, IsTrue, MatchResult, OnErr, OnOk, if◌then◌else◌, length, sum_by};
ghost use Rattle.std.specs.List.{flat_map};
ghost use Rattle.caf_base.specs.Arithmetic.{is_zero};
ghost use Rattle.caf_program.specs.declared.stmt.StmtR.TheOpen.{StmtR-F};
ghost use Rattle.caf_program.specs.declared.stmt.StmtR.TheViews.{roll-StmtR};
ghost use Rattle.caf_program.specs.Expressions.{count_all, of_part, of_variable};
ghost use Rattle.caf_program.specs.Value.{count, value_at};
ghost use Rattle.caf_program.specs.View.{seen};
ghost use Rattle.caf_treestep.specs.declared.todo.Todo.TheVariants as item;
ghost use Rattle.caf_treestep.specs.Evaluated.{held_by_part, seen_in};
ghost use Rattle.caf_treestep.specs.Finds.{IsFault};
ghost use Rattle.caf_treestep.specs.Step.{assigned, assignment_of, is_own, loop_begun, printed, standing, turn_taken, turned};
ghost use Rattle.caf_treestep.specs.Stood.{IsLastStep, Leaves, PutBack};
ghost use Rattle.caf_treestep.specs.Task.{all_of};
ghost use Rattle.caf_treestep.specs.Variables.{both};

use crate::evaluated::{line, view};
use crate::loops::{bounds, push_block, push_turns};
use crate::variables::{counted, counter, store, target};
use crate::{Bounds, Fault, Target, Task, Todo};
use caf_base::{BinaryOperator, Effect, Memory, Sequence, Stack, Trap};
use caf_memory::ImageMemory;
use caf_program::{
    ExprR, LoopVariableR, PrintR, StmtR, VariableR, View, copy_block, eval, eval_from,
};
use sqlite_items::Items;
use std::alloc::Global;

/// Puts back what was to do, which traps.
pub(crate) fn put_back(task: &mut Task, next: Todo, trap: Trap) -> Result<Effect, Memory>
    ensures { IfOk result (λ e. PutBack e trap next task.old task.new) }
{
    task.frame.todo.push(next)?;
    Ok(Effect::Traps(trap))
}

/// The value of the one expression of a statement.
fn evaluate(e: &ExprR, task: &Task, memory: &ImageMemory) -> Result<i64, Trap>
    requires { count e.now ≤ length task.now.held }
    ensures { result ≡ value_at e.now 0 (seen_in memory.now task.now.frame.locals task.now.held) }
{
    eval(
        e,
        &view(memory, task.frame.locals.as_slice(), task.held.as_slice()),
    )
}

/// What an assignment puts where.
fn assignment(
    variable: &VariableR,
    value: &ExprR,
    view: &View,
    at: &mut usize,
) -> Result<(Target, i64), Trap>
    requires own { IsTrue (is_own variable.now) }
    requires held { at.old + count_all (of_variable variable.now) + count value.now ≤ length view.now.held.now }
    ensures { result ≡ assignment_of variable.now value.now at.old (seen view.now) }
{
    let target = target(variable, view, at)?;
    let value = eval_from(value, view, at)?;
    Ok((target, value))
}

/// An assignment to a variable of the image or a cell of the frame. On a trap nothing changes.
fn assign(
    variable: &VariableR,
    value: &ExprR,
    locals: &mut Sequence<i64>,
    held: &[i64],
    memory: &mut ImageMemory,
) -> Result<(), Trap>
    requires own { IsTrue (is_own variable.now) }
    requires held { count_all (of_variable variable.now) + count value.now ≤ length held.now }
    ensures value { MatchResult result (λ _. assigned variable.now value.now (seen_in memory.old locals.old held.now) (both locals.old memory.old) ≡ Ok (both locals.new memory.new)) (λ trap. assigned variable.now value.now (seen_in memory.old locals.old held.now) (both locals.old memory.old) ≡ Err trap) }
    ensures locals { OnErr result (locals.new ≡ locals.old) }
    ensures memory { OnErr result (memory.new ≡ memory.old) }
{
    let mut at = 0;
    let (target, value) = assignment(
        variable,
        value,
        &view(memory, locals.as_slice(), held),
        &mut at,
    )?;
    store(target, value, locals, memory)
}

/// The last Step of an assignment.
pub(crate) fn step_assign(
    alloc: Global,
    task: &mut Task,
    memory: &mut ImageMemory,
    line: u32,
    target: VariableR,
    value: ExprR,
) -> Result<Effect, Memory>
    requires own { IsTrue (is_own target) }
    requires held { count_all (of_variable target ++ value ∷ []) ≤ length task.old.held }
    ensures { IsLastStep (StmtR-F.Assign line target value) task.old memory.old result task.new memory.new }
{
    match assign(
        &target,
        &value,
        &mut task.frame.locals,
        task.held.as_slice(),
        memory,
    ) {
        Ok(()) => {
            task.held = Sequence::new(alloc);
            Ok(Effect::Ran)
        }
        Err(trap) => {
            let statement = StmtR::Assign {
                line,
                target,
                value,
            };
            put_back(task, Todo::Does(statement), trap)
        }
    }
}

/// Adds a line to the image's output. On a fault nothing changes.
fn print(
    alloc: Global,
    parts: &[PrintR],
    locals: &[i64],
    held: &[i64],
    memory: &mut ImageMemory,
) -> Result<(), Fault>
    requires { sum_by held_by_part parts.now ≤ length held.now }
    ensures value { MatchResult result (λ _. printed parts.now (seen_in memory.old locals.now held.now) memory.old ≡ Ok memory.new) (IsFault (printed parts.now (seen_in memory.old locals.now held.now) memory.old)) }
    ensures memory { OnErr result (memory.new ≡ memory.old) }
{
    let text = line(alloc, parts, &view(memory, locals, held))?;
    memory.add_line(text)?;
    Ok(())
}

/// The last Step of a `print`.
#[tactic(auto, using(crate::proofs::Found::held_by_parts))]
pub(crate) fn step_print(
    alloc: Global,
    task: &mut Task,
    memory: &mut ImageMemory,
    line: u32,
    parts: Items<PrintR>,
) -> Result<Effect, Memory>
    requires { count_all (flat_map of_part parts) ≤ length task.old.held }
    ensures { IsLastStep (StmtR-F.Print line parts) task.old memory.old result task.new memory.new }
{
    match print(
        alloc,
        parts.as_slice(),
        task.frame.locals.as_slice(),
        task.held.as_slice(),
        memory,
    ) {
        Ok(()) => {
            task.held = Sequence::new(alloc);
            Ok(Effect::Ran)
        }
        Err(Fault::Trap(trap)) => put_back(task, Todo::Does(StmtR::Print { line, parts }), trap),
        Err(Fault::Memory) => Err(Memory),
    }
}

/// The block that a condition chooses.
fn chosen(value: i64, block: Items<StmtR>, otherwise: Items<StmtR>) -> Items<StmtR>
    ensures { result ≡ (if is_zero value then otherwise else block) }
{
    if value == 0 { otherwise } else { block }
}

/// The last Step of an `if`.
pub(crate) fn step_if(
    alloc: Global,
    task: &mut Task,
    memory: &mut ImageMemory,
    line: u32,
    condition: ExprR,
    block: Items<StmtR>,
    otherwise: Items<StmtR>,
) -> Result<Effect, Memory>
    requires { count_all (condition ∷ []) ≤ length task.old.held }
    ensures { IsLastStep (StmtR-F.If line condition block otherwise) task.old memory.old result task.new memory.new }
{
    match evaluate(&condition, task, memory) {
        Ok(value) => {
            push_block(&mut task.frame.todo, chosen(value, block, otherwise))?;
            task.held = Sequence::new(alloc);
            Ok(Effect::Ran)
        }
        Err(trap) => {
            let statement = StmtR::If {
                line,
                condition,
                block,
                otherwise,
            };
            put_back(task, Todo::Does(statement), trap)
        }
    }
}

/// The bounds of a `do`, whose first number goes to its variable. On a trap nothing changes.
fn begin_loop(
    variable: LoopVariableR,
    first: &ExprR,
    last: &ExprR,
    step: &ExprR,
    locals: &mut Sequence<i64>,
    held: &[i64],
    memory: &mut ImageMemory,
) -> Result<Bounds, Trap>
    requires { count first.now + count last.now + count step.now ≤ length held.now }
    ensures value { MatchResult result (λ b. loop_begun variable first.now last.now step.now (seen_in memory.old locals.old held.now) (both locals.old memory.old) ≡ Ok (b, both locals.new memory.new)) (λ trap. loop_begun variable first.now last.now step.now (seen_in memory.old locals.old held.now) (both locals.old memory.old) ≡ Err trap) }
    ensures locals { OnErr result (locals.new ≡ locals.old) }
    ensures memory { OnErr result (memory.new ≡ memory.old) }
{
    let mut at = 0;
    let bounds = bounds(
        first,
        last,
        step,
        &view(memory, locals.as_slice(), held),
        &mut at,
    )?;
    store(counter(variable), bounds.first, locals, memory)?;
    Ok(bounds)
}

/// The last Step of a `do`.
pub(crate) fn step_do(
    alloc: Global,
    task: &mut Task,
    memory: &mut ImageMemory,
    line: u32,
    variable: LoopVariableR,
    first: ExprR,
    last: ExprR,
    step: ExprR,
    body: Items<StmtR>,
) -> Result<Effect, Memory>
    requires { count_all (first ∷ last ∷ step ∷ []) ≤ length task.old.held }
    ensures { IsLastStep (StmtR-F.Do line variable first last step body) task.old memory.old result task.new memory.new }
{
    match begin_loop(
        variable,
        &first,
        &last,
        &step,
        &mut task.frame.locals,
        task.held.as_slice(),
        memory,
    ) {
        Ok(bounds) => {
            push_turns(
                alloc,
                &mut task.frame.todo,
                variable,
                bounds.step,
                bounds.count,
                body,
            )?;
            task.held = Sequence::new(alloc);
            Ok(Effect::Ran)
        }
        Err(trap) => {
            let statement = StmtR::Do {
                line,
                variable,
                first,
                last,
                step,
                body,
            };
            put_back(task, Todo::Does(statement), trap)
        }
    }
}

/// What a `do while` leads on to.
fn push_while(
    alloc: Global,
    todo: &mut Stack<Todo>,
    value: i64,
    line: u32,
    condition: ExprR,
    body: Items<StmtR>,
) -> Result<(), Memory>
    ensures { OnOk result (todo.new ≡ (if is_zero value then todo.old else all_of body ++ (item.Does (roll-StmtR (StmtR-F.While line condition body)) ∷ todo.old))) }
{
    if value == 0 {
        return Ok(());
    }
    let turn = copy_block(alloc, body.as_slice())?;
    todo.push(Todo::Does(StmtR::While {
        line,
        condition,
        body,
    }))?;
    push_block(todo, turn)
}

/// The last Step of a `do while`.
pub(crate) fn step_while(
    alloc: Global,
    task: &mut Task,
    memory: &mut ImageMemory,
    line: u32,
    condition: ExprR,
    body: Items<StmtR>,
) -> Result<Effect, Memory>
    requires { count_all (condition ∷ []) ≤ length task.old.held }
    ensures { IsLastStep (StmtR-F.While line condition body) task.old memory.old result task.new memory.new }
{
    match evaluate(&condition, task, memory) {
        Ok(value) => {
            push_while(alloc, &mut task.frame.todo, value, line, condition, body)?;
            task.held = Sequence::new(alloc);
            Ok(Effect::Ran)
        }
        Err(trap) => {
            let statement = StmtR::While {
                line,
                condition,
                body,
            };
            put_back(task, Todo::Does(statement), trap)
        }
    }
}

/// Adds the step of a `do` to its variable. On a trap nothing changes.
fn take_turn(
    variable: LoopVariableR,
    step: i64,
    locals: &mut Sequence<i64>,
    held: &[i64],
    memory: &mut ImageMemory,
) -> Result<(), Trap>
    ensures value { MatchResult result (λ _. turn_taken variable step (seen_in memory.old locals.old held.now) (both locals.old memory.old) ≡ Ok (both locals.new memory.new)) (λ trap. turn_taken variable step (seen_in memory.old locals.old held.now) (both locals.old memory.old) ≡ Err trap) }
    ensures locals { OnErr result (locals.new ≡ locals.old) }
    ensures memory { OnErr result (memory.new ≡ memory.old) }
{
    let now = counted(variable, &view(memory, locals.as_slice(), held))?;
    let value = BinaryOperator::Add.apply(now, step)?;
    store(counter(variable), value, locals, memory)
}

/// The end of an iteration of a `do`.
pub(crate) fn step_turn(
    alloc: Global,
    task: &mut Task,
    memory: &mut ImageMemory,
    variable: LoopVariableR,
    step: i64,
    left: u128,
    body: Items<StmtR>,
) -> Result<Effect, Memory>
    ensures { IfOk result (λ e. Leaves e (turned left variable step body (standing (item.Turns variable step left body) task.old memory.old)) task.new memory.new) }
{
    match take_turn(
        variable,
        step,
        &mut task.frame.locals,
        task.held.as_slice(),
        memory,
    ) {
        Ok(()) => {
            push_turns(
                alloc,
                &mut task.frame.todo,
                variable,
                step,
                left.saturating_sub(1),
                body,
            )?;
            task.held = Sequence::new(alloc);
            Ok(Effect::Ran)
        }
        Err(trap) => {
            let turns = Todo::Turns {
                variable,
                step,
                left,
                body,
            };
            put_back(task, turns, trap)
        }
    }
}
