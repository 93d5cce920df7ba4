//! What each instruction does that doesn't end its step.
//!
//! A row asks that its operands are there, as the rules of a code promise.

ghost use Rattle.std.specs.Prelude.{◌≡◌, ◌<◌, ◌≤◌, ◌^◌, ◌∷◌, length, IfOk};
ghost use Rattle.caf_base.specs.ImageMemory.{ImageMemory};
ghost use Rattle.caf_base.specs.Element.{element_of};
ghost use Rattle.caf_base.specs.Team.{rank_in as position_of, rank_or_first};
ghost use Rattle.caf_base.specs.Line.{number_text as number, logical_text as logical};
ghost use Rattle.caf_code.specs.Calls.{does_out};
ghost use Rattle.caf_code.specs.Shapes.{section_numbers, with_rank};
ghost use Rattle.caf_code.specs.Did.{Goes};
ghost use Rattle.caf_code.specs.Calls.{does_out};
ghost use Rattle.caf_code.specs.Flow.{does_go, does_loop, does_step_by};
ghost use Rattle.caf_code.specs.Numbers.{One, Two, arithmetic_operator, does_cell, does_held, does_load, does_operator, does_push, does_store, logical_operator, relation_operator};
ghost use Rattle.caf_code.specs.Operations.{does_event_at, does_section};
ghost use Rattle.caf_code.specs.Print.{does_print};
ghost use Rattle.caf_code.specs.Task.{Task as TaskNow};
ghost use Rattle.caf_code.specs.Teams.{does_team, of_team};
ghost use Rattle.caf_memory.specs.Bounds.{HasCells};
ghost use Rattle.caf_vm.specs.Draft.{memory_in, task_in};
ghost use Rattle.caf_vm.specs.Ready.{IsTextOf, cell_ready, operator_operands, out_operands, printed_operands, reach_operands};
ghost use Rattle.caf_vm.specs.Went.{Went};

use crate::draft::Draft;
use crate::stop::Stop;
use crate::{Memory, Task};
use caf_base::{
    BinaryOperator, EventWanted, SectionWanted, Text, Trap, UnaryOperator, iteration_count,
};
use caf_code::{
    Arithmetic, CellUse, CopyTarget, Listed, Logical, Loop, OutForm, PlaceForm, Printed, Reach,
    Relation, Role, SectionForm, TeamName, TeamQuery,
};
use caf_memory::ImageMemory;
use itoa::Buffer;
use std::alloc::Global;

pub fn push(draft: &mut Draft, value: i64) -> Result<(), Stop>
    requires { draft.old.address < 2 ^ 63 }
    ensures { (t : TaskNow) → (m : ImageMemory) → Went result (does_push value (task_in draft.old t) (memory_in draft.old m)) (task_in draft.new t) (memory_in draft.new m) }
{
    draft.answer(value)
}

pub fn load(
    draft: &mut Draft,
    task: &Task,
    memory: &ImageMemory,
    reach: Reach,
    object: u32,
) -> Result<(), Stop>
    requires room { draft.old.address < 2 ^ 63 }
    requires object { HasCells memory.now.objects object }
    requires ready { reach_operands reach ≤ length (task_in draft.old task.now).frame.stack }
    ensures { Went result (does_load reach object (task_in draft.old task.now) (memory_in draft.old memory.now)) (task_in draft.new task.now) (memory_in draft.new memory.now) }
{
    let index = match reach {
        Reach::Scalar => 1,
        Reach::Element => draft.pop(task),
    };
    match draft.read(memory, object, index) {
        Ok(value) => draft.answer(value),
        Err(trap) => Err(Stop::Trap(trap)),
    }
}

pub fn store(
    draft: &mut Draft,
    task: &Task,
    memory: &ImageMemory,
    reach: Reach,
    object: u32,
) -> Result<(), Stop>
    requires room { draft.old.address < 2 ^ 63 }
    requires ready { reach_operands reach < length (task_in draft.old task.now).frame.stack }
    ensures { Went result (does_store reach object (task_in draft.old task.now) (memory_in draft.old memory.now)) (task_in draft.new task.now) (memory_in draft.new memory.now) }
{
    let value = draft.pop(task);
    let index = match reach {
        Reach::Scalar => 1,
        Reach::Element => draft.pop(task),
    };
    draft.write(memory, object, index, value)?;
    draft.skip();
    Ok(())
}

#[tactic(auto, using(crate::proofs::Overlay::length_cells_after))]
pub fn cell(draft: &mut Draft, task: &Task, what: CellUse, cell: u32) -> Result<(), Stop>
    requires room { draft.old.address < 2 ^ 63 }
    requires cell { cell < length (task_in draft.old task.now).frame.cells }
    requires ready { cell_ready what ≤ length (task_in draft.old task.now).frame.stack }
    ensures { (m : ImageMemory) → Went result (does_cell what cell (task_in draft.old task.now) (memory_in draft.old m)) (task_in draft.new task.now) (memory_in draft.new m) }
{
    match what {
        CellUse::Get => {
            let value = draft.cell(task, cell as usize);
            draft.answer(value)
        }
        CellUse::Set => {
            let value = draft.pop(task);
            draft.set_cell(cell, value)
        }
    }
}

pub fn held(draft: &mut Draft, task: &Task, at: u32) -> Result<(), Stop>
    requires room { draft.old.address < 2 ^ 63 }
    requires held { at < length task.now.frame.held }
    ensures { (m : ImageMemory) → Went result (does_held at (task_in draft.old task.now) (memory_in draft.old m)) (task_in draft.new task.now) (memory_in draft.new m) }
{
    draft.answer(task.held()[at as usize])
}

pub fn one(draft: &mut Draft, task: &Task, operator: UnaryOperator) -> Result<(), Stop>
    requires room { draft.old.address < 2 ^ 63 }
    requires ready { 1 ≤ length (task_in draft.old task.now).frame.stack }
    ensures { (m : ImageMemory) → Went result (does_operator (One operator) (task_in draft.old task.now) (memory_in draft.old m)) (task_in draft.new task.now) (memory_in draft.new m) }
{
    let operand = draft.pop(task);
    match operator.apply(operand) {
        Ok(value) => draft.answer(value),
        Err(trap) => Err(Stop::Trap(trap)),
    }
}

pub fn two(draft: &mut Draft, task: &Task, operator: BinaryOperator) -> Result<(), Stop>
    requires room { draft.old.address < 2 ^ 63 }
    requires ready { 2 ≤ length (task_in draft.old task.now).frame.stack }
    ensures { (m : ImageMemory) → Went result (does_operator (Two operator) (task_in draft.old task.now) (memory_in draft.old m)) (task_in draft.new task.now) (memory_in draft.new m) }
{
    let right = draft.pop(task);
    let left = draft.pop(task);
    match operator.apply(left, right) {
        Ok(value) => draft.answer(value),
        Err(trap) => Err(Stop::Trap(trap)),
    }
}

pub fn arithmetic(draft: &mut Draft, task: &Task, word: Arithmetic) -> Result<(), Stop>
    requires room { draft.old.address < 2 ^ 63 }
    requires ready { operator_operands (arithmetic_operator word) ≤ length (task_in draft.old task.now).frame.stack }
    ensures { (m : ImageMemory) → Went result (does_operator (arithmetic_operator word) (task_in draft.old task.now) (memory_in draft.old m)) (task_in draft.new task.now) (memory_in draft.new m) }
{
    match word {
        Arithmetic::Negate => one(draft, task, UnaryOperator::Negate),
        Arithmetic::Add => two(draft, task, BinaryOperator::Add),
        Arithmetic::Subtract => two(draft, task, BinaryOperator::Subtract),
        Arithmetic::Multiply => two(draft, task, BinaryOperator::Multiply),
        Arithmetic::Divide => two(draft, task, BinaryOperator::Divide),
        Arithmetic::Modulo => two(draft, task, BinaryOperator::Modulo),
        Arithmetic::Absolute => one(draft, task, UnaryOperator::Absolute),
        Arithmetic::Minimum => two(draft, task, BinaryOperator::Minimum),
        Arithmetic::Maximum => two(draft, task, BinaryOperator::Maximum),
    }
}

pub fn relation(draft: &mut Draft, task: &Task, word: Relation) -> Result<(), Stop>
    requires room { draft.old.address < 2 ^ 63 }
    requires ready { 2 ≤ length (task_in draft.old task.now).frame.stack }
    ensures { (m : ImageMemory) → Went result (does_operator (relation_operator word) (task_in draft.old task.now) (memory_in draft.old m)) (task_in draft.new task.now) (memory_in draft.new m) }
{
    match word {
        Relation::Equal => two(draft, task, BinaryOperator::Equal),
        Relation::NotEqual => two(draft, task, BinaryOperator::NotEqual),
        Relation::Less => two(draft, task, BinaryOperator::Less),
        Relation::LessEqual => two(draft, task, BinaryOperator::LessEqual),
        Relation::Greater => two(draft, task, BinaryOperator::Greater),
        Relation::GreaterEqual => two(draft, task, BinaryOperator::GreaterEqual),
    }
}

pub fn logical(draft: &mut Draft, task: &Task, word: Logical) -> Result<(), Stop>
    requires room { draft.old.address < 2 ^ 63 }
    requires ready { operator_operands (logical_operator word) ≤ length (task_in draft.old task.now).frame.stack }
    ensures { (m : ImageMemory) → Went result (does_operator (logical_operator word) (task_in draft.old task.now) (memory_in draft.old m)) (task_in draft.new task.now) (memory_in draft.new m) }
{
    match word {
        Logical::Not => one(draft, task, UnaryOperator::Not),
        Logical::And => two(draft, task, BinaryOperator::And),
        Logical::Or => two(draft, task, BinaryOperator::Or),
        Logical::Equivalent => two(draft, task, BinaryOperator::Equivalent),
        Logical::NotEquivalent => two(draft, task, BinaryOperator::NotEquivalent),
    }
}

pub fn go(draft: &mut Draft, to: u32)
    ensures task { (t : TaskNow) → (m : ImageMemory) → does_go to (task_in draft.old t) (memory_in draft.old m) ≡ Goes (task_in draft.new t) (memory_in draft.new m) }
{
    draft.address = to as usize;
}

pub fn open_loop(draft: &mut Draft, task: &Task) -> Result<(), Stop>
    requires room { draft.old.address < 2 ^ 63 }
    requires ready { 3 ≤ length (task_in draft.old task.now).frame.stack }
    ensures { (m : ImageMemory) → Went result (does_loop (task_in draft.old task.now) (memory_in draft.old m)) (task_in draft.new task.now) (memory_in draft.new m) }
{
    let step = draft.pop(task);
    let last = draft.pop(task);
    let first = draft.pop(task);
    if step == 0 {
        return Err(Stop::Trap(Trap::Step));
    }
    let iterations = iteration_count(first, last, step);
    draft.open(Loop { iterations, step })?;
    draft.answer(first)
}

pub fn step_by(draft: &mut Draft, task: &Task) -> Result<(), Stop>
    requires room { draft.old.address < 2 ^ 63 }
    requires ready { 1 ≤ length (task_in draft.old task.now).frame.loops }
    ensures { (m : ImageMemory) → Went result (does_step_by (task_in draft.old task.now) (memory_in draft.old m)) (task_in draft.new task.now) (memory_in draft.new m) }
{
    let innermost = draft.innermost(task);
    draft.answer(innermost.step)
}

pub fn team(
    draft: &mut Draft,
    memory: &ImageMemory,
    query: TeamQuery,
    name: TeamName,
) -> Result<(), Stop>
    requires room { draft.old.address < 2 ^ 63 }
    ensures { (t : TaskNow) → Went result (does_team query name (task_in draft.old t) (memory_in draft.old memory.now)) (task_in draft.new t) (memory_in draft.new memory.now) }
{
    match asked_of_team(memory, query, name) {
        Ok(value) => draft.answer(value),
        Err(trap) => Err(Stop::Trap(trap)),
    }
}

// The image's rank in a team, or the number of its members; trap `Team` where the team is unset.
fn asked_of_team(memory: &ImageMemory, query: TeamQuery, name: TeamName) -> Result<i64, Trap>
    ensures { result ≡ of_team query memory.now name }
{
    match name {
        TeamName::World => match query {
            TeamQuery::Rank => Ok(i64::from(memory.image())),
            TeamQuery::Size => Ok(i64::from(memory.images())),
        },
        TeamName::Object(object) => {
            let Some(team) = memory.team(object) else {
                return Err(Trap::Team);
            };
            let members = team.members.as_slice();
            match query {
                TeamQuery::Rank => Ok(rank_in(members, memory.image()) as i64),
                TeamQuery::Size => Ok(members.len() as i64),
            }
        }
    }
}

// The first place of the image among the members, 0 for an image that is no member.
fn rank_in(members: &[u32], image: u32) -> usize
    ensures { result ≡ rank_or_first members.now image }
{
    match place_of(members, image) {
        Some(place) => place,
        None => 0,
    }
}

// The first place of the image among the members.
fn place_of(members: &[u32], image: u32) -> Option<usize>
    ensures { result ≡ position_of members.now image }
{
    members.iter().position(|member| *member == image)
}

pub fn section(draft: &mut Draft, task: &Task, form: SectionForm) -> Result<(), Stop>
    requires room { draft.old.address < 2 ^ 63 }
    requires ready { section_numbers form ≤ length (task_in draft.old task.now).frame.stack }
    ensures { (m : ImageMemory) → Went result (does_section form (task_in draft.old task.now) (memory_in draft.old m)) (task_in draft.new task.now) (memory_in draft.new m) }
{
    match form {
        SectionForm::Region(object, range, place) => {
            let place = draft.pop_place(task, place);
            let range = draft.pop_range(task, range);
            draft.list(Listed::Section(SectionWanted::Region(object, range, place)))
        }
        SectionForm::Pointed(copointer, range) => {
            let range = draft.pop_range(task, range);
            draft.list(Listed::Section(SectionWanted::Pointed(copointer, range)))
        }
    }
}

pub fn event_at(
    draft: &mut Draft,
    task: &Task,
    object: u32,
    place: PlaceForm,
    role: Role,
) -> Result<(), Stop>
    requires room { draft.old.address < 2 ^ 63 }
    requires ready { with_rank place 1 ≤ length (task_in draft.old task.now).frame.stack }
    ensures { (m : ImageMemory) → Went result (does_event_at object place role (task_in draft.old task.now) (memory_in draft.old m)) (task_in draft.new task.now) (memory_in draft.new m) }
{
    let place = draft.pop_place(task, place);
    let index = draft.pop(task);
    draft.list(Listed::Event(
        role,
        EventWanted {
            object,
            index,
            place,
        },
    ))
}

pub fn out(draft: &mut Draft, task: &Task, memory: &ImageMemory, form: OutForm) -> Result<(), Stop>
    requires room { draft.old.address < 2 ^ 63 }
    requires ready { out_operands form ≤ length (task_in draft.old task.now).frame.stack }
    ensures { Went result (does_out form (task_in draft.old task.now) (memory_in draft.old memory.now)) (task_in draft.new task.now) (memory_in draft.new memory.now) }
{
    match form {
        OutForm::Scalar(object) => draft.fix(CopyTarget::Scalar(object)),
        OutForm::Element(object) => {
            let index = draft.pop(task);
            match memory.index_of(object, index) {
                Ok(index) => draft.fix(CopyTarget::Element(object, index)),
                Err(trap) => Err(Stop::Trap(trap)),
            }
        }
        OutForm::Local(cell) => draft.fix(CopyTarget::Local(cell)),
    }
}

pub fn print(draft: &mut Draft, task: &Task, texts: &[Text], printed: Printed) -> Result<(), Stop>
    requires room { draft.old.address < 2 ^ 63 }
    requires ready { printed_operands printed ≤ length (task_in draft.old task.now).frame.stack }
    requires text { IsTextOf (length texts.now) printed }
    ensures { (m : ImageMemory) → Went result (does_print texts.now printed (task_in draft.old task.now) (memory_in draft.old m)) (task_in draft.new task.now) (memory_in draft.new m) }
{
    match printed {
        Printed::Number => {
            let value = draft.pop(task);
            let part = number_text(draft.alloc, value)?;
            draft.print(part)
        }
        Printed::Logical => {
            let value = draft.pop(task);
            let part = Text::copy_of(draft.alloc, logical_text(value))?;
            draft.print(part)
        }
        Printed::Text(text) => {
            let part = Text::copy_of(draft.alloc, texts[text as usize].as_str())?;
            draft.print(part)
        }
    }
}

// A number as it is printed.
fn number_text(alloc: Global, value: i64) -> Result<Text, Memory>
    ensures { IfOk result (λ text. text ≡ number value) }
{
    let mut buffer = Buffer::new();
    Text::copy_of(alloc, buffer.format(value))
}

// A logical as it is printed.
fn logical_text(value: i64) -> &'static str
    ensures { result.now ≡ logical value }
{
    if value == 0 { "F" } else { "T" }
}
