//! The stages of operations, at the image at which each is performed.

ghost use Rattle.std.specs.Prelude.{◌≡◌, IfOk, None, slice_get};
ghost use Rattle.caf_base.specs.Element.{element_of};
ghost use Rattle.caf_base.specs.Places.{written};
ghost use Rattle.caf_memory.specs.Bounds.{posts_of};
ghost use Rattle.caf_source.specs.Stages.{reached, reads_source as source_due, shipped_live as live_due, start_copy, starts as starts_at, stored, touch as touch_at, touch_copy, touch_notice, touch_read, touch_ship, touch_write, trapped};
ghost use Rattle.caf_source.specs.Taken.{CanTake, image_taken};
ghost use Rattle.caf_treestep.specs.Step.{shipped_task as task_due};

use crate::begun::{copy_finishes, notice};
use crate::outcome::Touched;
use crate::section::{Taken, section_values, take_post, write_section};
use crate::{Image, Live};
use caf_base::{CopyOrder, EventAt, Memory, OpSpec, Section, Sequence, Stack, Stage, Trap};
use caf_pending::Operation;
use caf_program::{SubR, copy_block};
use caf_treestep::{Fault, Frame, Task, Todo, push_block};
use std::alloc::Global;

/// Records a trap at an image.
fn stop(image: &mut Image, trap: Trap) -> Touched
    ensures { trapped image.old trap ≡ reached image.new result }
{
    image.trap = Some(trap);
    Touched::Trapped
}

/// Reads the source of a copy, and begins the notice to its `srce` event.
#[tactic(auto, using(crate::proofs::Noticed::begun_with, crate::proofs::Noticed::trap_with))]
fn read_source(
    alloc: Global,
    number: u32,
    image: &mut Image,
    operation: &Operation,
    order: &CopyOrder,
    taken: Option<Taken>,
) -> Result<Touched, Memory>
    requires { CanTake taken image.old.memory }
    ensures { IfOk result (λ t. source_due number image.old (image_taken taken image.old) operation.now order.now ≡ reached image.new t) }
{
    let finishes = operation.finishes.as_slice();
    match notice(alloc, number, image, finishes, operation.task, order.srce) {
        Ok(notice) => {
            take_post(&mut image.memory, taken);
            let values = section_values(alloc, &image.memory, order.source)?;
            Ok(Touched::Read { values, notice })
        }
        Err(Fault::Trap(trap)) => Ok(stop(image, trap)),
        Err(Fault::Memory) => Err(Memory),
    }
}

/// A Start that has its post, if it needs one.
fn starts(
    alloc: Global,
    number: u32,
    image: &mut Image,
    operation: &Operation,
    order: &CopyOrder,
    taken: Option<Taken>,
) -> Result<Touched, Memory>
    requires { CanTake taken image.old.memory }
    ensures { IfOk result (λ t. starts_at number image.old (image_taken taken image.old) operation.now order.now ≡ reached image.new t) }
{
    if order.source.image == number {
        return read_source(alloc, number, image, operation, order, taken);
    }
    take_post(&mut image.memory, taken);
    Ok(Touched::Passed)
}

/// A Start: it needs a post of `pre`, if that is given.
fn start(
    alloc: Global,
    number: u32,
    image: &mut Image,
    operation: &Operation,
    order: &CopyOrder,
) -> Result<Touched, Memory>
    ensures { IfOk result (λ t. start_copy number image.old operation.now order.now order.now.pre ≡ reached image.new t) }
{
    let Some(event) = order.pre else {
        return starts(alloc, number, image, operation, order, None);
    };
    match image.memory.posts(event.object, event.index) {
        Ok(0) => Ok(Touched::Refused),
        Ok(posts) => {
            let left = posts - 1;
            let taken = Some(Taken { event, left });
            starts(alloc, number, image, operation, order, taken)
        }
        Err(trap) => Ok(stop(image, trap)),
    }
}

/// A Store: it writes, and begins the notice to the `deste` event.
#[tactic(auto, using(crate::proofs::Noticed::begun_with, crate::proofs::Noticed::trap_with))]
fn store(
    alloc: Global,
    number: u32,
    image: &mut Image,
    operation: &Operation,
    order: &CopyOrder,
) -> Result<Touched, Memory>
    ensures { IfOk result (λ t. stored number image.old operation.now order.now ≡ reached image.new t) }
{
    let finishes = operation.finishes.as_slice();
    match notice(alloc, number, image, finishes, operation.task, order.deste) {
        Ok(notice) => {
            write_section(&mut image.memory, order.dest, operation.values.as_slice());
            Ok(Touched::Completed(notice))
        }
        Err(Fault::Trap(trap)) => Ok(stop(image, trap)),
        Err(Fault::Memory) => Err(Memory),
    }
}

/// A stage of a copy.
fn copy(
    alloc: Global,
    number: u32,
    image: &mut Image,
    operation: &Operation,
    order: &CopyOrder,
    stage: Stage,
) -> Result<Touched, Memory>
    ensures { IfOk result (λ t. touch_copy number image.old operation.now order.now stage ≡ reached image.new t) }
{
    match stage {
        Stage::Start => start(alloc, number, image, operation, order),
        Stage::Fetch => read_source(alloc, number, image, operation, order, None),
        Stage::Store => store(alloc, number, image, operation, order),
        Stage::Ship => Ok(Touched::Refused),
        Stage::Notice => Ok(Touched::Refused),
        Stage::Read => Ok(Touched::Refused),
        Stage::Write => Ok(Touched::Refused),
    }
}

/// A post more for an event.
fn post(image: &mut Image, event: EventAt) -> Touched
    ensures { touch_notice image.old event (posts_of image.old.memory event.object event.index) ≡ reached image.new result }
{
    match image.memory.posts(event.object, event.index) {
        Ok(posts) => {
            if posts >= 65_535 {
                return stop(image, Trap::Posts);
            }
            let _kept = image.memory.set_posts(event.object, event.index, posts + 1);
            Touched::Completed(None)
        }
        Err(trap) => stop(image, trap),
    }
}

/// A blocking read.
fn read(image: &mut Image, section: Section) -> Touched
    ensures { touch_read image.old (element_of image.old.memory.objects image.old.memory.cells section.object section.from) ≡ reached image.new result }
{
    match image.memory.read(section.object, section.from) {
        Ok(value) => Touched::Answered(Some(value)),
        Err(trap) => stop(image, trap),
    }
}

/// A blocking write.
fn write(image: &mut Image, section: Section, value: i64) -> Touched
    ensures { touch_write image.old (written image.old.memory section.object section.from value) ≡ reached image.new result }
{
    match image.memory.write(section.object, section.from, value) {
        Ok(()) => Touched::Answered(None),
        Err(trap) => stop(image, trap),
    }
}

/// The task of a subroutine that was shipped with these arguments.
fn shipped_task(
    alloc: Global,
    sub: &SubR,
    arguments: &[i64],
    done: Option<EventAt>,
) -> Result<Task, Memory>
    ensures { IfOk result (λ task. task ≡ task_due sub.now arguments.now done) }
{
    let mut locals = Vec::from_slice(alloc, arguments)?;
    let zeros = vec![in alloc; 0_i64; sub.locals.len()]?;
    locals.extend_from_slice(zeros.as_slice())?;
    let mut todo = Stack::new(alloc);
    todo.push(Todo::Ends)?;
    push_block(&mut todo, copy_block(alloc, sub.body.as_slice())?)?;
    Ok(Task {
        frame: Frame {
            locals: Sequence::from_vec(locals),
            todo,
        },
        below: Stack::new(alloc),
        held: Sequence::new(alloc),
        wait: None,
        done,
    })
}

/// The task of a ship that is taken.
fn shipped_live(
    alloc: Global,
    number: u32,
    operation: &Operation,
    sub: &SubR,
    arguments: &[i64],
    done: Option<EventAt>,
) -> Result<Live, Memory>
    ensures { IfOk result (λ live. live ≡ live_due number operation.now sub.now arguments.now done) }
{
    let task = shipped_task(alloc, sub, arguments, done)?;
    let finishes = copy_finishes(alloc, operation.finishes.as_slice())?;
    Ok(Live {
        number,
        task,
        finishes,
        ship: Some(operation.name),
    })
}

/// A ship that is taken: it becomes a task.
fn ship(
    alloc: Global,
    subs: &[SubR],
    image: &mut Image,
    operation: &Operation,
    sub: u32,
    arguments: &[i64],
    done: Option<EventAt>,
) -> Result<Touched, Memory>
    ensures { IfOk result (λ t. touch_ship image.old operation.now (slice_get subs.now sub) arguments.now done ≡ reached image.new t) }
{
    let Some(sub) = subs.get(sub as usize) else {
        return Ok(Touched::Refused);
    };
    if image.shipped.len() >= 4_096 {
        return Ok(stop(image, Trap::Tasks));
    }
    let number = image.ships.checked_add(1).ok_or(Memory)?;
    let live = shipped_live(alloc, number, operation, sub, arguments, done)?;
    image.shipped.push(live)?;
    image.ships = number;
    Ok(Touched::Passed)
}

/// A stage of an operation, performed at an image.
pub(crate) fn touch_stage(
    alloc: Global,
    subs: &[SubR],
    number: u32,
    image: &mut Image,
    operation: &Operation,
    stage: Stage,
) -> Result<Touched, Memory>
    ensures { IfOk result (λ t. touch_at subs.now number image.old operation.now stage ≡ reached image.new t) }
{
    match &operation.spec {
        OpSpec::Ship {
            sub,
            args,
            done,
            ..
        } => ship(alloc, subs, image, operation, *sub, args.as_slice(), *done),
        OpSpec::Notice(event) => Ok(post(image, *event)),
        OpSpec::Copy(order) => copy(alloc, number, image, operation, order, stage),
        OpSpec::Read(section) => Ok(read(image, *section)),
        OpSpec::Write(section, value) => Ok(write(image, *section, *value)),
    }
}
