ghost use Rattle.std.specs.Prelude.{◌≡◌, [], ◌∷◌, ◌++◌, IfOk};
ghost use Rattle.caf_base.specs.Start.{start_memory};
ghost use Rattle.caf_source.specs.State.{main_live, start_image, world_finish};
ghost use Rattle.caf_treestep.specs.Step.{main_task as main_task_of};

use crate::{Image, Live};
use caf_base::{FinishRef, Memory, Sequence, Stack};
use caf_history::{Arrivals, FinishesLeft};
use caf_memory::ImageMemory;
use caf_program::{Program, StmtR, copy_block};
use caf_treestep::{Frame, Task, Todo, push_block, team_world};
use std::alloc::Global;

/// The finish of the whole program.
fn program_finish(alloc: Global, images: u32) -> Result<FinishRef, Memory>
    ensures { IfOk result (λ f. f ≡ world_finish images) }
{
    let team = team_world(alloc, images)?;
    Ok(FinishRef { team, number: 0 })
}

/// The task that runs the main program.
fn main_task(alloc: Global, body: &[StmtR]) -> Result<Task, Memory>
    ensures { IfOk result (λ task. task ≡ main_task_of body.now) }
{
    let mut todo = Stack::new(alloc);
    todo.push(Todo::Closes)?;
    push_block(&mut todo, copy_block(alloc, body)?)?;
    Ok(Task {
        frame: Frame {
            locals: Sequence::new(alloc),
            todo,
        },
        below: Stack::new(alloc),
        held: Sequence::new(alloc),
        wait: None,
        done: None,
    })
}

/// The main program as a live task.
fn main_program(alloc: Global, body: &[StmtR], images: u32) -> Result<Live, Memory>
    ensures { IfOk result (λ live. live ≡ main_live body.now images) }
{
    let mut finishes = Sequence::new(alloc);
    finishes.push(program_finish(alloc, images)?)?;
    Ok(Live {
        number: 0,
        task: main_task(alloc, body)?,
        finishes,
        ship: None,
    })
}

/// An image as a run begins.
pub(crate) fn first_image(
    alloc: Global,
    program: &Program,
    image: u32,
    images: u32,
) -> Result<Image, Memory>
    ensures { IfOk result (λ first. first ≡ start_image program.now (start_memory program.now.objects images image)) }
{
    let memory = ImageMemory::new(alloc, program.objects.as_slice(), image, images)?;
    let main = main_program(alloc, program.body.as_slice(), images)?;
    Ok(Image {
        memory,
        trap: None,
        main,
        shipped: Sequence::new(alloc),
        operations: 0,
        ships: 0,
        left: FinishesLeft::new(alloc),
        arrived: Arrivals::new(alloc),
    })
}
