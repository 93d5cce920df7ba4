ghost use Rattle.std.specs.Prelude.{◌≡◌, ◌<◌, ℕ, true, IfOk, IsSomeAnd, length, slice_get};
ghost use Rattle.caf_code.specs.Sound.{IsSound, IsSoundMemory, IsSoundTask};
ghost use Rattle.caf_code.specs.Whole.{IsSettled};
ghost use Rattle.caf_treestep.specs.Placeable.{IsPlaceable};

use super::pair::{Pair, run};
use super::trail::Ship;
use caf_base::{Memory, Sequence, Stack};
use caf_code::{Code, tasks_stay_sound};
use caf_memory::ImageMemory;
use caf_program::{Accepted, StmtR, copy_block};
use caf_treestep::{Frame, Task as TreeTask, Todo, memories_begin_placeable, push_block};
use caf_vm::Task;
use std::alloc::Global;

/// The most ships whose tasks are run.
const SHIPS: u32 = 8;

/// The memory with which an image begins, for trees.
fn tree_memory(alloc: Global, a: &Accepted, image: u32, images: u32) -> Result<ImageMemory, Memory>
    ensures { IfOk result (λ memory. IsPlaceable memory) }
{
    memories_begin_placeable();
    let program = a.program();
    let memory = ImageMemory::new(alloc, program.objects.as_slice(), image, images)?;
    Ok(memory)
}

/// The memory with which an image begins, for a code.
fn code_memory(alloc: Global, code: &Code, image: u32, images: u32) -> Result<ImageMemory, Memory>
    requires { image < images }
    ensures { IfOk result (λ memory. IsSoundMemory code.now memory) }
{
    tasks_stay_sound();
    let listing = code.listing();
    let memory = ImageMemory::new(alloc, listing.objects.as_slice(), image, images)?;
    Ok(memory)
}

/// A task over trees, with these cells, which runs a block and then comes to this end.
fn tree_task(
    alloc: Global,
    locals: Sequence<i64>,
    body: &[StmtR],
    end: Todo,
) -> Result<TreeTask, Memory> {
    let mut todo = Stack::new(alloc);
    todo.push(end)?;
    push_block(&mut todo, copy_block(alloc, body)?)?;
    Ok(TreeTask {
        frame: Frame { locals, todo },
        below: Stack::new(alloc),
        held: Sequence::new(alloc),
        wait: None,
        done: None,
    })
}

/// The task over trees of a ship, if there is such a subroutine.
fn tree_shipped(alloc: Global, a: &Accepted, ship: &Ship) -> Result<Option<TreeTask>, Memory> {
    let Some(sub) = a.program().subs.get(ship.sub as usize) else {
        return Ok(None);
    };
    let mut locals = Vec::from_slice(alloc, ship.args.as_slice())?;
    for _local in 0..sub.locals.len() {
        locals.push(0)?;
    }
    let locals = Sequence::from_vec(locals);
    let task = tree_task(alloc, locals, sub.body.as_slice(), Todo::Ends)?;
    Ok(Some(task))
}

/// Both main tasks of an image.
fn main_pair(
    alloc: Global,
    a: &Accepted,
    code: &Code,
    image: u32,
    images: u32,
) -> Result<Pair, Memory>
    requires { image < images }
    ensures sound { IfOk result (λ pair. IsSound code.now pair.task pair.memory) }
    ensures settled { IfOk result (λ pair. IsSettled code.now pair.task) }
    ensures placeable { IfOk result (λ pair. IsPlaceable pair.trees) }
{
    let body = a.program().body.as_slice();
    let tree = tree_task(alloc, Sequence::new(alloc), body, Todo::Closes)?;
    let trees = tree_memory(alloc, a, image, images)?;
    let task = Task::main(alloc, code)?;
    let memory = code_memory(alloc, code, image, images)?;
    Ok(Pair {
        tree,
        trees,
        task,
        memory,
    })
}

/// Whether a code has the subroutine of a ship, with a dummy for each argument.
fn fits(code: &Code, ship: &Ship) -> bool
    ensures { result ≡ true → IsSomeAnd (slice_get code.now.subs ship.now.sub) (λ found. length ship.now.args ≡ length found.dummies) }
{
    match code.listing().subs.get(ship.sub as usize) {
        Some(found) => found.dummies.len() == ship.args.len(),
        None => false,
    }
}

/// Both tasks of a ship, at the image to which it goes.
fn shipped_pair(
    alloc: Global,
    a: &Accepted,
    code: &Code,
    tree: TreeTask,
    ship: &Ship,
    images: u32,
) -> Result<Pair, Memory>
    requires image { ship.now.target < images }
    requires fits { IsSomeAnd (slice_get code.now.subs ship.now.sub) (λ found. length ship.now.args ≡ length found.dummies) }
    ensures sound { IfOk result (λ pair. IsSound code.now pair.task pair.memory) }
    ensures settled { IfOk result (λ pair. IsSettled code.now pair.task) }
    ensures placeable { IfOk result (λ pair. IsPlaceable pair.trees) }
{
    let trees = tree_memory(alloc, a, ship.target, images)?;
    let task = Task::shipped(alloc, code, ship.sub, ship.args.as_slice(), None)?;
    let memory = code_memory(alloc, code, ship.target, images)?;
    Ok(Pair {
        tree,
        trees,
        task,
        memory,
    })
}

/// What the tasks of a ship do.
fn shipped_story(
    alloc: Global,
    a: &Accepted,
    code: &Code,
    ship: &Ship,
    images: u32,
    ships: &mut Vec<Ship>,
) -> Result<String, Memory> {
    let Some(tree) = tree_shipped(alloc, a, ship)? else {
        return Ok(String::from_str(alloc, "no subroutine")?);
    };
    if ship.target >= images || !fits(code, ship) {
        return Ok(String::from_str(alloc, "no task")?);
    }
    let pair = shipped_pair(alloc, a, code, tree, ship, images)?;
    run(alloc, a.program().subs.as_slice(), code, pair, ships)
}

/// What the tasks of all these ships do, and of those that they ship.
fn shipped_stories(
    alloc: Global,
    a: &Accepted,
    code: &Code,
    images: u32,
    ships: &mut Vec<Ship>,
    text: &mut String,
) -> Result<(), Memory> {
    for _ship in 0..SHIPS {
        if ships.len() == 0 {
            return Ok(());
        }
        let ship = ships.remove(0);
        let story = shipped_story(alloc, a, code, &ship, images, ships)?;
        text.push_str("; ")?;
        text.push_str(story.as_str())?;
    }
    Ok(())
}

/// What the main tasks of an image do, over trees and of the code, and then what the tasks do that are shipped.
pub(crate) fn story(
    alloc: Global,
    a: &Accepted,
    code: &Code,
    image: u32,
    images: u32,
) -> Result<String, Memory>
    requires { image < images }
{
    let pair = main_pair(alloc, a, code, image, images)?;
    let mut ships = Vec::new(alloc);
    let mut text = run(alloc, a.program().subs.as_slice(), code, pair, &mut ships)?;
    shipped_stories(alloc, a, code, images, &mut ships, &mut text)?;
    Ok(text)
}
