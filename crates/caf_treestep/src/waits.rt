//! The last Steps of the statements that aim a copointer, wait, or change where a main task stands among the images.

ghost use Rattle.std.specs.Prelude.{◌≡◌, ◌+◌, ◌≤◌, ◌++◌, [], ◌∷◌, IfOk, Ok, OnOk, length, slice_get};
ghost use Rattle.caf_base.specs.Places.{below, posts_at, within};
ghost use Rattle.caf_base.specs.declared.fence.FenceClear.{FenceClear};
ghost use Rattle.caf_program.specs.declared.stmt.StmtR.TheOpen.{StmtR-F};
ghost use Rattle.caf_program.specs.declared.stmt.StmtR.TheViews.{roll-StmtR};
ghost use Rattle.caf_program.specs.Expressions.{count_all, of_region};
ghost use Rattle.caf_program.specs.Value.{count};
ghost use Rattle.caf_program.specs.View.{seen};
ghost use Rattle.caf_treestep.specs.declared.todo.Todo.TheVariants as item;
ghost use Rattle.caf_treestep.specs.Finds.{Finds};
ghost use Rattle.caf_treestep.specs.Placeable.{IsPlaceable};
ghost use Rattle.caf_treestep.specs.Step.{aimed, awaited_event, does_last, split as split_of, standing, team_of as found_team};
ghost use Rattle.caf_treestep.specs.Stood.{IsLastStep, IsPostTaken, Leaves};
ghost use Rattle.caf_treestep.specs.Task.{all_of, team_of_all};

use crate::evaluated::view;
use crate::loops::push_block;
use crate::statement::put_back;
use crate::wanted::region;
use crate::{Fault, Task, Todo, Wait};
use caf_base::{Down, Effect, FenceClear, Memory, Need, Section, Sequence, Stack, Team, Trap};
use caf_memory::ImageMemory;
use caf_program::{ExprR, OwnEventR, RegionR, StmtR, TeamR, View, eval_from};
use sqlite_items::Items;
use std::alloc::Global;

/// The section that a copointer is to be aimed at.
fn aim(named: &RegionR, view: &View, memory: &ImageMemory, at: &mut usize) -> Result<Section, Trap>
    requires { at.old + count_all (of_region named.now) ≤ length view.now.held.now }
    ensures { result ≡ aimed named.now at.old (seen view.now) memory.now }
{
    let wanted = region(named, view, at)?;
    memory.section(false, &wanted)
}

/// The last Step of a `=>`.
pub(crate) fn step_aim(
    alloc: Global,
    task: &mut Task,
    memory: &mut ImageMemory,
    line: u32,
    copointer: u32,
    region: RegionR,
) -> Result<Effect, Memory>
    requires { count_all (of_region region) ≤ length task.old.held }
    ensures { IsLastStep (StmtR-F.Aim line copointer region) task.old memory.old result task.new memory.new }
{
    let seen = view(memory, task.frame.locals.as_slice(), task.held.as_slice());
    match aim(&region, &seen, memory, &mut 0) {
        Ok(section) => {
            memory.set_copointer(copointer, section);
            task.held = Sequence::new(alloc);
            Ok(Effect::Ran)
        }
        Err(trap) => {
            let statement = StmtR::Aim {
                line,
                copointer,
                region,
            };
            put_back(task, Todo::Does(statement), trap)
        }
    }
}

/// The index of the event of this image that is waited for.
fn index_of(
    event: &OwnEventR,
    view: &View,
    memory: &ImageMemory,
    at: &mut usize,
) -> Result<i64, Trap>
    requires { at.old + count event.now.index ≤ length view.now.held.now }
    ensures { result ≡ awaited_event event.now at.old (seen view.now) memory.now }
{
    let index = eval_from(&event.index, view, at)?;
    memory.index_of(event.object, index)
}

/// Takes a post of an event of this image, where there is one.
fn take_post(memory: &mut ImageMemory, object: u32, index: i64) -> bool
    requires { within (slice_get memory.old.objects object) index ≡ Ok index }
    ensures { IsPostTaken result (posts_at memory.old object index) object index memory.old memory.new }
{
    let Ok(posts) = memory.posts(object, index) else {
        return false;
    };
    if posts == 0 {
        return false;
    }
    let _kept = memory.set_posts(object, index, posts - 1);
    true
}

/// The last Step of an `event_wait`.
pub(crate) fn step_wait(
    alloc: Global,
    task: &mut Task,
    memory: &mut ImageMemory,
    line: u32,
    event: OwnEventR,
) -> Result<Effect, Memory>
    requires { count_all (event.index ∷ []) ≤ length task.old.held }
    ensures { IsLastStep (StmtR-F.Wait line event) task.old memory.old result task.new memory.new }
{
    let seen = view(memory, task.frame.locals.as_slice(), task.held.as_slice());
    match index_of(&event, &seen, memory, &mut 0) {
        Ok(index) => {
            let object = event.object;
            if take_post(memory, object, index) {
                task.held = Sequence::new(alloc);
                return Ok(Effect::Ran);
            }
            task.frame
                .todo
                .push(Todo::Does(StmtR::Wait { line, event }))?;
            Ok(Effect::Blocks(Need::Event(object, index)))
        }
        Err(trap) => put_back(task, Todo::Does(StmtR::Wait { line, event }), trap),
    }
}

/// The last Step of a `cofence`.
pub(crate) fn step_cofence(
    alloc: Global,
    clear: FenceClear,
    task: &mut Task,
    memory: &ImageMemory,
    line: u32,
    down: Down,
) -> Result<Effect, Memory>
    ensures { IfOk result (λ e. Leaves e (does_last [] clear (StmtR-F.Cofence line down) (standing (item.Does (roll-StmtR (StmtR-F.Cofence line down))) task.old memory.now)) task.new memory.now) }
{
    if clear.lets_pass(down) {
        task.held = Sequence::new(alloc);
        return Ok(Effect::Ran);
    }
    task.frame
        .todo
        .push(Todo::Does(StmtR::Cofence { line, down }))?;
    Ok(Effect::Blocks(Need::Cofence))
}

/// The numbers of the images.
fn numbers(alloc: Global, images: u32) -> Result<Sequence<u32>, Memory>
    ensures { IfOk result (λ members. members ≡ below images) }
{
    let mut members = Sequence::new(alloc);
    for image in 0..images {
        members.push(image)?;
    }
    Ok(members)
}

/// The team of all images.
pub fn team_world(alloc: Global, images: u32) -> Result<Team, Memory>
    ensures { IfOk result (λ team. team ≡ team_of_all images) }
{
    Ok(Team {
        path: Sequence::new(alloc),
        members: numbers(alloc, images)?,
    })
}

/// A team by its name; trap `Team` where it is unset.
fn team_of(alloc: Global, team: TeamR, memory: &ImageMemory) -> Result<Team, Fault>
    ensures { Finds (found_team memory.now team) result }
{
    match team {
        TeamR::World => Ok(team_world(alloc, memory.images())?),
        TeamR::Object(object) => match memory.team(object) {
            Some(found) => Ok(Team::copy_of(alloc, found)?),
            None => Err(Fault::Trap(Trap::Team)),
        },
    }
}

/// What a split brings: colour, key, and the team that is split.
fn split(
    alloc: Global,
    team: TeamR,
    colour: &ExprR,
    key: &ExprR,
    view: &View,
    memory: &ImageMemory,
    at: &mut usize,
) -> Result<(i64, (i64, Team)), Fault>
    requires { at.old + count colour.now + count key.now ≤ length view.now.held.now }
    ensures { Finds (split_of team colour.now key.now at.old (seen view.now) memory.now) result }
{
    let colour = eval_from(colour, view, at)?;
    let key = eval_from(key, view, at)?;
    let team = team_of(alloc, team, memory)?;
    Ok((colour, (key, team)))
}

/// The last Step of a `team_split`.
pub(crate) fn step_split(
    alloc: Global,
    task: &mut Task,
    memory: &ImageMemory,
    line: u32,
    team: TeamR,
    colour: ExprR,
    key: ExprR,
    new: u32,
) -> Result<Effect, Memory>
    requires { count_all (colour ∷ key ∷ []) ≤ length task.old.held }
    ensures { IsLastStep (StmtR-F.Split line team colour key new) task.old memory.now result task.new memory.now }
{
    let seen = view(memory, task.frame.locals.as_slice(), task.held.as_slice());
    match split(alloc, team, &colour, &key, &seen, memory, &mut 0) {
        Ok((colour, (key, team))) => {
            task.held = Sequence::new(alloc);
            task.wait = Some(Wait::NewTeam(new));
            Ok(Effect::Arrives {
                team,
                colour,
                key,
                new,
            })
        }
        Err(Fault::Trap(trap)) => {
            let statement = StmtR::Split {
                line,
                team,
                colour,
                key,
                new,
            };
            put_back(task, Todo::Does(statement), trap)
        }
        Err(Fault::Memory) => Err(Memory),
    }
}

/// What a `finish` has to do: its body, and its end.
fn push_finish(todo: &mut Stack<Todo>, body: Items<StmtR>) -> Result<(), Memory>
    ensures { OnOk result (todo.new ≡ all_of body ++ (item.Closes ∷ todo.old)) }
{
    todo.push(Todo::Closes)?;
    push_block(todo, body)
}

/// The Step of a `finish`.
pub(crate) fn step_finish(
    alloc: Global,
    task: &mut Task,
    memory: &ImageMemory,
    line: u32,
    team: TeamR,
    body: Items<StmtR>,
) -> Result<Effect, Memory>
    ensures { IsLastStep (StmtR-F.Finish line team body) task.old memory.now result task.new memory.now }
{
    match team_of(alloc, team, memory) {
        Ok(found) => {
            push_finish(&mut task.frame.todo, body)?;
            task.held = Sequence::new(alloc);
            Ok(Effect::Enters(found))
        }
        Err(Fault::Trap(trap)) => put_back(
            task,
            Todo::Does(StmtR::Finish { line, team, body }),
            trap,
        ),
        Err(Fault::Memory) => Err(Memory),
    }
}
