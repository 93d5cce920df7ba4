//! A task over trees and the task of a code beside each other, which are to do the same.

ghost use Rattle.std.specs.Prelude.{◌≡◌, ◌≢◌, ◌<◌, ℕ, ℤ, List, false, true, IfOk, OnOk};
ghost use Rattle.caf_code.specs.Sound.{IsSound, IsSoundTeam};
ghost use Rattle.caf_code.specs.Whole.{IsSettled};
ghost use Rattle.caf_treestep.specs.Placeable.{IsPlaceable};
ghost use Rattle.caf_code.specs.Kept.{ends_run};

use super::by_code::{answer_code, leave_code, part_code, post_code, step_code};
use super::by_tree::{answer_tree, leave_tree, part_tree, post_tree};
use super::same::{same_memory, same_task};
use super::trail::{Ship, Trail};
use caf_base::{Effect, FenceClear, Memory, Need, OpSpec, Sequence, Team};
use caf_code::Code;
use caf_memory::ImageMemory;
use caf_program::SubR;
use caf_treestep::{Task as TreeTask, step_task};
use caf_vm::Task;
use std::alloc::Global;

/// The most Steps of a run.
const STEPS: u32 = 2000;

/// Both tasks, each with a memory of its own.
#[derive(Drop)]
pub(crate) struct Pair {
    pub tree: TreeTask,
    pub trees: ImageMemory,
    pub task: Task,
    pub memory: ImageMemory,
}

/// Whether a task is over.
fn is_over(effect: &Effect) -> bool
    ensures { result ≡ ends_run effect.now }
{
    match effect {
        Effect::Ran => false,
        Effect::Ends(_) => true,
        Effect::Begins(_) => false,
        Effect::Enters(_) => false,
        Effect::Arrives { .. } => false,
        Effect::Blocks(_) => false,
        Effect::Traps(_) => true,
    }
}

/// What a task waits for.
fn need_in(effect: &Effect) -> Option<Need> {
    match effect {
        Effect::Blocks(need) => Some(*need),
        _ => None,
    }
}

/// Whether both Steps did the same, and the code's was told of its wait before.
fn alike(pair: &Pair, tree: &Effect, need: Option<Need>, effect: &Effect) -> bool {
    if tree != effect {
        return false;
    }
    if need != need_in(tree) {
        return false;
    }
    if !same_task(&pair.tree, &pair.task) {
        return false;
    }
    same_memory(&pair.trees, &pair.memory)
}

/// A Step of both, and whether they did the same.
fn step(
    alloc: Global,
    subs: &[SubR],
    code: &Code,
    clear: FenceClear,
    pair: &mut Pair,
) -> Result<(bool, Effect), Memory>
    requires sound { IsSound code.now pair.old.task pair.old.memory }
    requires settled { IsSettled code.now pair.old.task }
    requires placeable { IsPlaceable pair.old.trees }
    ensures sound { IfOk result (λ r. ends_run r.1 ≡ false → IsSound code.now pair.new.task pair.new.memory) }
    ensures settled { IfOk result (λ _. IsSettled code.now pair.new.task) }
    ensures placeable { IfOk result (λ _. IsPlaceable pair.new.trees) }
{
    let tree = step_task(alloc, subs, clear, &mut pair.tree, &mut pair.trees)?;
    let (need, effect) = step_code(code, clear, &mut pair.task, &mut pair.memory)?;
    let same = alike(pair, &tree, need, &effect);
    Ok((same, effect))
}

/// Both go on behind a read, which brings the next value, or a write.
fn end_operation(code: &Code, pair: &mut Pair, trail: &mut Trail) -> Result<(), Memory>
    requires sound { IsSound code.now pair.old.task pair.old.memory }
    requires settled { IsSettled code.now pair.old.task }
    ensures sound { OnOk result (IsSound code.now pair.new.task pair.new.memory) }
    ensures settled { OnOk result (IsSettled code.now pair.new.task) }
    ensures trees { OnOk result (pair.new.trees ≡ pair.old.trees) }
{
    let value = answer_code(code, &mut pair.task, &pair.memory, trail.next_value());
    if value.is_some() {
        trail.count_read();
    }
    answer_tree(&mut pair.tree, value)?;
    Ok(())
}

/// The members of a team that is an image alone.
fn one(alloc: Global, image: u32, images: u32) -> Result<Sequence<u32>, Memory>
    requires { image < images }
    ensures { IfOk result (λ members. (path : List (ℕ × ℤ)) → IsSoundTeam image images (record { path = path; members = members })) }
{
    let members = Sequence::from_slice(alloc, &[image])?;
    Ok(members)
}

/// The members of a team in which an image stands behind the last of three.
fn two(alloc: Global, image: u32, images: u32) -> Result<Sequence<u32>, Memory>
    requires below { image < images }
    requires three { images ≡ 3 }
    requires other { image ≢ 2 }
    ensures { IfOk result (λ members. (path : List (ℕ × ℤ)) → IsSoundTeam image images (record { path = path; members = members })) }
{
    let members = Sequence::from_slice(alloc, &[2, image])?;
    Ok(members)
}

/// The members of a new team of an image.
fn members(alloc: Global, image: u32, images: u32) -> Result<Sequence<u32>, Memory>
    requires { image < images }
    ensures { IfOk result (λ members. (path : List (ℕ × ℤ)) → IsSoundTeam image images (record { path = path; members = members })) }
{
    if images != 3 {
        return one(alloc, image, images);
    }
    if image == 2 {
        return one(alloc, image, images);
    }
    two(alloc, image, images)
}

/// A new team of an image.
fn new_team(alloc: Global, image: u32, images: u32) -> Result<Team, Memory>
    requires { image < images }
    ensures { IfOk result (λ team. IsSoundTeam image images team) }
{
    let path = Sequence::from_slice(alloc, &[(1, 0)])?;
    let members = members(alloc, image, images)?;
    Ok(Team { path, members })
}

/// Both go past their split.
fn end_split(alloc: Global, code: &Code, pair: &mut Pair) -> Result<(), Memory>
    requires sound { IsSound code.now pair.old.task pair.old.memory }
    requires settled { IsSettled code.now pair.old.task }
    requires placeable { IsPlaceable pair.old.trees }
    ensures sound { OnOk result (IsSound code.now pair.new.task pair.new.memory) }
    ensures settled { OnOk result (IsSettled code.now pair.new.task) }
    ensures placeable { OnOk result (IsPlaceable pair.new.trees) }
{
    let team = new_team(alloc, pair.memory.image(), pair.memory.images())?;
    let same = Team::copy_of(alloc, &team)?;
    part_code(code, &mut pair.task, &mut pair.memory, team);
    part_tree(&mut pair.tree, &mut pair.trees, same);
    Ok(())
}

/// Both go past the end of a finish, or are over.
fn end_finish(
    alloc: Global,
    code: &Code,
    pair: &mut Pair,
    trail: &mut Trail,
) -> Result<bool, Memory>
    requires sound { IsSound code.now pair.old.task pair.old.memory }
    requires settled { IsSettled code.now pair.old.task }
    ensures sound { IfOk result (λ _. IsSound code.now pair.new.task pair.new.memory) }
    ensures settled { IfOk result (λ _. IsSettled code.now pair.new.task) }
    ensures trees { IfOk result (λ _. pair.new.trees ≡ pair.old.trees) }
{
    let tree = leave_tree(&mut pair.tree);
    let left = leave_code(code, &mut pair.task, &pair.memory);
    trail.note_end(alloc, tree, left)?;
    Ok(left)
}

/// Ends what both wait for. Answers whether they go on.
fn resume(
    alloc: Global,
    code: &Code,
    pair: &mut Pair,
    trail: &mut Trail,
    need: Need,
) -> Result<bool, Memory>
    requires sound { IsSound code.now pair.old.task pair.old.memory }
    requires settled { IsSettled code.now pair.old.task }
    requires placeable { IsPlaceable pair.old.trees }
    ensures sound { IfOk result (λ _. IsSound code.now pair.new.task pair.new.memory) }
    ensures settled { IfOk result (λ _. IsSettled code.now pair.new.task) }
    ensures placeable { IfOk result (λ _. IsPlaceable pair.new.trees) }
{
    match need {
        Need::Event(object, index) => {
            post_tree(&mut pair.trees, object, index);
            post_code(code, &pair.task, &mut pair.memory, object, index);
            Ok(true)
        }
        Need::Cofence => Ok(true),
        Need::Finish => end_finish(alloc, code, pair, trail),
        Need::Split => {
            end_split(alloc, code, pair)?;
            Ok(true)
        }
        Need::Operation => {
            end_operation(code, pair, trail)?;
            Ok(true)
        }
    }
}

/// Keeps what a Step ships.
fn keep_ship(alloc: Global, ships: &mut Vec<Ship>, effect: &Effect) -> Result<(), Memory> {
    match effect {
        Effect::Begins(
            OpSpec::Ship {
                target,
                sub,
                args,
                ..
            },
        ) => {
            let args = Sequence::from_slice(alloc, args.as_slice())?;
            let (target, sub) = (*target, *sub);
            ships.push(Ship { target, sub, args })?;
            Ok(())
        }
        _ => Ok(()),
    }
}

/// Tells a Step, and keeps what it ships.
fn note(
    alloc: Global,
    trail: &mut Trail,
    ships: &mut Vec<Ship>,
    same: bool,
    effect: &Effect,
) -> Result<(), Memory> {
    if !same {
        trail.word(alloc, "steps differ")?;
    }
    trail.note(alloc, effect)?;
    keep_ship(alloc, ships, effect)
}

/// A Step of both, which is told, and the end of what they then wait for. Answers whether they go on.
fn turn(
    alloc: Global,
    subs: &[SubR],
    code: &Code,
    pair: &mut Pair,
    trail: &mut Trail,
    ships: &mut Vec<Ship>,
) -> Result<bool, Memory>
    requires sound { IsSound code.now pair.old.task pair.old.memory }
    requires settled { IsSettled code.now pair.old.task }
    requires placeable { IsPlaceable pair.old.trees }
    ensures sound { IfOk result (λ goes. goes ≡ true → IsSound code.now pair.new.task pair.new.memory) }
    ensures settled { IfOk result (λ _. IsSettled code.now pair.new.task) }
    ensures placeable { IfOk result (λ _. IsPlaceable pair.new.trees) }
{
    let (same, effect) = step(alloc, subs, code, trail.clear(), pair)?;
    note(alloc, trail, ships, same, &effect)?;
    if !same {
        return Ok(false);
    }
    if is_over(&effect) {
        return Ok(false);
    }
    match need_in(&effect) {
        Some(need) => resume(alloc, code, pair, trail, need),
        None => Ok(true),
    }
}

/// Both run to their end, and what they did is told.
pub(crate) fn run(
    alloc: Global,
    subs: &[SubR],
    code: &Code,
    pair: Pair,
    ships: &mut Vec<Ship>,
) -> Result<String, Memory>
    requires sound { IsSound code.now pair.task pair.memory }
    requires settled { IsSettled code.now pair.task }
    requires placeable { IsPlaceable pair.trees }
{
    let mut pair = pair;
    let mut trail = Trail::new(alloc);
    for _step in 0..STEPS {
        if !turn(alloc, subs, code, &mut pair, &mut trail, ships)? {
            return trail.told(alloc, &pair.memory);
        }
    }
    trail.word(alloc, "goes on")?;
    trail.told(alloc, &pair.memory)
}
