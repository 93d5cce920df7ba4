//! A Step of a live task of an image.

ghost use Rattle.std.specs.Prelude.{◌≡◌, ◌+◌, ◌<◌, ◌∷◌, ◌++◌, [], IfOk, List, None, OnOk, length, slice_set, suc};
ghost use Rattle.caf_base.specs.FinishRef.{same_path as same_team_path};
ghost use Rattle.caf_history.specs.Finishes.{count_finishes as finishes_due};
ghost use Rattle.caf_source.specs.Begun.{notice_of};
ghost use Rattle.caf_source.specs.declared.state.Live.{Live as LiveOf};
ghost use Rattle.caf_source.specs.Effects.{arrival_of, begins as begins_at, did, ends as ends_at, entered, image_step, kept_at, lived, live_step, main_did, place_of_task as place_due, step_at_place};
ghost use Rattle.caf_source.specs.Living.{put_back as put_back_at};
ghost use Rattle.caf_source.specs.Rewound.{rewound_live};
ghost use Rattle.caf_treestep.specs.Placeable.{IsPlaceable};

use crate::begun::{copy_finishes, is_outside, is_spent, notice, operation_of};
use crate::outcome::Outcome;
use crate::rewind::{Saved, rewind, step_saved};
use crate::{Image, Live};
use caf_base::{
    Effect, EventAt, FenceClear, FinishRef, Memory, OpSpec, Sequence, Stack, Team, Trap,
};
use caf_history::Arrival;
use caf_program::SubR;
use caf_treestep::{Fault, Frame, Task};
use std::alloc::Global;
use std::mem;

/// One more than two counts; a number that 32 bits don't hold is want of memory.
fn one_more(first: usize, second: usize) -> Result<u32, Memory>
    ensures { IfOk result (λ next. next ≡ suc (first + second)) }
{
    let first = u32::try_from(first).map_err(|_| Memory)?;
    let second = u32::try_from(second).map_err(|_| Memory)?;
    let count = first.checked_add(second).ok_or(Memory)?;
    count.checked_add(1).ok_or(Memory)
}

/// Whether two teams have one path.
fn same_path(a: &Team, b: &Team) -> bool
    ensures { result ≡ same_team_path a.now.path b.now.path }
{
    a.path == b.path
}

/// How many of these finishes are of a team, the program's apart.
fn count_finishes(finishes: &[FinishRef], team: &Team) -> usize
    ensures { result ≡ finishes_due team.now finishes.now }
{
    let mut count = 0;
    for finish in finishes {
        if same_path(&finish.team, team) && finish.number != 0 {
            count += 1;
        }
    }
    count
}

/// Records the trap of a Step, and puts its task back to where it stood.
fn stop(image: &mut Image, live: &mut Live, saved: Saved, trap: Trap) -> Result<Outcome, Memory>
    ensures step { IfOk result (λ o. put_back_at image.old live.old saved trap ≡ lived image.new live.new o) }
    ensures memory { image.new.memory ≡ image.old.memory }
{
    rewind(&mut live.task, saved)?;
    image.trap = Some(trap);
    Ok(Outcome::Local)
}

/// An operation that a task begins, where its image is otherwise as it was.
fn begins(
    alloc: Global,
    number: u32,
    image: &mut Image,
    live: &mut Live,
    what: OpSpec,
    saved: Saved,
) -> Result<Outcome, Memory>
    ensures step { IfOk result (λ o. begins_at number image.old (rewound_live saved live.old) image.old live.old what ≡ lived image.new live.new o) }
    ensures memory { image.new.memory ≡ image.old.memory }
{
    if is_outside(live.finishes.as_slice(), &what) {
        return stop(image, live, saved, Trap::Outside);
    }
    if is_spent(image) {
        return stop(image, live, saved, Trap::Operations);
    }
    let finishes = live.finishes.as_slice();
    let operation = operation_of(alloc, number, image.operations, what, finishes, live.number)?;
    image.operations += 1;
    Ok(Outcome::Begun(operation))
}

/// The end of a shipped task, where its image is otherwise as it was.
fn ends(
    alloc: Global,
    number: u32,
    image: &mut Image,
    live: &mut Live,
    event: Option<EventAt>,
    saved: Saved,
) -> Result<Outcome, Memory>
    ensures step { IfOk result (λ o. ends_at image.old (rewound_live saved live.old) live.old (notice_of number image.old live.old.finishes live.old.number event) ≡ lived image.new live.new o) }
    ensures memory { image.new.memory ≡ image.old.memory }
{
    let finishes = live.finishes.as_slice();
    match notice(alloc, number, image, finishes, live.number, event) {
        Ok(notice) => Ok(Outcome::Ended {
            ship: live.ship,
            notice,
        }),
        Err(Fault::Trap(trap)) => stop(image, live, saved, trap),
        Err(Fault::Memory) => Err(Memory),
    }
}

/// Puts a finish before those that enclose a task.
fn enclose(
    alloc: Global,
    finishes: &mut Sequence<FinishRef>,
    finish: FinishRef,
) -> Result<(), Memory>
    ensures { OnOk result (finishes.new ≡ finish ∷ finishes.old) }
{
    let mut all = mem::replace(finishes, Sequence::new(alloc)).into_vec();
    all.insert(0, finish)?;
    *finishes = Sequence::from_vec(all);
    Ok(())
}

/// A task enters the next finish of a team.
fn enters(alloc: Global, image: &Image, live: &mut Live, team: Team) -> Result<(), Memory>
    ensures { OnOk result (live.new ≡ entered image.now live.old team) }
{
    let left = image.left.count(&team);
    let around = count_finishes(live.finishes.as_slice(), &team);
    let number = one_more(left, around)?;
    enclose(alloc, &mut live.finishes, FinishRef { team, number })
}

/// An image arrives at the next split of a team.
fn arrives(image: &mut Image, team: Team, colour: i64, key: i64) -> Result<(), Memory>
    ensures arrived { OnOk result (image.new ≡ record image.old { arrived = image.old.arrived ++ arrival_of image.old team colour key ∷ [] }) }
    ensures memory { image.new.memory ≡ image.old.memory }
{
    let number = one_more(image.arrived.count(&team), 0)?;
    image.arrived.push(Arrival {
        team,
        number,
        colour,
        key,
    })
}

/// One Step of a live task of an image, which stands beside it.
fn step_live(
    alloc: Global,
    subs: &[SubR],
    clear: FenceClear,
    number: u32,
    image: &mut Image,
    live: &mut Live,
) -> Result<Outcome, Memory>
    requires { IsPlaceable image.old.memory }
    ensures step { IfOk result (λ o. live_step subs.now clear number image.old live.old ≡ lived image.new live.new o) }
    ensures memory { IfOk result (λ _. IsPlaceable image.new.memory) }
{
    let (effect, saved) = step_saved(alloc, subs, clear, &mut live.task, &mut image.memory)?;
    match effect {
        Effect::Ran => Ok(Outcome::Local),
        Effect::Ends(event) => ends(alloc, number, image, live, event, saved),
        Effect::Begins(what) => begins(alloc, number, image, live, what, saved),
        Effect::Enters(team) => {
            enters(alloc, image, live, team)?;
            Ok(Outcome::Local)
        }
        Effect::Arrives {
            team,
            colour,
            key,
            ..
        } => {
            arrives(image, team, colour, key)?;
            Ok(Outcome::Local)
        }
        Effect::Blocks(_) => Ok(Outcome::Refused),
        Effect::Traps(trap) => {
            image.trap = Some(trap);
            Ok(Outcome::Local)
        }
    }
}

/// A task that stands where another was taken out.
fn nobody(alloc: Global) -> Live {
    Live {
        number: 0,
        task: Task {
            frame: Frame {
                locals: Sequence::new(alloc),
                todo: Stack::new(alloc),
            },
            below: Stack::new(alloc),
            held: Sequence::new(alloc),
            wait: None,
            done: None,
        },
        finishes: Sequence::new(alloc),
        ship: None,
    }
}

/// A Step of an image's main task.
#[tactic(auto, using(crate::proofs::Beside::main_beside))]
fn step_main(
    alloc: Global,
    subs: &[SubR],
    clear: FenceClear,
    number: u32,
    image: &mut Image,
) -> Result<Outcome, Memory>
    requires { IsPlaceable image.old.memory }
    ensures step { IfOk result (λ o. main_did (live_step subs.now clear number image.old image.old.main) ≡ did image.new o) }
    ensures memory { IfOk result (λ _. IsPlaceable image.new.memory) }
{
    let mut live = mem::replace(&mut image.main, nobody(alloc));
    let outcome = step_live(alloc, subs, clear, number, image, &mut live)?;
    image.main = live;
    Ok(outcome)
}

/// The place of a live shipped task, by its number.
pub(crate) fn place_of_task(all: &[Live], number: u32) -> Option<usize>
    ensures { result ≡ place_due number all.now }
{
    all.iter().position(|live| live.number == number)
}

/// Takes a task that has ended off its list.
#[tactic(auto, using(crate::proofs::Listed::remove_set))]
fn keep(all: &mut Vec<Live>, at: usize, outcome: &Outcome)
    requires { at < length all.old.items }
    ensures { (before : List LiveOf) (l : LiveOf) → all.old.items ≡ slice_set before at l → all.new.items ≡ kept_at outcome.now at l before }
{
    match outcome {
        Outcome::Refused => {}
        Outcome::Local => {}
        Outcome::Begun(_) => {}
        Outcome::Ended { .. } => {
            all.remove(at);
        }
    }
}

/// A Step of a live shipped task of an image.
fn step_shipped(
    alloc: Global,
    subs: &[SubR],
    clear: FenceClear,
    number: u32,
    image: &mut Image,
    task: u32,
) -> Result<Outcome, Memory>
    requires { IsPlaceable image.old.memory }
    ensures step { IfOk result (λ o. step_at_place subs.now clear number image.old (place_due task image.old.shipped) ≡ did image.new o) }
    ensures memory { IfOk result (λ _. IsPlaceable image.new.memory) }
{
    let Some(at) = place_of_task(image.shipped.as_slice(), task) else {
        return Ok(Outcome::Refused);
    };
    let mut all = mem::replace(&mut image.shipped, Sequence::new(alloc)).into_vec();
    let outcome = step_live(alloc, subs, clear, number, image, &mut all[at])?;
    keep(&mut all, at, &outcome);
    image.shipped = Sequence::from_vec(all);
    Ok(outcome)
}

/// A Step of a task of an image, by its number.
pub(crate) fn step_image(
    alloc: Global,
    subs: &[SubR],
    clear: FenceClear,
    number: u32,
    image: &mut Image,
    task: u32,
) -> Result<Outcome, Memory>
    requires { IsPlaceable image.old.memory }
    ensures step { IfOk result (λ o. image_step subs.now clear number image.old task ≡ did image.new o) }
    ensures memory { IfOk result (λ _. IsPlaceable image.new.memory) }
{
    if task == 0 {
        step_main(alloc, subs, clear, number, image)
    } else {
        step_shipped(alloc, subs, clear, number, image, task)
    }
}
