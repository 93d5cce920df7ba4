//! Whether some choice is defined.

ghost use Rattle.std.specs.Prelude.{◌≡◌, IfOk, List, slice_get};
ghost use Rattle.std.specs.List.{list_all, list_any};
ghost use Rattle.std.specs.Option.{option_copied};
ghost use Rattle.caf_base.specs.Places.{below};
ghost use Rattle.caf_pending.specs.declared.operation.Operation.{Operation as OperationOf};
ghost use Rattle.caf_source.specs.declared.state.Live.{Live as LiveOf};
ghost use Rattle.caf_source.specs.Ending.{can_copy as copy_can, can_go as choice_can, can_go_at as image_can, can_leave as leave_can, can_part as part_can, can_start as start_can, can_step as step_can, can_step_shipped as shipped_can, can_touch as touch_can, can_touch_named as named_can, can_touch_next as next_can, can_touch_spec as spec_can, has_arrived as has_come_to, have_arrived as all_come, live_at as live_by};
ghost use Rattle.caf_source.specs.Stepping.{of_images};

use crate::chosen::{next_stage, place_of, running};
use crate::leave::can_leave;
use crate::live::place_of_task;
use crate::offer::offer_in;
use crate::split::{awaited_object, last_arrival};
use crate::still::is_task_still;
use crate::{Image, Live};
use caf_base::{CopyOrder, EventAt, Memory, OpName, OpSpec, Stage};
use caf_history::Arrival;
use caf_pending::{Operation, Pending};
use caf_program::SubR;

/// A live task of an image, by its number.
fn live_at(image: &Image, task: u32) -> Option<&Live>
    ensures { option_copied result ≡ live_by image.now task }
{
    if task == 0 {
        return Some(&image.main);
    }
    match place_of_task(image.shipped.as_slice(), task) {
        None => None,
        Some(at) => image.shipped.get(at),
    }
}

/// Whether a Step of a task is defined.
fn can_step(images: &[Image], pending: &Pending, image: u32, task: u32) -> bool
    ensures { result ≡ step_can (of_images images.now pending.now) image task }
{
    match running(images, image) {
        None => false,
        Some(found) => match live_at(found, task) {
            None => false,
            Some(live) => {
                !is_task_still(pending.clear_of(image, task), &live.task, &found.memory)
            }
        },
    }
}

/// Whether a Start has the post that it needs.
fn can_start(image: &Image, event: Option<EventAt>) -> bool
    ensures { result ≡ start_can image.now event }
{
    match event {
        None => true,
        Some(event) => match image.memory.posts(event.object, event.index) {
            Ok(posts) => posts != 0,
            Err(_) => true,
        },
    }
}

/// Whether a stage of a copy is defined where it is performed.
fn can_copy(image: &Image, order: &CopyOrder, stage: Stage) -> bool
    ensures { result ≡ copy_can image.now order.now stage }
{
    match stage {
        Stage::Start => can_start(image, order.pre),
        Stage::Fetch => true,
        Stage::Store => true,
        Stage::Ship => false,
        Stage::Notice => false,
        Stage::Read => false,
        Stage::Write => false,
    }
}

/// Whether a stage is defined where it is performed.
fn can_touch_spec(subs: &[SubR], image: &Image, what: &OpSpec, stage: Stage) -> bool
    ensures { result ≡ spec_can subs.now image.now what.now stage }
{
    match what {
        OpSpec::Ship { sub, .. } => subs.get(*sub as usize).is_some(),
        OpSpec::Notice(_) => true,
        OpSpec::Copy(order) => can_copy(image, order, stage),
        OpSpec::Read(_) => true,
        OpSpec::Write(..) => true,
    }
}

/// Whether the next stage of an operation is defined.
fn can_touch_next(subs: &[SubR], images: &[Image], operation: &Operation) -> bool
    ensures { (pending : List OperationOf) → result ≡ next_can subs.now (of_images images.now pending) operation.now operation.now.stages }
{
    match next_stage(operation) {
        None => false,
        Some(stage) => match running(images, place_of(operation, stage)) {
            None => false,
            Some(image) => can_touch_spec(subs, image, &operation.spec, stage),
        },
    }
}

/// Whether the next stage of the pending operation of a name is defined.
fn can_touch(subs: &[SubR], images: &[Image], pending: &Pending, name: OpName) -> bool
    ensures { result ≡ touch_can subs.now (of_images images.now pending.now) name }
{
    match pending.get(name) {
        None => false,
        Some(operation) => can_touch_next(subs, images, operation),
    }
}

/// Whether a member has arrived at a split.
fn has_arrived(images: &[Image], arrival: &Arrival, member: u32) -> bool
    ensures { result ≡ has_come_to images.now arrival.now member }
{
    offer_in(images, &arrival.team, arrival.number, member).is_some()
}

/// Whether these members have arrived at a split.
fn have_members_arrived(images: &[Image], arrival: &Arrival, members: &[u32]) -> bool
    ensures { result ≡ list_all (has_come_to images.now arrival.now) members.now }
{
    members
        .iter()
        .all(|member| has_arrived(images, arrival, *member))
}

/// Whether all members have arrived at the split of an arrival, if there is one.
fn have_arrived(images: &[Image], arrival: Option<&Arrival>) -> bool
    ensures { result ≡ all_come images.now (option_copied arrival.entry) }
{
    match arrival {
        None => false,
        Some(arrival) => { have_members_arrived(images, arrival, arrival.team.members.as_slice()) }
    }
}

/// Whether an image may go past its split.
fn can_part(images: &[Image], pending: &Pending, image: u32) -> bool
    ensures { result ≡ part_can (of_images images.now pending.now) image }
{
    match running(images, image) {
        None => false,
        Some(found) => {
            awaited_object(found).is_some() && have_arrived(images, last_arrival(found))
        }
    }
}

/// Whether a Step of one of these tasks of an image is defined.
fn can_step_some(images: &[Image], pending: &Pending, image: u32, tasks: &[Live]) -> bool
    ensures { result ≡ list_any (λ (l : LiveOf). step_can (of_images images.now pending.now) image l.number) tasks.now }
{
    tasks
        .iter()
        .any(|live| can_step(images, pending, image, live.number))
}

/// Whether a Step of a shipped task of an image is defined.
fn can_step_shipped(images: &[Image], pending: &Pending, image: u32) -> bool
    ensures { result ≡ shipped_can (of_images images.now pending.now) image (slice_get images.now image) }
{
    match images.get(image as usize) {
        None => false,
        Some(found) => can_step_some(images, pending, image, found.shipped.as_slice()),
    }
}

/// Whether a choice of an image is defined.
fn can_go_at(images: &[Image], pending: &Pending, image: u32) -> bool
    ensures { result ≡ image_can (of_images images.now pending.now) image }
{
    can_step(images, pending, image, 0)
        || (can_step_shipped(images, pending, image)
            || (can_part(images, pending, image) || can_leave(images, pending, image)))
}

/// Whether a choice of one of so many images is defined.
#[tactic(auto, using(crate::proofs::Below::any_below, crate::proofs::Below::none_more))]
fn can_go_below(images: &[Image], pending: &Pending, count: u32) -> bool
    ensures { result ≡ list_any (image_can (of_images images.now pending.now)) (below count) }
{
    for image in 0..count {
        if can_go_at(images, pending, image) {
            return true;
        }
    }
    false
}

/// Whether the next stage of the pending operation at a place is defined.
fn can_touch_place(subs: &[SubR], images: &[Image], pending: &Pending, place: usize) -> bool
    ensures { result ≡ named_can subs.now (of_images images.now pending.now) (slice_get pending.now place) }
{
    match pending.at(place) {
        None => false,
        Some(operation) => can_touch(subs, images, pending, operation.name),
    }
}

/// Whether the next stage of a pending operation is defined.
fn can_touch_some(subs: &[SubR], images: &[Image], pending: &Pending) -> bool
    ensures { result ≡ list_any (λ (op : OperationOf). touch_can subs.now (of_images images.now pending.now) op.name) pending.now }
{
    for place in 0..pending.len() {
        if can_touch_place(subs, images, pending, place) {
            return true;
        }
    }
    false
}

/// Whether some choice is defined.
pub(crate) fn can_go(subs: &[SubR], images: &[Image], pending: &Pending) -> Result<bool, Memory>
    ensures { IfOk result (λ can. can ≡ choice_can subs.now (of_images images.now pending.now)) }
{
    let count = u32::try_from(images.len()).map_err(|_| Memory)?;
    Ok(can_go_below(images, pending, count) || can_touch_some(subs, images, pending))
}
