//! An image goes past the end of a finish.

ghost use Rattle.std.specs.Prelude.{◌≡◌, [], ◌∷◌, ◌++◌, IfOk, List, MatchOption, Some, not, slice_get};
ghost use Rattle.std.specs.List.{list_all};
ghost use Rattle.std.specs.Option.{option_copied};
ghost use Rattle.caf_base.specs.declared.team.FinishRef.{FinishRef};
ghost use Rattle.caf_base.specs.FinishRef.{encloses as encloses_finish};
ghost use Rattle.caf_source.specs.declared.state.Image.{Image};
ghost use Rattle.caf_source.specs.declared.state.Live.{Live};
ghost use Rattle.caf_source.specs.Next.{has_come as has_come_to, is_finish, leave_in, may_leave as may_leave_at, past_end, running_in, standing as standing_at, stands as stands_at};
ghost use Rattle.caf_source.specs.Placed.{ArePlaceable};
ghost use Rattle.caf_source.specs.Stepping.{Makes, can_leave_in, of_images};

use crate::chosen::running;
use crate::{Image, Stepped};
use caf_base::{FinishRef, Memory, Sequence};
use caf_pending::{Pending, encloses, same_name};
use caf_treestep::{Task, Todo};
use std::alloc::Global;
use std::mem;

/// Whether a task waits for nothing and stands at the end of a finish.
fn stands(task: &Task) -> bool
    ensures { result ≡ stands_at task.now.wait task.now.frame.todo }
{
    task.wait.is_none() && matches!(task.frame.todo.top(), Some(Todo::Closes))
}

/// The finish at whose end an image's main task stands.
fn standing(image: &Image) -> Option<&FinishRef>
    ensures { option_copied result ≡ standing_at image.now }
{
    if stands(&image.main.task) {
        image.main.finishes.get(0)
    } else {
        None
    }
}

/// Takes the first finish off a list that isn't empty.
fn take_first(finishes: &mut Sequence<FinishRef>, alloc: Global) -> Option<FinishRef>
    ensures { MatchOption result ((finishes.old ≡ []) × (finishes.new ≡ [])) (λ f. finishes.old ≡ f ∷ finishes.new) }
{
    let mut all = mem::replace(finishes, Sequence::new(alloc)).into_vec();
    if all.is_empty() {
        return None;
    }
    let first = all.remove(0);
    *finishes = Sequence::from_vec(all);
    Some(first)
}

/// Goes past the end of the finish at which the main task stands.
fn go_past(alloc: Global, image: &mut Image) -> Result<(), Memory>
    ensures past { IfOk result (λ _. (f : FinishRef) → standing_at image.old ≡ Some f → image.new ≡ past_end image.old f) }
    ensures memory { image.new.memory ≡ image.old.memory }
{
    let _end = image.main.task.frame.todo.pop();
    if let Some(f) = take_first(&mut image.main.finishes, alloc) {
        image.left.push(f)?;
    }
    Ok(())
}

/// Whether an image's main task stands at the end of a finish.
fn is_at(image: &Image, f: &FinishRef) -> bool
    ensures { result ≡ is_finish f.now (standing_at image.now) }
{
    match standing(image) {
        None => false,
        Some(end) => same_name(f, end),
    }
}

/// Whether the main task of a member stands at the end of a finish or has left it.
fn has_come(images: &[Image], member: u32, f: &FinishRef) -> bool
    ensures { result ≡ has_come_to f.now (slice_get images.now member) }
{
    match images.get(member as usize) {
        None => false,
        Some(image) => is_at(image, f) || image.left.has(f),
    }
}

/// Whether no live shipped task of an image has the finish in its list.
fn has_no_task(image: &Image, f: &FinishRef) -> bool
    ensures { result ≡ list_all (λ (l : Live). not (encloses_finish f.now l.finishes)) image.now.shipped }
{
    image
        .shipped
        .as_slice()
        .iter()
        .all(|live| !encloses(f, live.finishes.as_slice()))
}

/// Whether no live shipped task of any image has the finish in its list.
fn has_no_live(images: &[Image], f: &FinishRef) -> bool
    ensures { result ≡ list_all (λ (im : Image). list_all (λ (l : Live). not (encloses_finish f.now l.finishes)) im.shipped) images.now }
{
    images.iter().all(|image| has_no_task(image, f))
}

/// Whether all members stand at the end of a finish or have left it.
fn have_come(images: &[Image], members: &[u32], f: &FinishRef) -> bool
    ensures { result ≡ list_all (λ member. has_come_to f.now (slice_get images.now member)) members.now }
{
    members.iter().all(|member| has_come(images, *member, f))
}

/// Whether a finish may be left: all members have come to its end, and nothing that it encloses is pending.
fn may_leave(images: &[Image], pending: &Pending, f: &FinishRef) -> bool
    ensures { result ≡ may_leave_at (of_images images.now pending.now) f.now }
{
    have_come(images, f.team.members.as_slice(), f)
        && (pending.encloses_none(f) && has_no_live(images, f))
}

/// Whether an image stands at the end of a finish that may be left.
pub(crate) fn can_leave(images: &[Image], pending: &Pending, image: u32) -> bool
    ensures { result ≡ can_leave_in (of_images images.now pending.now) (running_in (slice_get images.now image)) }
{
    match running(images, image) {
        None => false,
        Some(found) => match standing(found) {
            None => false,
            Some(f) => may_leave(images, pending, f),
        },
    }
}

/// An image's main task goes past the end of the finish at which it stands.
pub(crate) fn leave(
    alloc: Global,
    images: &mut Vec<Image>,
    pending: &Pending,
    image: u32,
) -> Result<Stepped, Memory>
    requires { ArePlaceable images.old.items }
    ensures made { IfOk result (λ stepped. Makes (leave_in (of_images images.old.items pending.now) image (running_in (slice_get images.old.items image))) (of_images images.old.items pending.now) (of_images images.new.items pending.now) stepped) }
    ensures memory { IfOk result (λ _. ArePlaceable images.new.items) }
{
    if !can_leave(images.as_slice(), pending, image) {
        return Ok(Stepped::NotEnabled);
    }
    go_past(alloc, &mut images[image as usize])?;
    Ok(Stepped::Done)
}
