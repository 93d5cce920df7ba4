//! An image goes past its split.

ghost use Rattle.std.specs.Prelude.{◌≡◌, IfOk, List, slice_get};
ghost use Rattle.std.specs.Option.{option_copied};
ghost use Rattle.caf_pending.specs.declared.operation.Operation.{Operation as OperationOf};
ghost use Rattle.caf_source.specs.Next.{last_arrival as last_due, part_in, parted_image as parted, running_in, team_of_split};
ghost use Rattle.caf_source.specs.Placed.{ArePlaceable};
ghost use Rattle.caf_source.specs.Splits.{awaited_object as object_due};
ghost use Rattle.caf_source.specs.Stepping.{Makes, of_images};

use crate::chosen::running;
use crate::offer::{group, offers};
use crate::{Image, Stepped};
use caf_base::{Memory, Team};
use caf_history::Arrival;
use caf_treestep::Wait;
use std::alloc::Global;

/// The object that gets the new team of the split at which an image's main task stands, if it stands at one.
pub(crate) fn awaited_object(image: &Image) -> Option<u32>
    ensures { result ≡ object_due image.now.main.task.wait }
{
    match image.main.task.wait {
        None => None,
        Some(Wait::Value) => None,
        Some(Wait::Done) => None,
        Some(Wait::NewTeam(object)) => Some(object),
    }
}

/// The split at which an image has arrived last.
pub(crate) fn last_arrival(image: &Image) -> Option<&Arrival>
    ensures { option_copied result ≡ last_due image.now }
{
    image.arrived.last()
}

/// The new team of an image that has arrived at a split, once all members have.
fn team_at(alloc: Global, images: &[Image], image: &Image) -> Result<Option<Team>, Memory>
    ensures { IfOk result (λ team. team ≡ team_of_split images.now (last_due image.now)) }
{
    let Some(arrival) = last_arrival(image) else {
        return Ok(None);
    };
    match offers(alloc, images, &arrival.team, arrival.number)? {
        None => Ok(None),
        Some(offers) => Ok(Some(group(
            alloc,
            &arrival.team,
            arrival.number,
            offers.as_slice(),
            arrival.colour,
        )?)),
    }
}

/// Goes past the split.
fn part_image(image: &mut Image, object: u32, team: Team)
    ensures { image.new ≡ parted image.old object team }
{
    image.memory.set_team(object, team);
    image.main.task.wait = None;
}

/// An image's main task goes past its split.
pub(crate) fn part(alloc: Global, images: &mut Vec<Image>, image: u32) -> Result<Stepped, Memory>
    requires { ArePlaceable images.old.items }
    ensures made { (pending : List OperationOf) → IfOk result (λ stepped. Makes (part_in (of_images images.old.items pending) image (running_in (slice_get images.old.items image))) (of_images images.old.items pending) (of_images images.new.items pending) stepped) }
    ensures memory { IfOk result (λ _. ArePlaceable images.new.items) }
{
    let Some(found) = running(images.as_slice(), image) else {
        return Ok(Stepped::NotEnabled);
    };
    let Some(object) = awaited_object(found) else {
        return Ok(Stepped::NotEnabled);
    };
    let Some(team) = team_at(alloc, images.as_slice(), found)? else {
        return Ok(Stepped::NotEnabled);
    };
    part_image(&mut images[image as usize], object, team);
    Ok(Stepped::Done)
}
