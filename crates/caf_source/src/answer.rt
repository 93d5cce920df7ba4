//! The end of a blocking operation at the image that began it.

ghost use Rattle.std.specs.Prelude.{◌≡◌, OnOk};
ghost use Rattle.caf_source.specs.Effects.{place_of_task as place_due};
ghost use Rattle.caf_source.specs.Next.{answered_at, answered_image, answered_images, answered_live};

use crate::live::place_of_task;
use crate::{Image, Live};
use caf_base::{Memory, Sequence};
use std::alloc::Global;
use std::mem;

/// A task goes on, with the value of a read.
fn answer_live(live: &mut Live, value: Option<i64>) -> Result<(), Memory>
    ensures { OnOk result (live.new ≡ answered_live value live.old) }
{
    live.task.wait = None;
    if let Some(value) = value {
        live.task.held.push(value)?;
    }
    Ok(())
}

/// A shipped task goes on, if it is live.
fn answer_shipped(
    alloc: Global,
    shipped: &mut Sequence<Live>,
    task: u32,
    value: Option<i64>,
) -> Result<(), Memory>
    ensures { OnOk result (shipped.new ≡ answered_at value shipped.old (place_due task shipped.old)) }
{
    let Some(at) = place_of_task(shipped.as_slice(), task) else {
        return Ok(());
    };
    let mut all = mem::replace(shipped, Sequence::new(alloc)).into_vec();
    answer_live(&mut all[at], value)?;
    *shipped = Sequence::from_vec(all);
    Ok(())
}

/// A task of an image goes on.
fn answer_image(
    alloc: Global,
    image: &mut Image,
    task: u32,
    value: Option<i64>,
) -> Result<(), Memory>
    ensures { OnOk result (image.new ≡ answered_image task value image.old) }
{
    if task == 0 {
        answer_live(&mut image.main, value)
    } else {
        answer_shipped(alloc, &mut image.shipped, task, value)
    }
}

/// A task of one of these images goes on.
pub(crate) fn answer(
    alloc: Global,
    images: &mut Vec<Image>,
    image: u32,
    task: u32,
    value: Option<i64>,
) -> Result<(), Memory>
    ensures { OnOk result (images.new.items ≡ answered_images image task value images.old.items) }
{
    if (image as usize) < images.len() {
        answer_image(alloc, &mut images[image as usize], task, value)?;
    }
    Ok(())
}
