//! What each kind of choice does to the images and to the operations that are pending.

ghost use Rattle.std.specs.Prelude.{◌≡◌, ◌<◌, IfOk, OnOk, is_some, length, slice_get};
ghost use Rattle.std.specs.Option.{option_copied};
ghost use Rattle.caf_pending.specs.Pending.{operation_named};
ghost use Rattle.caf_source.specs.Effects.{image_step};
ghost use Rattle.caf_source.specs.Next.{images_touched, running_in, step_in, touch_found};
ghost use Rattle.caf_source.specs.Placed.{ArePlaceable, IsDoneAt, IsReachedAt};
ghost use Rattle.caf_source.specs.Stages.{touch as touch_at};
ghost use Rattle.caf_source.specs.State.{place_of as place_at};
ghost use Rattle.caf_source.specs.Stepping.{Makes, of_images};

use crate::answer::answer;
use crate::live::step_image;
use crate::outcome::{Outcome, Touched};
use crate::pending::{apply_outcome, apply_touched};
use crate::touch::touch_stage;
use crate::{Image, Stepped};
use caf_base::{FenceClear, Memory, OpName, OpSpec, Stage};
use caf_pending::{Operation, Pending};
use caf_program::{Program, SubR};
use std::alloc::Global;

/// An image that has no trap.
pub(crate) fn running(images: &[Image], image: u32) -> Option<&Image>
    ensures { option_copied result ≡ running_in (slice_get images.now image) }
{
    match images.get(image as usize) {
        Some(found) => match found.trap {
            None => Some(found),
            Some(_) => None,
        },
        None => None,
    }
}

/// Whether an image is there and has no trap.
fn is_running(images: &[Image], image: u32) -> bool
    ensures { result ≡ is_some (running_in (slice_get images.now image)) }
{
    running(images, image).is_some()
}

/// A Step of a task at its image.
fn step_at(
    alloc: Global,
    subs: &[SubR],
    clear: FenceClear,
    images: &mut Vec<Image>,
    image: u32,
    task: u32,
) -> Result<Outcome, Memory>
    requires there { image < length images.old.items }
    requires memory { ArePlaceable images.old.items }
    ensures step { IfOk result (λ o. IsDoneAt (λ im. image_step subs.now clear image im task) image images.old.items images.new.items o) }
    ensures memory { IfOk result (λ _. ArePlaceable images.new.items) }
{
    step_image(alloc, subs, clear, image, &mut images[image as usize], task)
}

/// The next Step of a task of an image.
pub(crate) fn step_task(
    alloc: Global,
    program: &Program,
    images: &mut Vec<Image>,
    pending: &mut Pending,
    image: u32,
    task: u32,
) -> Result<Stepped, Memory>
    requires { ArePlaceable images.old.items }
    ensures made { IfOk result (λ stepped. Makes (step_in program.now (of_images images.old.items pending.old) image task (running_in (slice_get images.old.items image))) (of_images images.old.items pending.old) (of_images images.new.items pending.new) stepped) }
    ensures memory { IfOk result (λ _. ArePlaceable images.new.items) }
{
    if !is_running(images.as_slice(), image) {
        return Ok(Stepped::NotEnabled);
    }
    let clear = pending.clear_of(image, task);
    let outcome = step_at(alloc, program.subs.as_slice(), clear, images, image, task)?;
    apply_outcome(pending, outcome)
}

/// The image at which a stage of an operation is performed.
pub(crate) fn place_of(operation: &Operation, stage: Stage) -> u32
    ensures { result ≡ place_at operation.now stage }
{
    match &operation.spec {
        OpSpec::Ship { target, .. } => *target,
        OpSpec::Notice(event) => event.image,
        OpSpec::Copy(order) => match stage {
            Stage::Fetch => order.source.image,
            Stage::Store => order.dest.image,
            Stage::Ship => operation.name.image,
            Stage::Notice => operation.name.image,
            Stage::Start => operation.name.image,
            Stage::Read => operation.name.image,
            Stage::Write => operation.name.image,
        },
        OpSpec::Read(section) => section.image,
        OpSpec::Write(section, _) => section.image,
    }
}

/// The next stage of an operation.
pub(crate) fn next_stage(operation: &Operation) -> Option<Stage>
    ensures { result ≡ slice_get operation.now.stages 0 }
{
    operation.stages.get(0).copied()
}

/// A stage of an operation at its image.
fn touch_image(
    alloc: Global,
    subs: &[SubR],
    images: &mut Vec<Image>,
    image: u32,
    operation: &Operation,
    stage: Stage,
) -> Result<Touched, Memory>
    requires there { image < length images.old.items }
    requires memory { ArePlaceable images.old.items }
    ensures stage { IfOk result (λ t. IsReachedAt (λ im. touch_at subs.now image im operation.now stage) image images.old.items images.new.items t) }
    ensures memory { IfOk result (λ _. ArePlaceable images.new.items) }
{
    touch_stage(
        alloc,
        subs,
        image,
        &mut images[image as usize],
        operation,
        stage,
    )
}

/// The task of a blocking operation that is complete goes on.
#[tactic(auto, using(crate::proofs::AtImage::touched_fits))]
fn answer_touched(
    alloc: Global,
    images: &mut Vec<Image>,
    image: u32,
    task: u32,
    touched: &Touched,
) -> Result<(), Memory>
    requires { ArePlaceable images.old.items }
    ensures images { OnOk result (images.new.items ≡ images_touched touched.now image task images.old.items) }
    ensures memory { OnOk result (ArePlaceable images.new.items) }
{
    match touched {
        Touched::Refused => Ok(()),
        Touched::Trapped => Ok(()),
        Touched::Passed => Ok(()),
        Touched::Read { .. } => Ok(()),
        Touched::Completed(_) => Ok(()),
        Touched::Answered(value) => answer(alloc, images, image, task, *value),
    }
}

/// The next stage of a pending operation.
pub(crate) fn touch(
    alloc: Global,
    program: &Program,
    images: &mut Vec<Image>,
    pending: &mut Pending,
    name: OpName,
) -> Result<Stepped, Memory>
    requires { ArePlaceable images.old.items }
    ensures made { IfOk result (λ stepped. Makes (touch_found program.now (of_images images.old.items pending.old) (operation_named name pending.old)) (of_images images.old.items pending.old) (of_images images.new.items pending.new) stepped) }
    ensures memory { IfOk result (λ _. ArePlaceable images.new.items) }
{
    let Some(operation) = pending.get(name) else {
        return Ok(Stepped::NotEnabled);
    };
    let Some(stage) = next_stage(operation) else {
        return Ok(Stepped::NotEnabled);
    };
    let image = place_of(operation, stage);
    if !is_running(images.as_slice(), image) {
        return Ok(Stepped::NotEnabled);
    }
    let subs = program.subs.as_slice();
    let touched = touch_image(alloc, subs, images, image, operation, stage)?;
    let name = operation.name;
    answer_touched(alloc, images, name.image, operation.task, &touched)?;
    apply_touched(alloc, pending, name, touched)
}
