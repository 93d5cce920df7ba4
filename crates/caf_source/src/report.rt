//! How a state stands, and what a report tells of it.

ghost use Rattle.std.specs.Prelude.{◌≡◌, [], IfOk};
ghost use Rattle.std.specs.List.{list_any};
ghost use Rattle.caf_history.specs.Finishes.{is_program_finish as is_body};
ghost use Rattle.caf_source.specs.Ending.{ending_of};
ghost use Rattle.caf_source.specs.Run.{has_trapped as any_trapped, is_done as all_done, summary_of as told_of};
ghost use Rattle.caf_source.specs.Stepping.{of_images};

use crate::Image;
use crate::going::can_go;
use caf_base::{Ending, ImageSummary, Memory, Sequence, Text};
use caf_pending::Pending;
use caf_program::SubR;
use std::alloc::Global;

/// Whether an image's main task has left the program's finish.
fn has_left_program(image: &Image) -> bool
    ensures { result ≡ list_any is_body image.now.left }
{
    image.left.has_program()
}

/// What a report tells of an image.
pub(crate) fn summary_of(alloc: Global, image: &Image) -> Result<ImageSummary, Memory>
    ensures { IfOk result (λ summary. summary ≡ told_of image.now) }
{
    let mut lines = Sequence::new(alloc);
    for line in image.memory.lines() {
        lines.push(Text::copy_of(alloc, line.as_str())?)?;
    }
    Ok(ImageSummary {
        lines,
        trap: image.trap,
    })
}

fn has_trapped(images: &[Image]) -> bool
    ensures { result ≡ any_trapped (of_images images.now []) }
{
    images.iter().any(|image| image.trap.is_some())
}

fn is_done(images: &[Image]) -> bool
    ensures { result ≡ all_done (of_images images.now []) }
{
    images.iter().all(|image| has_left_program(image))
}

/// How a state stands.
pub(crate) fn ending(subs: &[SubR], images: &[Image], pending: &Pending) -> Result<Ending, Memory>
    ensures { IfOk result (λ ending. ending ≡ ending_of subs.now (of_images images.now pending.now)) }
{
    if has_trapped(images) {
        return Ok(Ending::Trapped);
    }
    if is_done(images) {
        return Ok(Ending::Done);
    }
    if can_go(subs, images, pending)? {
        return Ok(Ending::Going);
    }
    Ok(Ending::Stuck)
}
