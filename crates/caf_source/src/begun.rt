//! Operations that are begun at an image.

ghost use Rattle.std.specs.Prelude.{◌≡◌, ◌<◌, ◌&&◌, [], ◌∷◌, ◌++◌, IfOk, nat_eq};
ghost use Rattle.std.specs.List.{list_all, list_any};
ghost use Rattle.caf_base.specs.Operations.{image_of_event, is_counted, stages_of as stages_due};
ghost use Rattle.caf_source.specs.Begun.{is_outside as names_outside, is_spent as spent, notice_of, operation_of as operation_by};
ghost use Rattle.caf_source.specs.Noticing.{IsNoticed};

use crate::Image;
use caf_base::{EventAt, FinishRef, Memory, OpName, OpSpec, Sequence, Stage, Trap};
use caf_pending::Operation;
use caf_treestep::Fault;
use std::alloc::Global;

/// Whether an image has no operation number left.
pub(crate) fn is_spent(image: &Image) -> bool
    ensures { result ≡ spent image.now }
{
    image.operations >= 65_535
}

fn is_inside(members: &[u32], image: u32) -> bool
    ensures { result ≡ list_any (nat_eq image) members.now }
{
    members.iter().any(|member| image == *member)
}

/// Whether the image of an event is a member, if there is one.
fn is_event_inside(members: &[u32], event: Option<EventAt>) -> bool
    ensures { result ≡ list_all (λ i. list_any (nat_eq i) members.now) (image_of_event event) }
{
    match event {
        None => true,
        Some(event) => is_inside(members, event.image),
    }
}

/// Whether a counted operation names an image that isn't in the team of the innermost of these finishes.
#[tactic(auto, using(crate::proofs::Listed::all_both))]
pub(crate) fn is_outside(finishes: &[FinishRef], what: &OpSpec) -> bool
    ensures { result ≡ names_outside finishes.now what.now }
{
    let Some(innermost) = finishes.get(0) else {
        return false;
    };
    let members = innermost.team.members.as_slice();
    match what {
        OpSpec::Ship { target, done, .. } => {
            !(is_event_inside(members, *done) && is_inside(members, *target))
        }
        OpSpec::Notice(event) => !is_inside(members, event.image),
        OpSpec::Copy(order) => {
            !(is_inside(members, order.dest.image)
                && (is_inside(members, order.source.image)
                    && (is_event_inside(members, order.srce)
                        && is_event_inside(members, order.deste))))
        }
        OpSpec::Read(_) => false,
        OpSpec::Write(..) => false,
    }
}

/// The stages of an operation that an image begins.
fn stages_of(alloc: Global, image: u32, what: &OpSpec) -> Result<Sequence<Stage>, Memory>
    ensures { IfOk result (λ stages. stages ≡ stages_due image what.now) }
{
    match what {
        OpSpec::Ship { .. } => Sequence::from_slice(alloc, &[Stage::Ship]),
        OpSpec::Notice(_) => Sequence::from_slice(alloc, &[Stage::Notice]),
        OpSpec::Copy(order) => {
            if order.source.image == image {
                Sequence::from_slice(alloc, &[Stage::Start, Stage::Store])
            } else {
                Sequence::from_slice(alloc, &[Stage::Start, Stage::Fetch, Stage::Store])
            }
        }
        OpSpec::Read(_) => Sequence::from_slice(alloc, &[Stage::Read]),
        OpSpec::Write(..) => Sequence::from_slice(alloc, &[Stage::Write]),
    }
}

/// The same finishes again.
pub(crate) fn copy_finishes(
    alloc: Global,
    finishes: &[FinishRef],
) -> Result<Sequence<FinishRef>, Memory>
    ensures { IfOk result (λ copies. copies ≡ finishes.now) }
{
    let mut copies = Sequence::new(alloc);
    for finish in finishes {
        copies.push(FinishRef::copy_of(alloc, finish)?)?;
    }
    Ok(copies)
}

/// The operation that an image begins with the number after those that it has begun.
pub(crate) fn operation_of(
    alloc: Global,
    image: u32,
    begun: u32,
    what: OpSpec,
    finishes: &[FinishRef],
    task: u32,
) -> Result<Operation, Memory>
    requires { begun < 65535 }
    ensures { IfOk result (λ operation. operation ≡ operation_by image begun what finishes.now task) }
{
    let stages = stages_of(alloc, image, &what)?;
    Ok(Operation {
        name: OpName {
            image,
            number: begun + 1,
        },
        spec: what,
        stages,
        values: Sequence::new(alloc),
        finishes: copy_finishes(alloc, finishes)?,
        task,
    })
}

/// Begins the notice to an event, if one is given; trap `Operations` where no number is left, and then nothing changes.
pub(crate) fn notice(
    alloc: Global,
    number: u32,
    image: &mut Image,
    finishes: &[FinishRef],
    task: u32,
    event: Option<EventAt>,
) -> Result<Option<Operation>, Fault>
    ensures notice { IsNoticed (notice_of number image.old finishes.now task event) result image.old image.new }
    ensures memory { image.new.memory ≡ image.old.memory }
{
    let Some(event) = event else {
        return Ok(None);
    };
    if is_spent(image) {
        return Err(Fault::Trap(Trap::Operations));
    }
    let what = OpSpec::Notice(event);
    let operation = operation_of(alloc, number, image.operations, what, finishes, task)?;
    image.operations += 1;
    Ok(Some(operation))
}
