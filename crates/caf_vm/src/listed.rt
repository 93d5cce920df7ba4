//! The sections and events that a statement has listed.

ghost use Rattle.std.specs.Prelude.{◌≡◌, ◌∷◌, [], List, Some, map, slice_get, IsTrue};
ghost use Rattle.caf_base.specs.ImageMemory.{ImageMemory};
ghost use Rattle.caf_base.specs.declared.place.CopyEvents.{CopyEvents};
ghost use Rattle.caf_base.specs.declared.place.SectionWanted.{SectionWanted};
ghost use Rattle.caf_code.specs.Did.{Did};
ghost use Rattle.caf_code.specs.Operations.{copy_events as events_of, event_for as first_event, on_section, on_sections, role_number, same_role};
ghost use Rattle.caf_code.specs.Shapes.{IsSection, is_copy, is_one_section, sort_of};
ghost use Rattle.caf_code.specs.declared.task.Listed.TheVariants as listed;
ghost use Rattle.caf_vm.specs.Draft.{task_in};

use crate::Task;
use crate::draft::Draft;
use caf_base::{CopyEvents, EventWanted, SectionWanted};
use caf_code::{Listed, Role};

// What is listed at a place.
fn listed_at(draft: &Draft, task: &Task, at: usize) -> Option<Listed>
    ensures { result ≡ slice_get (task_in draft.now task.now).frame.listed at }
{
    let before = task.listed();
    if at < before.len() {
        before.get(at).copied()
    } else {
        draft.listed.as_slice().get(at - before.len()).copied()
    }
}

// The section that is listed at a place.
fn section_at(draft: &Draft, task: &Task, at: usize) -> SectionWanted
    requires { slice_get (map sort_of (task_in draft.now task.now).frame.listed) at ≡ Some IsSection }
    ensures { slice_get (task_in draft.now task.now).frame.listed at ≡ Some (listed.Section result) }
{
    match listed_at(draft, task, at) {
        Some(Listed::Section(wanted)) => wanted,
        _ => unreachable!(),
    }
}

// The one section that is listed.
pub fn one_section(draft: &Draft, task: &Task) -> SectionWanted
    requires { IsTrue (is_one_section (map sort_of (task_in draft.now task.now).frame.listed)) }
    ensures { (m : ImageMemory) (go : SectionWanted → Did) → on_section (task_in draft.now task.now).frame.listed m go ≡ go result }
{
    section_at(draft, task, 0)
}

// The destination and the source of the copy that is listed, and its events.
pub fn listed_copy(draft: &Draft, task: &Task) -> (SectionWanted, SectionWanted, CopyEvents)
    requires { IsTrue (is_copy (map sort_of (task_in draft.now task.now).frame.listed)) }
    ensures { (m : ImageMemory) (go : SectionWanted → SectionWanted → CopyEvents → Did) → on_sections (task_in draft.now task.now).frame.listed m (λ dest source events. go dest source (events_of events)) ≡ go result.0 result.1 result.2 }
{
    (
        section_at(draft, task, 0),
        section_at(draft, task, 1),
        copy_events(draft, task),
    )
}

// The events of a copy that are listed.
fn copy_events(draft: &Draft, task: &Task) -> CopyEvents
    ensures { result ≡ events_of (task_in draft.now task.now).frame.listed }
{
    CopyEvents {
        pre: event_for(draft, task, Role::Pre),
        srce: event_for(draft, task, Role::Srce),
        deste: event_for(draft, task, Role::Deste),
    }
}

// The first event of a role.
#[tactic(auto, using(crate::proofs::Wanted::event_behind))]
pub fn event_for(draft: &Draft, task: &Task, role: Role) -> Option<EventWanted>
    ensures { result ≡ first_event role (task_in draft.now task.now).frame.listed }
{
    match event_in(task.listed(), role) {
        Some(event) => Some(event),
        None => event_in(draft.listed.as_slice(), role),
    }
}

// The first event of a role in a list.
#[tactic(auto, using(crate::proofs::Wanted::event_first, crate::proofs::Wanted::event_later))]
fn event_in(items: &[Listed], role: Role) -> Option<EventWanted>
    ensures { result ≡ first_event role items.now }
{
    for item in items {
        if let Some(event) = event_of(*item, role) {
            return Some(event);
        }
    }
    None
}

// The event, if it has the role.
fn event_of(item: Listed, role: Role) -> Option<EventWanted>
    ensures { result ≡ first_event role (item ∷ []) }
{
    match item {
        Listed::Section(_) => None,
        Listed::Event(found, event) => {
            if number_of(found) == number_of(role) {
                Some(event)
            } else {
                None
            }
        }
    }
}

// The number of a role.
fn number_of(role: Role) -> u8
    ensures { result ≡ role_number role }
{
    match role {
        Role::Pre => 0,
        Role::Srce => 1,
        Role::Deste => 2,
        Role::Done => 3,
    }
}
