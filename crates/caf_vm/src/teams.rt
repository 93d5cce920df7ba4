//! What the instructions do that speak of teams.

ghost use Rattle.std.specs.Prelude.{◌≡◌, ◌<◌, ◌≤◌, ◌^◌, [], length, IfOk};
ghost use Rattle.caf_base.specs.Places.{below};
ghost use Rattle.caf_code.specs.Teams.{does_finish, does_split, team_named};
ghost use Rattle.caf_vm.specs.Draft.{memory_in, task_in};
ghost use Rattle.caf_vm.specs.Left.{after_of, left_by};
ghost use Rattle.caf_vm.specs.Went.{Tested};

use crate::draft::Draft;
use crate::ends::{finish, trap};
use crate::stop::Stop;
use crate::{Memory, Task};
use caf_base::{Effect, Sequence, Team, Trap};
use caf_code::{TeamName, Wait};
use caf_memory::ImageMemory;
use std::alloc::Global;

pub fn enter_finish(
    draft: Draft,
    task: &mut Task,
    memory: &mut ImageMemory,
    name: TeamName,
) -> Result<Effect, Memory>
    requires { draft.address < 2 ^ 63 }
    ensures { IfOk result (λ e. after_of e task.new memory.new ≡ left_by (does_finish name (task_in draft task.old) (memory_in draft memory.old)) task.old memory.old) }
{
    match named_team(draft.alloc, memory, name) {
        Ok(team) => finish(draft, task, memory, Effect::Enters(team)),
        Err(Stop::Trap(cause)) => Ok(trap(&draft, memory, cause)),
        Err(Stop::Memory) => Err(Memory),
    }
}

pub fn split(
    mut draft: Draft,
    task: &mut Task,
    memory: &mut ImageMemory,
    name: TeamName,
    new: u32,
) -> Result<Effect, Memory>
    requires room { draft.address < 2 ^ 63 }
    requires ready { 2 ≤ length (task_in draft task.old).frame.stack }
    ensures { IfOk result (λ e. after_of e task.new memory.new ≡ left_by (does_split name new (task_in draft task.old) (memory_in draft memory.old)) task.old memory.old) }
{
    let key = draft.pop(task);
    let colour = draft.pop(task);
    match named_team(draft.alloc, memory, name) {
        Ok(team) => {
            let arrives = Effect::Arrives {
                team,
                colour,
                key,
                new,
            };
            let effect = finish(draft, task, memory, arrives)?;
            task.wait_for(Wait::NewTeam(new));
            Ok(effect)
        }
        Err(Stop::Trap(cause)) => Ok(trap(&draft, memory, cause)),
        Err(Stop::Memory) => Err(Memory),
    }
}

// A copy of a team; trap `Team` where it is unset.
fn named_team(alloc: Global, memory: &ImageMemory, name: TeamName) -> Result<Team, Stop>
    ensures { Tested result (team_named memory.now name) }
{
    match name {
        TeamName::World => Ok(world(alloc, memory.images())?),
        TeamName::Object(object) => match memory.team(object) {
            Some(team) => Ok(Team::copy_of(alloc, team)?),
            None => Err(Stop::Trap(Trap::Team)),
        },
    }
}

// The team of all images.
fn world(alloc: Global, images: u32) -> Result<Team, Memory>
    ensures { IfOk result (λ team. team ≡ record { path = []; members = below images }) }
{
    let mut members = Sequence::new(alloc);
    for image in 0..images {
        members.push(image)?;
    }
    Ok(Team {
        path: Sequence::new(alloc),
        members,
    })
}
