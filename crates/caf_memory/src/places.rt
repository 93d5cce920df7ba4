ghost use Rattle.std.specs.Prelude.{◌≡◌, Ok, Err, IfSome};
ghost use Rattle.std.specs.Option.{option_copied};
ghost use Rattle.caf_base.specs.declared.operation.Section.{Section};
ghost use Rattle.caf_base.specs.Places.{within as tested, is_rank as in_ranks, member_of as member, pointed_in as points};
ghost use Rattle.caf_memory.specs.Placed.{EndsWithin};

use crate::bounds::has_index;
use crate::span::moved;
use caf_base::{Object, Section, Team, Trap};

// An index of an object; trap `Index` outside its bounds.
pub fn within(object: Option<Object>, index: i64) -> Result<i64, Trap>
    ensures { result ≡ tested object index }
{
    match object {
        Some(object) => {
            if has_index(object, index) {
                Ok(index)
            } else {
                Err(Trap::Index)
            }
        }
        None => Err(Trap::Index),
    }
}

// Whether a team of so many members has the rank.
pub fn is_rank(size: usize, rank: i64) -> bool
    ensures { result ≡ in_ranks size rank }
{
    if rank < 0 {
        return false;
    }
    rank.unsigned_abs() < size as u64
}

// The member with a rank; trap `Team` where the team is unset, and then `Rank`.
pub fn member_of(team: Option<&Team>, rank: i64) -> Result<u32, Trap>
    ensures { result ≡ member (option_copied team.entry) rank }
{
    let Some(team) = team else {
        return Err(Trap::Team);
    };
    let members = team.members.as_slice();
    if is_rank(members.len(), rank) {
        Ok(members[rank.unsigned_abs() as usize])
    } else {
        Err(Trap::Rank)
    }
}

// One element of what a copointer aims at, counted from 1.
pub fn pointed_in(aim: Option<Section>, index: i64) -> Result<Section, Trap>
    requires { IfSome aim (λ (s : Section). EndsWithin s.from s.extent) }
    ensures { result ≡ points aim index }
{
    let Some(aim) = aim else {
        return Err(Trap::Copointer);
    };
    if index < 1 {
        return Err(Trap::Index);
    }
    if i64::from(aim.extent) < index {
        return Err(Trap::Index);
    }
    Ok(moved(aim, index, 1))
}
