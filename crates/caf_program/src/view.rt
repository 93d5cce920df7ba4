ghost use Rattle.std.specs.Prelude.{◌≡◌, ◌==◌, [], length, position, slice_get, slice_index_or, pos};
ghost use Rattle.std.specs.Option.{option_copied};
ghost use Rattle.caf_base.specs.Element.{element_at};
ghost use Rattle.caf_base.specs.Team.{rank_or_first};
ghost use Rattle.caf_program.specs.Seen.{element, scalar, local, held, team_rank, team_size};
ghost use Rattle.caf_program.specs.View.{seen};

use crate::TeamR;
use caf_base::{Object, Sequence, Team, Trap};

/// What an expression is evaluated over: parts of an image's memory and of a task, lent.
#[derive(Clone, Copy)]
pub struct View<'a> {
    /// The objects of the program.
    pub objects: &'a [Object],
    /// The image's cells of each object, in the order of the objects.
    pub cells: &'a [Sequence<i64>],
    /// The cells of the task's frame.
    pub locals: &'a [i64],
    /// The values already read that the expression uses, in post-order and written order.
    pub held: &'a [i64],
    /// The image's number.
    pub image: u32,
    /// How many images there are.
    pub images: u32,
    /// The team of each object, none where it is unset or the object is no team.
    pub teams: &'a [Option<Team>],
}

/// The number at a place, or 0 past the end.
fn number_at(numbers: &[i64], at: usize) -> i64
    ensures { result ≡ slice_index_or numbers.now at (pos 0) }
{
    match numbers.get(at) {
        Some(number) => *number,
        None => 0,
    }
}

/// An object's element at an index, where `row` holds its cells.
fn cell(object: &Object, row: &[i64], index: i64) -> Result<i64, Trap>
    ensures { result ≡ element_at (Some object.now) row.now index }
{
    if index < object.lower {
        return Err(Trap::Index);
    }
    let offset = index.abs_diff(object.lower);
    if offset < u64::from(object.extent) {
        Ok(number_at(row, offset as usize))
    } else {
        Err(Trap::Index)
    }
}

impl View<'_> {
    /// The element of an object at an index, or trap `Index` outside its bounds.
    pub fn element(&self, object: u32, index: i64) -> Result<i64, Trap>
        ensures { result ≡ element (seen self.now) object index }
    {
        match self.object(object) {
            Some(found) => cell(found, self.row(object), index),
            None => Err(Trap::Index),
        }
    }

    fn object(&self, object: u32) -> Option<&Object>
        ensures { option_copied result ≡ slice_get self.now.objects.now object }
    {
        self.objects.get(object as usize)
    }

    /// The image's cells of an object.
    fn row(&self, object: u32) -> &[i64]
        ensures { result.now ≡ slice_index_or self.now.cells.now object [] }
    {
        match self.cells.get(object as usize) {
            Some(row) => row.as_slice(),
            None => &[],
        }
    }

    /// A scalar: the element at index 1.
    pub fn scalar(&self, object: u32) -> Result<i64, Trap>
        ensures { result ≡ scalar (seen self.now) object }
    {
        self.element(object, 1)
    }

    /// A cell of the frame.
    pub fn local(&self, at: u32) -> i64
        ensures { result ≡ local (seen self.now) at }
    {
        number_at(self.locals, at as usize)
    }

    /// A value that was read already.
    pub fn held(&self, at: usize) -> i64
        ensures { result ≡ held (seen self.now) at }
    {
        number_at(self.held, at)
    }

    /// The image's rank in a team, or trap `Team` where it is unset.
    pub fn team_rank(&self, team: TeamR) -> Result<i64, Trap>
        ensures { result ≡ team_rank (seen self.now) team }
    {
        match team {
            TeamR::World => Ok(i64::from(self.image)),
            TeamR::Object(object) => match self.team(object) {
                Some(team) => Ok(rank(team.members.as_slice(), self.image)),
                None => Err(Trap::Team),
            },
        }
    }

    /// The number of members of a team, or trap `Team` where it is unset.
    pub fn team_size(&self, team: TeamR) -> Result<i64, Trap>
        ensures { result ≡ team_size (seen self.now) team }
    {
        match team {
            TeamR::World => Ok(i64::from(self.images)),
            TeamR::Object(object) => match self.team(object) {
                Some(team) => Ok(size(team.members.as_slice())),
                None => Err(Trap::Team),
            },
        }
    }

    /// The team of an object.
    fn team(&self, object: u32) -> Option<&Team>
        ensures { option_copied result ≡ slice_index_or self.now.teams.now object None }
    {
        match self.teams.get(object as usize) {
            Some(Some(team)) => Some(team),
            _ => None,
        }
    }
}

/// The first place of an image among members, or 0 where it is no member.
fn rank(members: &[u32], image: u32) -> i64
    ensures { result ≡ pos (rank_or_first members.now image) }
{
    match place(members, image) {
        Some(at) => at as i64,
        None => 0,
    }
}

/// The first place of an image among members.
fn place(members: &[u32], image: u32) -> Option<usize>
    ensures { result ≡ position (λ member. member == image) members.now }
{
    members.iter().position(|member| *member == image)
}

/// How many members there are.
fn size(members: &[u32]) -> i64
    ensures { result ≡ pos (length members.now) }
{
    members.len() as i64
}
