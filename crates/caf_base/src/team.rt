ghost use Rattle.std.specs.Prelude.{◌≡◌, ◌↔◌, IsTrue, IfOk};
ghost use Rattle.caf_base.specs.FinishRef.{same_finish};

use crate::{Memory, Sequence};
use std::alloc::Global;

/// A team of images, after the teams of Coarray Fortran 2.0 (Mellor-Crummey, Adhianto, Scherer and Jin, PGAS 2009).
#[derive(Debug, Drop, PartialEq, Eq)]
pub struct Team {
    /// The splits that led to the team from `team_world`, which has the empty path: the number of each split, and
    /// the colour.
    pub path: Sequence<(u32, i64)>,
    /// The image numbers of the members. The place of a member, from 0, is its rank.
    pub members: Sequence<u32>,
}

impl Team {
    /// A copy of a team.
    pub fn copy_of(alloc: Global, team: &Team) -> Result<Team, Memory>
        ensures { IfOk result (λ copy. copy ≡ team.now) }
    {
        Ok(Team {
            path: Sequence::from_slice(alloc, team.path.as_slice())?,
            members: Sequence::from_slice(alloc, team.members.as_slice())?,
        })
    }
}

/// One finish of a team, by its number from 1 among the team's finishes; number 0 of `team_world` is the body of
/// the program.
#[derive(Debug, Drop, PartialEq, Eq)]
pub struct FinishRef {
    pub team: Team,
    pub number: u32,
}

impl FinishRef {
    /// A copy of a finish's name.
    pub fn copy_of(alloc: Global, finish: &FinishRef) -> Result<FinishRef, Memory>
        ensures { IfOk result (λ copy. copy ≡ finish.now) }
    {
        Ok(FinishRef {
            team: Team::copy_of(alloc, &finish.team)?,
            number: finish.number,
        })
    }

    /// Whether the two are equal: one team, with one path and the same members, and one number.
    pub fn is_same(&self, other: &FinishRef) -> bool
        ensures same { IsTrue result ↔ (self.now ≡ other.now) }
        ensures test { result ≡ same_finish self.now other.now }
    {
        self == other
    }
}
