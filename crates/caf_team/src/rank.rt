ghost use Rattle.std.specs.Prelude.{◌≡◌, ◌<◌, ◌^◌, ◌↔◌, length, IsSome, IfSome, Contains};
ghost use Rattle.caf_base.specs.Team.{rank_in};

use caf_base::Team;

/// The rank of an image in a team: its first place among the members, from 0, and `None` for an image that isn't a
/// member. It takes time in proportion to the team.
pub fn rank_of(team: &Team, image: u32) -> Option<u32>
    requires { length team.now.members < 2 ^ 32 }
    ensures rank { result ≡ rank_in team.now.members image }
    ensures member { IsSome result ↔ Contains team.now.members image }
    ensures within { IfSome result (λ rank. rank < length team.now.members) }
{
    let place = place_of(team.members.as_slice(), image)?;
    Some(place as u32)
}

// The first place of the image.
fn place_of(members: &[u32], image: u32) -> Option<usize>
    ensures rank { result ≡ rank_in members.now image }
    ensures member { IsSome result ↔ Contains members.now image }
    ensures within { IfSome result (λ place. place < length members.now) }
{
    members.iter().position(|member| *member == image)
}
