use crate::rank_of;
use caf_base::{Sequence, Team};
use std::test::Fail;

#[test]
fn a_rank_is_the_first_place_of_a_member(rt: HostRuntime) -> Result<(), Fail> {
    let alloc = rt.alloc();
    let team = Team {
        path: Sequence::from_slice(alloc, &[(1, -4)])?,
        members: Sequence::from_slice(alloc, &[6, 0, 9, 0])?,
    };
    for (image, want) in [(6, Some(0)), (0, Some(1)), (9, Some(2)), (1, None)] {
        assert!(rt; team.members.len() < 5);
        assert_eq!(rt; rank_of(&team, image), want, "image {image}");
    }
    Ok(())
}
