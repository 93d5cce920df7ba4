use crate::{Given, Summer, parent};
use std::test::Fail;

#[test]
fn the_sum_is_there_with_the_last_part(rt: HostRuntime) -> Result<(), Fail> {
    let mut summer = Summer::new(rt.alloc(), 3, 0)?;
    assert_eq!(rt; summer.give(1, 5), Given::Waiting);
    assert_eq!(rt; summer.give(0, -2), Given::Waiting);
    assert_eq!(rt; summer.total(), None);
    assert_eq!(rt; summer.give(2, 4), Given::Whole(7));
    assert_eq!(rt; summer.total(), Some(7));
    summer.reset();
    assert_eq!(rt; summer.total(), None);
    assert_eq!(rt; summer.give(2, 1), Given::Waiting);
    Ok(())
}

#[test]
fn a_rank_without_children_waits_for_none(rt: HostRuntime) -> Result<(), Fail> {
    assert_eq!(rt; parent(3, 2), 0);
    let mut summer = Summer::new(rt.alloc(), 3, 2)?;
    assert_eq!(rt; summer.total(), None);
    assert_eq!(rt; summer.give(2, -9), Given::Whole(-9));
    Ok(())
}
