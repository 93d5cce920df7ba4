use crate::EventCell;
use caf_base::Trap;
use std::test::Fail;

#[test]
fn an_event_counts_up_to_its_limit_and_down_to_none(rt: HostRuntime) -> Result<(), Fail> {
    for (before, answer, after) in [
        (0, Ok(()), 1),
        (65_534, Ok(()), 65_535),
        (65_535, Err(Trap::Posts), 65_535),
        (70_000, Err(Trap::Posts), 70_000),
    ] {
        let mut event = EventCell { posts: before };
        assert!(rt; event.post() == answer, "a post at {before}");
        assert_eq!(rt; event.posts, after, "posts after a post at {before}");
    }
    for (before, answer, after) in [(0, false, 0), (1, true, 0), (65_535, true, 65_534)] {
        let mut event = EventCell { posts: before };
        assert_eq!(rt; event.take(), answer, "a take at {before}");
        assert_eq!(rt; event.posts, after, "posts after a take at {before}");
    }
    Ok(())
}
