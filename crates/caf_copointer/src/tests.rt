use crate::CoPtr;
use caf_base::{Section, Trap};
use std::test::Fail;

#[test]
fn an_index_is_counted_from_1_within_the_section(rt: HostRuntime) -> Result<(), Fail> {
    let section = Section {
        image: 3,
        object: 7,
        from: -2,
        extent: 4,
    };
    let copointer = CoPtr::aim(section);
    assert_eq!(rt; (copointer.image, copointer.object), (3, 7));
    for (index, want) in [
        (0, Err(Trap::Index)),
        (1, Ok(-2)),
        (4, Ok(1)),
        (5, Err(Trap::Index)),
        (i64::MIN, Err(Trap::Index)),
        (i64::MAX, Err(Trap::Index)),
    ] {
        assert!(rt; copointer.at(index) == want, "index {index}");
    }
    let last = CoPtr {
        image: 0,
        object: 0,
        from: i64::MAX,
        extent: 1,
    };
    assert!(rt; last.at(1) == Ok(i64::MAX));
    Ok(())
}
