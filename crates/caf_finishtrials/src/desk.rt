use caf_base::{FinishRef, Sequence, Team};
use caf_finish::{Counted, FinishDesk, Four, Given};
use std::test::Fail;

#[test]
fn an_image_alone_leaves_after_one_wave(rt: HostRuntime) -> Result<(), Fail> {
    let alloc = rt.alloc();
    let f = FinishRef {
        team: Team {
            path: Sequence::new(alloc),
            members: Sequence::from_slice(alloc, &[4])?,
        },
        number: 1,
    };
    let mut desk = FinishDesk::new(alloc, 4);
    assert!(rt; !desk.knows(&f));
    desk.know(&f)?;
    assert!(rt; desk.knows(&f));
    assert_eq!(rt; (desk.wave(&f), desk.epoch(&f)), (0, 0));
    desk.count(&f, Counted::Sent, 0);
    assert!(rt; !desk.may_contribute(&f));
    desk.count(&f, Counted::Received, 0);
    desk.count(&f, Counted::Completed, 0);
    desk.count(&f, Counted::Delivered, 0);
    assert!(rt; desk.may_contribute(&f));
    let four = Four {
        sent: 1,
        delivered: 1,
        received: 1,
        completed: 1,
    };
    let (given, sum) = desk.contribute(&f);
    assert_eq!(rt; given, four);
    assert_eq!(rt; sum, Given::Whole(0));
    assert_eq!(rt; desk.epoch(&f), 1);
    desk.result(&f, 0);
    assert!(rt; desk.may_leave(&f) && !desk.may_contribute(&f));
    desk.leave(&f);
    assert!(rt; !desk.knows(&f));
    Ok(())
}

#[test]
fn a_message_under_way_asks_for_another_wave(rt: HostRuntime) -> Result<(), Fail> {
    let alloc = rt.alloc();
    let f = FinishRef {
        team: Team {
            path: Sequence::new(alloc),
            members: Sequence::from_slice(alloc, &[0, 1])?,
        },
        number: 0,
    };
    let mut first = FinishDesk::new(alloc, 0);
    let mut second = FinishDesk::new(alloc, 1);
    first.know(&f)?;
    second.know(&f)?;
    first.count(&f, Counted::Sent, 0);
    assert_eq!(rt; second.contribute(&f).1, Given::Whole(0));
    second.count(&f, Counted::Received, 0);
    second.count(&f, Counted::Completed, 0);
    first.count(&f, Counted::Delivered, 0);
    assert_eq!(rt; first.contribute(&f).1, Given::Waiting);
    assert_eq!(rt; first.relay(&f, 1, 0), Given::Whole(1));
    first.result(&f, 1);
    second.result(&f, 1);
    assert!(rt; !first.may_leave(&f));
    assert_eq!(rt; second.contribute(&f).1, Given::Whole(-1));
    assert_eq!(rt; first.relay(&f, 1, -1), Given::Waiting);
    assert_eq!(rt; first.contribute(&f).1, Given::Whole(0));
    Ok(())
}
