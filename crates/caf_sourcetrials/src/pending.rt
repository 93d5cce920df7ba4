use caf_base::{
    CopyOrder, EventAt, FenceClear, FinishRef, Memory, OpName, OpSpec, Section, Sequence, Stage,
    Team,
};
use caf_pending::{Operation, Pending};
use std::alloc::Global;
use std::test::Fail;

fn begun(alloc: Global, number: u32, spec: OpSpec, stages: &[Stage]) -> Result<Operation, Memory> {
    Ok(Operation {
        name: OpName { image: 1, number },
        spec,
        stages: Sequence::from_slice(alloc, stages)?,
        values: Sequence::new(alloc),
        finishes: Sequence::new(alloc),
        task: 3,
    })
}

/// A notice of image 1.
fn notice(alloc: Global, number: u32) -> Result<Operation, Memory> {
    let event = EventAt {
        image: 2,
        object: 0,
        index: 1,
    };
    begun(alloc, number, OpSpec::Notice(event), &[Stage::Notice])
}

fn at_image_1(from: i64) -> Section {
    Section {
        image: 1,
        object: 0,
        from,
        extent: 2,
    }
}

/// An implicit copy of image 1 within its own memory.
fn copy(alloc: Global, number: u32) -> Result<Operation, Memory> {
    let order = CopyOrder {
        dest: at_image_1(1),
        source: at_image_1(5),
        pre: None,
        srce: None,
        deste: None,
    };
    begun(
        alloc,
        number,
        OpSpec::Copy(order),
        &[Stage::Start, Stage::Store],
    )
}

fn clear(reads: bool, writes: bool) -> FenceClear {
    FenceClear { reads, writes }
}

/// A finish of the team of images 1 and 2.
fn finish(alloc: Global, number: u32) -> Result<FinishRef, Memory> {
    Ok(FinishRef {
        team: Team {
            path: Sequence::new(alloc),
            members: Sequence::from_slice(alloc, &[1, 2])?,
        },
        number,
    })
}

#[test]
fn the_last_takes_the_place_of_the_first(rt: HostRuntime) -> Result<(), Fail> {
    let mut pending = Pending::new(rt.alloc());
    pending.put(notice(rt.alloc(), 4)?)?;
    pending.put(notice(rt.alloc(), 5)?)?;
    pending.put(notice(rt.alloc(), 6)?)?;
    pending.remove(OpName {
        image: 1,
        number: 4,
    });
    assert_eq!(rt; pending.len(), 2);
    assert!(rt;
        pending
            .get(OpName {
                image: 1,
                number: 4
            })
            .is_none()
    );
    assert_eq!(rt; pending.at(0).ok_or("no first")?.name.number, 6);
    assert_eq!(rt; pending.at(1).ok_or("no second")?.name.number, 5);
    Ok(())
}

#[test]
fn a_fence_sees_each_stage(rt: HostRuntime) -> Result<(), Fail> {
    let alloc = rt.alloc();
    let name = OpName {
        image: 1,
        number: 7,
    };
    let mut pending = Pending::new(alloc);
    pending.put(copy(alloc, 7)?)?;
    assert_eq!(rt; pending.clear_of(1, 3), clear(false, false));
    assert_eq!(rt; pending.clear_of(1, 0), clear(true, true));
    assert_eq!(rt; pending.clear_of(3, 1), clear(true, true));
    pending.pass(alloc, name, None);
    assert_eq!(rt; pending.clear_of(1, 3), clear(true, false));
    pending.pass(alloc, name, None);
    assert_eq!(rt; pending.clear_of(1, 3), clear(true, true));
    Ok(())
}

#[test]
fn one_of_the_same_name_gives_up_its_counts(rt: HostRuntime) -> Result<(), Fail> {
    let alloc = rt.alloc();
    let mut pending = Pending::new(alloc);
    pending.put(copy(alloc, 7)?)?;
    pending.put(copy(alloc, 8)?)?;
    pending.put(notice(alloc, 8)?)?;
    assert_eq!(rt; pending.len(), 2);
    assert_eq!(rt; pending.clear_of(1, 3), clear(false, false));
    pending.remove(OpName {
        image: 1,
        number: 7,
    });
    assert_eq!(rt; pending.clear_of(1, 3), clear(true, true));
    Ok(())
}

#[test]
fn a_finish_encloses_what_was_begun_in_it(rt: HostRuntime) -> Result<(), Fail> {
    let alloc = rt.alloc();
    let name = OpName {
        image: 1,
        number: 4,
    };
    let mut inside = notice(alloc, 4)?;
    inside.finishes.push(finish(alloc, 5)?)?;
    let mut pending = Pending::new(alloc);
    pending.put(inside)?;
    assert!(rt; !pending.encloses_none(&finish(alloc, 5)?));
    assert!(rt; pending.encloses_none(&finish(alloc, 6)?));
    pending.remove(name);
    assert!(rt; pending.encloses_none(&finish(alloc, 5)?));
    Ok(())
}
