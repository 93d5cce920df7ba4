use caf_base::{EventWanted, Kind, Object, Place, SectionRange, SectionWanted, Text, Trap};
use caf_memory::{ImageMemory, LineFault, Memory, SectionFault};
use std::alloc::Global;
use std::test::Fail;

// An array from -1 to 1, a longer one, an array of two events, and a copointer.
const OBJECTS: [Object; 4] = [
    Object {
        kind: Kind::Integer,
        lower: -1,
        extent: 3,
        shared: true,
    },
    Object {
        kind: Kind::Logical,
        lower: 1,
        extent: 300,
        shared: true,
    },
    Object {
        kind: Kind::Event,
        lower: 1,
        extent: 2,
        shared: true,
    },
    Object {
        kind: Kind::CoInteger,
        lower: 1,
        extent: 1,
        shared: true,
    },
];

#[test]
fn an_element_is_written_within_its_bounds(rt: HostRuntime) -> Result<(), Fail> {
    let mut memory = ImageMemory::new(rt.alloc(), &OBJECTS, 1, 4)?;
    for (index, done) in [
        (-2, false),
        (-1, true),
        (1, true),
        (2, false),
        (i64::MIN, false),
    ] {
        let want = if done { Ok(()) } else { Err(Trap::Index) };
        assert!(rt; memory.write(0, index, 7) == want, "a write at {index}");
    }
    for (index, want) in [
        (-2, None),
        (-1, Some(7)),
        (0, Some(0)),
        (1, Some(7)),
        (2, None),
    ] {
        assert!(rt; memory.read(0, index).ok() == want, "a read at {index}");
    }
    Ok(())
}

/// How many elements of a section are read, or the trap.
fn count_read(
    alloc: Global,
    memory: &ImageMemory,
    object: u32,
    from: i64,
    extent: u32,
) -> Result<Result<usize, Trap>, Memory> {
    match memory.read_section(alloc, object, from, extent) {
        Ok(values) => Ok(Ok(values.len())),
        Err(SectionFault::Trap(trap)) => Ok(Err(trap)),
        Err(SectionFault::Memory) => Err(Memory),
    }
}

/// The object of a section, its first index, its number of elements, and what comes of reading it.
const READS: [(u32, i64, u32, Result<usize, Trap>); 7] = [
    (0, -1, 3, Ok(3)),
    (0, 0, 3, Err(Trap::Index)),
    (0, -2, 1, Err(Trap::Index)),
    (0, 50, 0, Ok(0)),
    (1, 45, 256, Ok(256)),
    (1, 44, 257, Err(Trap::Section)),
    (1, 46, 256, Err(Trap::Index)),
];

#[test]
fn a_section_is_read_within_its_bounds_and_its_limit(rt: HostRuntime) -> Result<(), Fail> {
    let alloc = rt.alloc();
    let memory = ImageMemory::new(alloc, &OBJECTS, 1, 4)?;
    for (object, from, extent, want) in &READS {
        let got = count_read(alloc, &memory, *object, *from, *extent)?;
        assert!(rt;
            got == *want,
            "{extent} elements of object {object} from {from}"
        );
    }
    Ok(())
}

#[test]
fn numbers_are_put_in_the_place_of_a_section(rt: HostRuntime) -> Result<(), Fail> {
    let mut memory = ImageMemory::new(rt.alloc(), &OBJECTS, 1, 4)?;
    assert!(rt; memory.write_section(0, 0, &[5, 6]) == Ok(()));
    let row: &[i64] = memory.cells()[0].as_slice();
    assert_eq!(rt; row, [0, 5, 6].as_slice());
    Ok(())
}

const PLACES: [(Place, Result<u32, Trap>); 5] = [
    (Place::Own, Ok(1)),
    (Place::World(3), Ok(3)),
    (Place::World(4), Err(Trap::Rank)),
    (Place::World(-1), Err(Trap::Rank)),
    (Place::Of(3, 0), Err(Trap::Team)),
];

#[test]
fn a_place_is_found_or_traps(rt: HostRuntime) -> Result<(), Fail> {
    let memory = ImageMemory::new(rt.alloc(), &OBJECTS, 1, 4)?;
    for (place, want) in &PLACES {
        assert!(rt; memory.image_of(*place) == *want);
    }
    Ok(())
}

#[test]
fn the_index_of_an_event_comes_before_its_rank(rt: HostRuntime) -> Result<(), Fail> {
    let memory = ImageMemory::new(rt.alloc(), &OBJECTS, 1, 4)?;
    let event = EventWanted {
        object: 2,
        index: 3,
        place: Place::World(9),
    };
    assert!(rt; memory.event(&event) == Err(Trap::Index));
    Ok(())
}

/// A range, and the first index and the number of elements of its section.
const RANGES: [(SectionRange, Result<(i64, u32), Trap>); 4] = [
    (SectionRange::All, Ok((-1, 3))),
    (SectionRange::From(0), Ok((0, 2))),
    (SectionRange::UpTo(2), Err(Trap::Index)),
    (SectionRange::Between(9, 8), Ok((-1, 0))),
];

#[test]
fn a_range_is_a_section_of_its_object_or_traps(rt: HostRuntime) -> Result<(), Fail> {
    let memory = ImageMemory::new(rt.alloc(), &OBJECTS, 1, 4)?;
    for (range, want) in &RANGES {
        let wanted = SectionWanted::Region(0, *range, Place::Own);
        let got = memory.section(true, &wanted);
        assert!(rt; got.map(|section| (section.from, section.extent)) == *want);
    }
    Ok(())
}

#[test]
fn posts_and_lines_are_kept_up_to_their_limits(rt: HostRuntime) -> Result<(), Fail> {
    let alloc = rt.alloc();
    let mut memory = ImageMemory::new(alloc, &OBJECTS, 1, 4)?;
    assert!(rt; memory.set_posts(2, 2, 65_535) == Ok(()));
    assert!(rt; memory.set_posts(2, 0, 1) == Err(Trap::Index));
    assert!(rt; memory.posts(2, 1) == Ok(0) && memory.posts(2, 2) == Ok(65_535));
    let long = Text::from_string("x".repeat(alloc, 65_533)?);
    assert!(rt; memory.add_line(long) == Ok(()));
    assert!(rt; memory.add_line(Text::copy_of(alloc, "ab")?) == Err(LineFault::Trap(Trap::Output)));
    assert!(rt; memory.add_line(Text::copy_of(alloc, "a")?) == Ok(()));
    assert_eq!(rt; memory.lines().len(), 2);
    Ok(())
}
