ghost use Rattle.std.specs.Prelude.{IfOk};
ghost use Rattle.caf_treestep.specs.Placeable.{IsPlaceable};

use caf_base::{
    CopyOrder, Down, Effect, EventAt, FenceClear, Kind, Memory, Need, Object, OpSpec, Section,
    Sequence, Stack, Team, Trap,
};
use caf_memory::ImageMemory;
use caf_program::{
    EventR, ExprR, OwnEventR, PlaceR, PrintR, RangeR, RegionR, SectionR, StmtR, TeamR, VariableR,
};
use caf_treestep::{Frame, Task, Todo, memories_begin_placeable, step_task};
use sqlite_items::{Boxed, Items};
use std::alloc::{AllocError, Global};
use std::process::Abort;
use std::test::Fail;

const A: u32 = 0;

const D: u32 = 1;

const T: u32 = 2;

const P: u32 = 3;

/// `integer :: a(2)[*]; event :: d[*]; team :: t; integer, copointer :: p(:)`
const OBJECTS: [Object; 4] = [
    Object {
        kind: Kind::Integer,
        lower: 1,
        extent: 2,
        shared: true,
    },
    Object {
        kind: Kind::Event,
        lower: 1,
        extent: 1,
        shared: true,
    },
    Object {
        kind: Kind::Team,
        lower: 1,
        extent: 1,
        shared: false,
    },
    Object {
        kind: Kind::CoInteger,
        lower: 1,
        extent: 1,
        shared: false,
    },
];

/// The memory of image 1 among three.
fn memory(alloc: Global) -> Result<ImageMemory, Memory>
    ensures { IfOk result (λ memory. IsPlaceable memory) }
{
    memories_begin_placeable();
    ImageMemory::new(alloc, OBJECTS.as_slice(), 1, 3)
}

/// A task before a statement, with these values read.
fn before(alloc: Global, statement: StmtR, held: &[i64]) -> Result<Task, Memory> {
    let mut todo = Stack::new(alloc);
    todo.push(Todo::Does(statement))?;
    Ok(Task {
        frame: Frame {
            locals: Sequence::new(alloc),
            todo,
        },
        below: Stack::new(alloc),
        held: Sequence::from_slice(alloc, held)?,
        wait: None,
        done: None,
    })
}

/// The first Step of a statement at image 1 of three, with these values read, while an implicit copy has still to read.
fn effect_of(alloc: Global, statement: StmtR, held: &[i64]) -> Result<Effect, Memory> {
    let mut memory = memory(alloc)?;
    let mut task = before(alloc, statement, held)?;
    let clear = FenceClear {
        reads: false,
        writes: true,
    };
    step_task(alloc, &[], clear, &mut task, &mut memory)
}

fn place(rank: i64, team: TeamR) -> PlaceR<ExprR> {
    PlaceR {
        rank: ExprR::Number(rank),
        team,
    }
}

fn coindexed(alloc: Global, index: i64, rank: i64, team: TeamR) -> Result<ExprR, AllocError> {
    Ok(ExprR::Coindexed {
        object: A,
        index: Boxed::new(alloc, ExprR::Number(index))?,
        place: PlaceR {
            rank: Boxed::new(alloc, ExprR::Number(rank))?,
            team,
        },
    })
}

/// `print *, e`
fn print(alloc: Global, e: ExprR) -> Result<StmtR, AllocError> {
    let mut parts = Items::new(alloc);
    parts.push(PrintR::Number(e))?;
    Ok(StmtR::Print { line: 1, parts })
}

/// The effect of `print *, a(index)[rank @ team]`.
fn reading(
    alloc: Global,
    index: i64,
    rank: i64,
    team: TeamR,
    held: &[i64],
) -> Result<Effect, Memory> {
    let e = coindexed(alloc, index, rank, team)?;
    let statement = print(alloc, e)?;
    effect_of(alloc, statement, held)
}

fn element(image: u32, from: i64) -> Section {
    Section {
        image,
        object: A,
        from,
        extent: 1,
    }
}

#[test]
fn an_element_of_another_image_is_read_in_a_step_of_its_own(rt: HostRuntime) -> Result<(), Fail> {
    let alloc = rt.alloc();
    let read = Effect::Begins(OpSpec::Read(element(2, 2)));
    assert_eq!(rt; reading(alloc, 2, 2, TeamR::World, &[])?, read);
    assert_eq!(rt; reading(alloc, 2, 2, TeamR::World, &[7])?, Effect::Ran);
    assert_eq!(rt;
        reading(alloc, 3, 3, TeamR::World, &[])?,
        Effect::Traps(Trap::Index)
    );
    assert_eq!(rt;
        reading(alloc, 1, 3, TeamR::World, &[])?,
        Effect::Traps(Trap::Rank)
    );
    assert_eq!(rt;
        reading(alloc, 1, 3, TeamR::Object(T), &[])?,
        Effect::Traps(Trap::Team)
    );
    Ok(())
}

/// `d(index)[rank]`
fn event(index: i64, rank: i64) -> EventR {
    EventR {
        own: own_event(index),
        place: Some(place(rank, TeamR::World)),
    }
}

fn own_event(index: i64) -> OwnEventR {
    OwnEventR {
        object: D,
        index: ExprR::Number(index),
    }
}

/// The effect of `event_notify(d(index)[rank])`.
fn notifying(alloc: Global, index: i64, rank: i64) -> Result<Effect, Memory> {
    let event = event(index, rank);
    effect_of(alloc, StmtR::Notify { line: 1, event }, &[])
}

/// The effect of `event_wait(d(index))`.
fn waiting(alloc: Global, index: i64) -> Result<Effect, Memory> {
    let event = own_event(index);
    effect_of(alloc, StmtR::Wait { line: 1, event }, &[])
}

#[test]
fn notices_go_out_and_waits_block(rt: HostRuntime) -> Result<(), Fail> {
    let alloc = rt.alloc();
    let posted = Effect::Begins(OpSpec::Notice(EventAt {
        image: 2,
        object: D,
        index: 1,
    }));
    assert_eq!(rt; notifying(alloc, 1, 2)?, posted);
    assert_eq!(rt; notifying(alloc, 2, 3)?, Effect::Traps(Trap::Index));
    assert_eq!(rt; notifying(alloc, 1, -1)?, Effect::Traps(Trap::Rank));
    assert_eq!(rt; waiting(alloc, 1)?, Effect::Blocks(Need::Event(D, 1)));
    assert_eq!(rt; waiting(alloc, 0)?, Effect::Traps(Trap::Index));
    Ok(())
}

fn region(range: RangeR, rank: i64) -> RegionR {
    RegionR {
        object: A,
        range,
        place: Some(place(rank, TeamR::World)),
    }
}

/// The effect of `copy_async(a[2], a(first:last)[1])`.
fn copying(alloc: Global, first: i64, last: i64) -> Result<Effect, Memory> {
    let range = RangeR::Between(ExprR::Number(first), ExprR::Number(last));
    let statement = StmtR::Copy {
        line: 1,
        dest: SectionR::Region(region(RangeR::All, 2)),
        source: SectionR::Region(region(range, 1)),
        events: Items::new(alloc),
    };
    effect_of(alloc, statement, &[])
}

fn whole(image: u32) -> Section {
    Section {
        image,
        object: A,
        from: 1,
        extent: 2,
    }
}

/// The effect of `p => a(first:)[0]`.
fn aiming(alloc: Global, first: i64) -> Result<Effect, Memory> {
    let statement = StmtR::Aim {
        line: 1,
        copointer: P,
        region: region(RangeR::From(ExprR::Number(first)), 0),
    };
    effect_of(alloc, statement, &[])
}

#[test]
fn sections_are_tested_before_they_are_copied_or_aimed_at(rt: HostRuntime) -> Result<(), Fail> {
    let alloc = rt.alloc();
    let copied = Effect::Begins(OpSpec::Copy(CopyOrder {
        dest: whole(2),
        source: whole(1),
        pre: None,
        srce: None,
        deste: None,
    }));
    assert_eq!(rt; copying(alloc, 1, 2)?, copied);
    assert_eq!(rt; copying(alloc, 1, 1)?, Effect::Traps(Trap::Section));
    assert_eq!(rt; copying(alloc, 0, 1)?, Effect::Traps(Trap::Index));
    assert_eq!(rt; aiming(alloc, 2)?, Effect::Ran);
    assert_eq!(rt; aiming(alloc, 0)?, Effect::Traps(Trap::Index));
    Ok(())
}

/// The effect of `target = 5`.
fn writing(alloc: Global, target: VariableR) -> Result<Effect, Memory> {
    let statement = StmtR::Assign {
        line: 1,
        target,
        value: ExprR::Number(5),
    };
    effect_of(alloc, statement, &[])
}

/// `a(2)[rank]`
fn elsewhere(rank: i64) -> VariableR {
    VariableR::Coindexed {
        object: A,
        index: ExprR::Number(2),
        place: place(rank, TeamR::World),
    }
}

/// The effect of `spawn f()[rank]`.
fn shipping(alloc: Global, rank: i64) -> Result<Effect, Memory> {
    let statement = StmtR::Spawn {
        line: 1,
        done: None,
        sub: 0,
        actuals: Items::new(alloc),
        place: place(rank, TeamR::World),
    };
    effect_of(alloc, statement, &[])
}

#[test]
fn writes_and_ships_go_to_their_images(rt: HostRuntime) -> Result<(), Fail> {
    let alloc = rt.alloc();
    let written = Effect::Begins(OpSpec::Write(element(0, 2), 5));
    assert_eq!(rt; writing(alloc, elsewhere(0))?, written);
    let behind = VariableR::Pointed(P, ExprR::Number(1));
    assert_eq!(rt; writing(alloc, behind)?, Effect::Traps(Trap::Copointer));
    let shipped = Effect::Begins(OpSpec::Ship {
        target: 2,
        sub: 0,
        args: Sequence::new(alloc),
        done: None,
    });
    assert_eq!(rt; shipping(alloc, 2)?, shipped);
    assert_eq!(rt; shipping(alloc, 3)?, Effect::Traps(Trap::Rank));
    Ok(())
}

/// The effect of a `cofence` of a class.
fn fencing(alloc: Global, down: Down) -> Result<Effect, Memory> {
    effect_of(alloc, StmtR::Cofence { line: 1, down }, &[])
}

/// The effect of `finish (team)`.
fn entering(alloc: Global, team: TeamR) -> Result<Effect, Memory> {
    let body = Items::new(alloc);
    effect_of(
        alloc,
        StmtR::Finish {
            line: 1,
            team,
            body,
        },
        &[],
    )
}

/// The effect of `team_split(team, 6, 7, t)`.
fn splitting(alloc: Global, team: TeamR) -> Result<Effect, Memory> {
    let statement = StmtR::Split {
        line: 1,
        team,
        colour: ExprR::Number(6),
        key: ExprR::Number(7),
        new: T,
    };
    effect_of(alloc, statement, &[])
}

fn world(alloc: Global) -> Result<Team, Memory> {
    Ok(Team {
        path: Sequence::new(alloc),
        members: Sequence::from_slice(alloc, &[0, 1, 2])?,
    })
}

#[test]
fn fences_wait_and_finishes_and_splits_name_their_teams(rt: HostRuntime) -> Result<(), Fail> {
    let alloc = rt.alloc();
    assert_eq!(rt;
        fencing(alloc, Down::Nothing)?,
        Effect::Blocks(Need::Cofence)
    );
    assert_eq!(rt; fencing(alloc, Down::Read)?, Effect::Ran);
    assert_eq!(rt;
        entering(alloc, TeamR::World)?,
        Effect::Enters(world(alloc)?)
    );
    assert_eq!(rt;
        entering(alloc, TeamR::Object(T))?,
        Effect::Traps(Trap::Team)
    );
    let arrived = Effect::Arrives {
        team: world(alloc)?,
        colour: 6,
        key: 7,
        new: T,
    };
    assert_eq!(rt; splitting(alloc, TeamR::World)?, arrived);
    assert_eq!(rt;
        splitting(alloc, TeamR::Object(T))?,
        Effect::Traps(Trap::Team)
    );
    Ok(())
}
