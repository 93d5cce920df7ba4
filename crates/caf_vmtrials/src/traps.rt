ghost use Rattle.std.specs.Prelude.{◌≡◌, IfOk};
ghost use Rattle.caf_vmtrials.specs.Traps.{copies_code, refusals_code};

use crate::steps::{
    AWAITS, LEFT, event, expect, expect_alike, expect_traps, objects, section, world,
};
use caf_base::{CopyOrder, Effect, Memory, Need, OpSpec, Section, Sequence, Trap};
use caf_code::{
    CellUse, Code, ElementForm, EventUse, Instr, Listing, PlaceForm, Printed, RangeForm, Relation,
    Role, SectionForm, SectionUse, SubCode, TeamName, TeamQuery, tables_show_rules,
};
use std::alloc::Global;
use std::process::Abort;
use std::test::Fail;

// The instructions of `refusals`.
const REFUSALS: [Instr; 133] = [
    Instr::Team(TeamQuery::Rank, TeamName::World),
    Instr::Push(0),
    Instr::Relation(Relation::Equal),
    Instr::Test(8),
    Instr::Push(2),
    Instr::Push(99),
    Instr::Push(7),
    Instr::Put(ElementForm::Coindexed(1, PlaceForm::Of(3))),
    Instr::Team(TeamQuery::Rank, TeamName::World),
    Instr::Push(1),
    Instr::Relation(Relation::Equal),
    Instr::Test(16),
    Instr::Push(2),
    Instr::Push(99),
    Instr::Push(7),
    Instr::Put(ElementForm::Coindexed(1, PlaceForm::World)),
    Instr::Team(TeamQuery::Rank, TeamName::World),
    Instr::Push(2),
    Instr::Relation(Relation::Equal),
    Instr::Test(23),
    Instr::Push(1),
    Instr::Push(7),
    Instr::Put(ElementForm::Pointed(4)),
    Instr::Team(TeamQuery::Rank, TeamName::World),
    Instr::Push(3),
    Instr::Relation(Relation::Equal),
    Instr::Test(34),
    Instr::Push(1),
    Instr::Push(2),
    Instr::Section(SectionForm::Region(1, RangeForm::Between, PlaceForm::Own)),
    Instr::Use(SectionUse::Aim(4)),
    Instr::Push(3),
    Instr::Push(7),
    Instr::Put(ElementForm::Pointed(4)),
    Instr::Team(TeamQuery::Rank, TeamName::World),
    Instr::Push(4),
    Instr::Relation(Relation::Equal),
    Instr::Test(41),
    Instr::Push(1),
    Instr::Push(99),
    Instr::Event(EventUse::Notify(2, PlaceForm::Of(3))),
    Instr::Team(TeamQuery::Rank, TeamName::World),
    Instr::Push(5),
    Instr::Relation(Relation::Equal),
    Instr::Test(48),
    Instr::Push(1),
    Instr::Push(99),
    Instr::Event(EventUse::Notify(2, PlaceForm::World)),
    Instr::Team(TeamQuery::Rank, TeamName::World),
    Instr::Push(6),
    Instr::Relation(Relation::Equal),
    Instr::Test(56),
    Instr::Push(2),
    Instr::Push(99),
    Instr::Section(SectionForm::Region(1, RangeForm::Cell, PlaceForm::World)),
    Instr::Use(SectionUse::Aim(4)),
    Instr::Team(TeamQuery::Rank, TeamName::World),
    Instr::Push(7),
    Instr::Relation(Relation::Equal),
    Instr::Test(64),
    Instr::Push(2),
    Instr::Push(99),
    Instr::Section(SectionForm::Region(1, RangeForm::Cell, PlaceForm::Of(3))),
    Instr::Use(SectionUse::Aim(4)),
    Instr::Team(TeamQuery::Rank, TeamName::World),
    Instr::Push(8),
    Instr::Relation(Relation::Equal),
    Instr::Test(70),
    Instr::Section(SectionForm::Pointed(4, RangeForm::All)),
    Instr::Use(SectionUse::Aim(4)),
    Instr::Team(TeamQuery::Rank, TeamName::World),
    Instr::Push(9),
    Instr::Relation(Relation::Equal),
    Instr::Test(81),
    Instr::Push(1),
    Instr::Push(2),
    Instr::Section(SectionForm::Region(1, RangeForm::Between, PlaceForm::Own)),
    Instr::Use(SectionUse::Aim(4)),
    Instr::Push(3),
    Instr::Section(SectionForm::Pointed(4, RangeForm::Cell)),
    Instr::Use(SectionUse::Aim(4)),
    Instr::Team(TeamQuery::Rank, TeamName::World),
    Instr::Push(10),
    Instr::Relation(Relation::Equal),
    Instr::Test(88),
    Instr::Push(5),
    Instr::Push(99),
    Instr::Spawn(0, PlaceForm::Of(3)),
    Instr::Team(TeamQuery::Rank, TeamName::World),
    Instr::Push(11),
    Instr::Relation(Relation::Equal),
    Instr::Test(97),
    Instr::Push(3),
    Instr::EventAt(2, PlaceForm::Own, Role::Done),
    Instr::Push(5),
    Instr::Push(99),
    Instr::Spawn(0, PlaceForm::World),
    Instr::Team(TeamQuery::Rank, TeamName::World),
    Instr::Push(12),
    Instr::Relation(Relation::Equal),
    Instr::Test(104),
    Instr::Team(TeamQuery::Size, TeamName::Object(3)),
    Instr::Print(Printed::Number),
    Instr::Line,
    Instr::Team(TeamQuery::Rank, TeamName::World),
    Instr::Push(13),
    Instr::Relation(Relation::Equal),
    Instr::Test(114),
    Instr::Push(0),
    Instr::Push(0),
    Instr::Split(TeamName::World, 3),
    Instr::Push(1),
    Instr::Push(1),
    Instr::Event(EventUse::Notify(2, PlaceForm::Of(3))),
    Instr::Team(TeamQuery::Rank, TeamName::World),
    Instr::Push(14),
    Instr::Relation(Relation::Equal),
    Instr::Test(127),
    Instr::Section(SectionForm::Region(5, RangeForm::All, PlaceForm::Own)),
    Instr::Use(SectionUse::Aim(4)),
    Instr::Push(7),
    Instr::Print(Printed::Number),
    Instr::Push(300),
    Instr::Ask(ElementForm::Pointed(4)),
    Instr::Held(0),
    Instr::Print(Printed::Number),
    Instr::Line,
    Instr::Close,
    Instr::Halt,
    Instr::Cell(CellUse::Get, 0),
    Instr::Print(Printed::Number),
    Instr::Line,
    Instr::Ret,
];

/// Writes, notices, aims and ships that trap, by the number of the image.
fn refusals(alloc: Global) -> Result<Code, Memory>
    ensures { IfOk result (λ code. code ≡ refusals_code) }
{
    tables_show_rules();
    let mut subs = Sequence::new(alloc);
    subs.push(SubCode {
        address: 129,
        dummies: Sequence::from_slice(alloc, &[false])?,
        locals: 0,
    })?;
    let instrs = Sequence::from_slice(alloc, &REFUSALS)?;
    Ok(Code::of(Listing {
        objects: objects(alloc)?,
        subs,
        texts: Sequence::new(alloc),
        instrs,
    }))
}

// The instructions of `copies`.
const COPIES: [Instr; 124] = [
    Instr::Team(TeamQuery::Rank, TeamName::World),
    Instr::Push(0),
    Instr::Relation(Relation::Equal),
    Instr::Test(10),
    Instr::Push(3),
    Instr::Push(4),
    Instr::Push(99),
    Instr::Section(SectionForm::Region(1, RangeForm::Between, PlaceForm::Of(3))),
    Instr::Section(SectionForm::Region(1, RangeForm::All, PlaceForm::Own)),
    Instr::Use(SectionUse::Copy),
    Instr::Team(TeamQuery::Rank, TeamName::World),
    Instr::Push(1),
    Instr::Relation(Relation::Equal),
    Instr::Test(18),
    Instr::Push(99),
    Instr::Section(SectionForm::Region(5, RangeForm::All, PlaceForm::Of(3))),
    Instr::Section(SectionForm::Region(1, RangeForm::All, PlaceForm::Own)),
    Instr::Use(SectionUse::Copy),
    Instr::Team(TeamQuery::Rank, TeamName::World),
    Instr::Push(2),
    Instr::Relation(Relation::Equal),
    Instr::Test(26),
    Instr::Section(SectionForm::Region(1, RangeForm::All, PlaceForm::Own)),
    Instr::Push(99),
    Instr::Section(SectionForm::Region(1, RangeForm::All, PlaceForm::Of(3))),
    Instr::Use(SectionUse::Copy),
    Instr::Team(TeamQuery::Rank, TeamName::World),
    Instr::Push(3),
    Instr::Relation(Relation::Equal),
    Instr::Test(35),
    Instr::Push(99),
    Instr::Section(SectionForm::Region(1, RangeForm::All, PlaceForm::World)),
    Instr::Push(4),
    Instr::Section(SectionForm::Region(1, RangeForm::Cell, PlaceForm::Own)),
    Instr::Use(SectionUse::Copy),
    Instr::Team(TeamQuery::Rank, TeamName::World),
    Instr::Push(4),
    Instr::Relation(Relation::Equal),
    Instr::Test(45),
    Instr::Section(SectionForm::Region(1, RangeForm::All, PlaceForm::Own)),
    Instr::Push(0),
    Instr::Section(SectionForm::Region(1, RangeForm::Cell, PlaceForm::Own)),
    Instr::Push(3),
    Instr::EventAt(2, PlaceForm::Own, Role::Pre),
    Instr::Use(SectionUse::Copy),
    Instr::Team(TeamQuery::Rank, TeamName::World),
    Instr::Push(5),
    Instr::Relation(Relation::Equal),
    Instr::Test(57),
    Instr::Push(0),
    Instr::Section(SectionForm::Region(1, RangeForm::Cell, PlaceForm::Own)),
    Instr::Push(1),
    Instr::Section(SectionForm::Region(1, RangeForm::Cell, PlaceForm::Own)),
    Instr::Push(1),
    Instr::Push(99),
    Instr::EventAt(2, PlaceForm::Of(3), Role::Pre),
    Instr::Use(SectionUse::Copy),
    Instr::Team(TeamQuery::Rank, TeamName::World),
    Instr::Push(6),
    Instr::Relation(Relation::Equal),
    Instr::Test(71),
    Instr::Push(0),
    Instr::Section(SectionForm::Region(1, RangeForm::Cell, PlaceForm::Own)),
    Instr::Push(1),
    Instr::Section(SectionForm::Region(1, RangeForm::Cell, PlaceForm::Own)),
    Instr::Push(3),
    Instr::EventAt(2, PlaceForm::Own, Role::Deste),
    Instr::Push(1),
    Instr::Push(99),
    Instr::EventAt(2, PlaceForm::World, Role::Srce),
    Instr::Use(SectionUse::Copy),
    Instr::Team(TeamQuery::Rank, TeamName::World),
    Instr::Push(7),
    Instr::Relation(Relation::Equal),
    Instr::Test(79),
    Instr::Section(SectionForm::Pointed(4, RangeForm::All)),
    Instr::Push(4),
    Instr::Section(SectionForm::Region(1, RangeForm::Cell, PlaceForm::Own)),
    Instr::Use(SectionUse::Copy),
    Instr::Team(TeamQuery::Rank, TeamName::World),
    Instr::Push(8),
    Instr::Relation(Relation::Equal),
    Instr::Test(92),
    Instr::Push(1),
    Instr::Push(2),
    Instr::Section(SectionForm::Region(1, RangeForm::Between, PlaceForm::Own)),
    Instr::Use(SectionUse::Aim(4)),
    Instr::Push(3),
    Instr::Section(SectionForm::Pointed(4, RangeForm::Cell)),
    Instr::Push(1),
    Instr::Section(SectionForm::Region(1, RangeForm::Cell, PlaceForm::Own)),
    Instr::Use(SectionUse::Copy),
    Instr::Team(TeamQuery::Rank, TeamName::World),
    Instr::Push(9),
    Instr::Relation(Relation::Equal),
    Instr::Test(110),
    Instr::Section(SectionForm::Region(5, RangeForm::All, PlaceForm::Own)),
    Instr::Use(SectionUse::Aim(4)),
    Instr::Push(2),
    Instr::Section(SectionForm::Pointed(4, RangeForm::UpTo)),
    Instr::Push(2),
    Instr::Section(SectionForm::Region(1, RangeForm::From, PlaceForm::Own)),
    Instr::Push(1),
    Instr::Push(0),
    Instr::EventAt(2, PlaceForm::World, Role::Deste),
    Instr::Push(1),
    Instr::EventAt(2, PlaceForm::Own, Role::Pre),
    Instr::Push(2),
    Instr::EventAt(2, PlaceForm::Own, Role::Srce),
    Instr::Use(SectionUse::Copy),
    Instr::Team(TeamQuery::Rank, TeamName::World),
    Instr::Push(10),
    Instr::Relation(Relation::Equal),
    Instr::Test(122),
    Instr::Push(9),
    Instr::Push(8),
    Instr::Push(1),
    Instr::Section(SectionForm::Region(1, RangeForm::Between, PlaceForm::World)),
    Instr::Push(7),
    Instr::Push(6),
    Instr::Section(SectionForm::Region(1, RangeForm::Between, PlaceForm::Own)),
    Instr::Use(SectionUse::Copy),
    Instr::Close,
    Instr::Halt,
];

/// Copies, by the number of the image.
fn copies(alloc: Global) -> Result<Code, Memory>
    ensures { IfOk result (λ code. code ≡ copies_code) }
{
    tables_show_rules();
    let instrs = Sequence::from_slice(alloc, &COPIES)?;
    Ok(Code::of(Listing {
        objects: objects(alloc)?,
        subs: Sequence::new(alloc),
        texts: Sequence::new(alloc),
        instrs,
    }))
}

/// The team of the image alone has no rank 1.
fn a_split_with_a_trap_behind<R: Abort>(rt: &R, alloc: Global, code: &Code) -> Result<(), Memory> {
    let arrives = Effect::Arrives {
        team: world(alloc)?,
        colour: 0,
        key: 0,
        new: 3,
    };
    let parts = Effect::Blocks(Need::Split);
    let traps = Effect::Traps(Trap::Rank);
    expect(rt, alloc, code, 13, &[arrives, parts, traps], &[])
}

/// A copointer may aim at more than 256 elements. A line goes on behind a read.
fn a_read_by_a_long_copointer<R: Abort>(rt: &R, alloc: Global, code: &Code) -> Result<(), Memory> {
    let read = Effect::Begins(OpSpec::Read(Section {
        image: 14,
        object: 5,
        from: 300,
        extent: 1,
    }));
    expect(rt, alloc, code, 14, &[read, AWAITS, LEFT, LEFT], &["7 41"])
}

fn refusals_do<R: Abort>(rt: &R, alloc: Global, code: &Code) -> Result<(), Memory> {
    let traps = [
        (0, Trap::Team),
        (1, Trap::Rank),
        (2, Trap::Copointer),
        (3, Trap::Index),
        (4, Trap::Team),
        (5, Trap::Rank),
        (6, Trap::Rank),
        (7, Trap::Team),
        (8, Trap::Copointer),
        (9, Trap::Index),
        (10, Trap::Team),
        (11, Trap::Index),
        (12, Trap::Team),
    ];
    expect_traps(rt, alloc, code, &traps)?;
    a_split_with_a_trap_behind(rt, alloc, code)?;
    a_read_by_a_long_copointer(rt, alloc, code)?;
    expect_alike(rt, alloc, code, 14, "7 41")
}

#[test]
fn writes_notices_aims_and_ships_trap(rt: HostRuntime) -> Result<(), Fail> {
    let alloc = rt.alloc();
    Ok(refusals_do(&rt, alloc, &refusals(alloc)?)?)
}

/// The destination is given by a copointer, counted from 1.
fn a_copy_to_a_copointer<R: Abort>(rt: &R, alloc: Global, code: &Code) -> Result<(), Memory> {
    let copy = Effect::Begins(OpSpec::Copy(CopyOrder {
        dest: Section {
            image: 9,
            object: 5,
            from: 1,
            extent: 2,
        },
        source: section(9, 2, 2),
        pre: Some(event(9, 1)),
        srce: Some(event(9, 2)),
        deste: Some(event(0, 1)),
    }));
    expect(rt, alloc, code, 9, &[copy, LEFT, LEFT], &[])
}

/// Two sections of no element, whose bounds leave the array.
fn a_copy_of_nothing<R: Abort>(rt: &R, alloc: Global, code: &Code) -> Result<(), Memory> {
    let copy = Effect::Begins(OpSpec::Copy(CopyOrder {
        dest: section(1, 0, 0),
        source: section(10, 0, 0),
        pre: None,
        srce: None,
        deste: None,
    }));
    expect(rt, alloc, code, 10, &[copy, LEFT, LEFT], &[])
}

fn copies_do<R: Abort>(rt: &R, alloc: Global, code: &Code) -> Result<(), Memory> {
    let traps = [
        (0, Trap::Index),
        (1, Trap::Section),
        (2, Trap::Team),
        (3, Trap::Rank),
        (4, Trap::Section),
        (5, Trap::Team),
        (6, Trap::Rank),
        (7, Trap::Copointer),
        (8, Trap::Index),
    ];
    expect_traps(rt, alloc, code, &traps)?;
    a_copy_to_a_copointer(rt, alloc, code)?;
    a_copy_of_nothing(rt, alloc, code)
}

#[test]
fn copies_are_tested_in_order(rt: HostRuntime) -> Result<(), Fail> {
    let alloc = rt.alloc();
    Ok(copies_do(&rt, alloc, &copies(alloc)?)?)
}
