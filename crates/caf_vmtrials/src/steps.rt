ghost use Rattle.std.specs.Prelude.{◌≡◌, ◌<◌, IfOk, OnOk, true, false};
ghost use Rattle.caf_code.specs.Sound.{IsSound, IsSoundMemory, is_close as closes, stands_at_end};
ghost use Rattle.caf_code.specs.Whole.{IsSettled};
ghost use Rattle.caf_code.specs.Kept.{ends_run};
ghost use Rattle.caf_vmtrials.specs.Examples.{accesses_code, messages_code, programs_code, six_objects, teams_code};

use caf_base::{
    CopyOrder, Down, Effect, EventAt, FenceClear, Kind, Need, Object, OpSpec, Section, Sequence,
    Team, Text, Trap,
};
use caf_code::{
    Arithmetic, CellUse, Code, ElementForm, EventUse, Instr, Listing, Logical, OutForm, PlaceForm,
    Printed, RangeForm, Reach, Relation, Role, SectionForm, SectionUse, SubCode, TeamName,
    TeamQuery, Wait, tables_show_rules, tasks_stay_sound,
};
use caf_memory::ImageMemory;
use caf_vm::{Memory, Task, answer, blocked, leave, part, statement};
use std::alloc::Global;
use std::process::Abort;
use std::test::Fail;

// How many images there are.
const IMAGES: u32 = 16;

// A text of 120 bytes.
const LONG: &str =
    "abcdefghijabcdefghijabcdefghijabcdefghijabcdefghijabcdefghijabcdefghijabcdefghijabcdefghijabcdefghijabcdefghijabcdefghij";

fn object(kind: Kind, lower: i64, extent: u32) -> Object
    ensures { result ≡ record { kind = kind; lower = lower; extent = extent; shared = true } }
{
    Object {
        kind,
        lower,
        extent,
        shared: true,
    }
}

/// An integer scalar, an integer array from 0 to 3, two events, a team, a copointer, and an array of 300 elements.
pub fn objects(alloc: Global) -> Result<Sequence<Object>, Memory>
    ensures { IfOk result (λ objects. objects ≡ six_objects) }
{
    Sequence::from_slice(
        alloc,
        &[
            object(Kind::Integer, 1, 1),
            object(Kind::Integer, 0, 4),
            object(Kind::Event, 1, 2),
            object(Kind::Team, 1, 1),
            object(Kind::CoInteger, 1, 1),
            object(Kind::Integer, 1, 300),
        ],
    )
}

// The instructions of `accesses`.
const ACCESSES: [Instr; 94] = [
    Instr::Team(TeamQuery::Rank, TeamName::World),
    Instr::Push(0),
    Instr::Relation(Relation::Equal),
    Instr::Test(13),
    Instr::Push(2),
    Instr::Push(1),
    Instr::Ask(ElementForm::Coindexed(1, PlaceForm::World)),
    Instr::Held(0),
    Instr::Push(1),
    Instr::Arithmetic(Arithmetic::Add),
    Instr::Print(Printed::Number),
    Instr::Line,
    Instr::Go(92),
    Instr::Team(TeamQuery::Rank, TeamName::World),
    Instr::Push(1),
    Instr::Relation(Relation::Equal),
    Instr::Test(22),
    Instr::Push(4),
    Instr::Push(99),
    Instr::Ask(ElementForm::Coindexed(1, PlaceForm::World)),
    Instr::Next,
    Instr::Go(92),
    Instr::Team(TeamQuery::Rank, TeamName::World),
    Instr::Push(2),
    Instr::Relation(Relation::Equal),
    Instr::Test(31),
    Instr::Push(2),
    Instr::Push(99),
    Instr::Ask(ElementForm::Coindexed(1, PlaceForm::Of(3))),
    Instr::Next,
    Instr::Go(92),
    Instr::Team(TeamQuery::Rank, TeamName::World),
    Instr::Push(3),
    Instr::Relation(Relation::Equal),
    Instr::Test(40),
    Instr::Push(2),
    Instr::Push(99),
    Instr::Ask(ElementForm::Coindexed(1, PlaceForm::World)),
    Instr::Next,
    Instr::Go(92),
    Instr::Team(TeamQuery::Rank, TeamName::World),
    Instr::Push(4),
    Instr::Relation(Relation::Equal),
    Instr::Test(50),
    Instr::Push(3),
    Instr::Push(1),
    Instr::Push(7),
    Instr::Put(ElementForm::Coindexed(1, PlaceForm::World)),
    Instr::Next,
    Instr::Go(92),
    Instr::Team(TeamQuery::Rank, TeamName::World),
    Instr::Push(5),
    Instr::Relation(Relation::Equal),
    Instr::Test(58),
    Instr::Push(4),
    Instr::Push(7),
    Instr::Put(ElementForm::Coindexed(1, PlaceForm::Own)),
    Instr::Go(92),
    Instr::Team(TeamQuery::Rank, TeamName::World),
    Instr::Push(6),
    Instr::Relation(Relation::Equal),
    Instr::Test(76),
    Instr::Push(1),
    Instr::Push(2),
    Instr::Section(SectionForm::Region(1, RangeForm::Between, PlaceForm::Own)),
    Instr::Use(SectionUse::Aim(4)),
    Instr::Push(2),
    Instr::Ask(ElementForm::Pointed(4)),
    Instr::Next,
    Instr::Push(1),
    Instr::Push(8),
    Instr::Put(ElementForm::Pointed(4)),
    Instr::Push(3),
    Instr::Ask(ElementForm::Pointed(4)),
    Instr::Next,
    Instr::Go(92),
    Instr::Team(TeamQuery::Rank, TeamName::World),
    Instr::Push(7),
    Instr::Relation(Relation::Equal),
    Instr::Test(84),
    Instr::Push(1),
    Instr::Ask(ElementForm::Pointed(4)),
    Instr::Next,
    Instr::Go(92),
    Instr::Team(TeamQuery::Rank, TeamName::World),
    Instr::Push(8),
    Instr::Relation(Relation::Equal),
    Instr::Test(92),
    Instr::Push(3),
    Instr::Push(4),
    Instr::Section(SectionForm::Region(1, RangeForm::Between, PlaceForm::Own)),
    Instr::Use(SectionUse::Aim(4)),
    Instr::Close,
    Instr::Halt,
];

/// Blocking reads and writes, and what a copointer aims at, by the number of the image.
fn accesses(alloc: Global) -> Result<Code, Memory>
    ensures { IfOk result (λ code. code ≡ accesses_code) }
{
    tables_show_rules();
    let instrs = Sequence::from_slice(alloc, &ACCESSES)?;
    Ok(Code::of(Listing {
        objects: objects(alloc)?,
        subs: Sequence::new(alloc),
        texts: Sequence::new(alloc),
        instrs,
    }))
}

// The instructions of `messages`.
const MESSAGES: [Instr; 108] = [
    Instr::Team(TeamQuery::Rank, TeamName::World),
    Instr::Push(0),
    Instr::Relation(Relation::Equal),
    Instr::Test(8),
    Instr::Push(2),
    Instr::Push(0),
    Instr::Event(EventUse::Notify(2, PlaceForm::World)),
    Instr::Go(102),
    Instr::Team(TeamQuery::Rank, TeamName::World),
    Instr::Push(1),
    Instr::Relation(Relation::Equal),
    Instr::Test(16),
    Instr::Push(3),
    Instr::Push(0),
    Instr::Event(EventUse::Notify(2, PlaceForm::World)),
    Instr::Go(102),
    Instr::Team(TeamQuery::Rank, TeamName::World),
    Instr::Push(2),
    Instr::Relation(Relation::Equal),
    Instr::Test(26),
    Instr::Push(2),
    Instr::Event(EventUse::Wait(2)),
    Instr::Push(2),
    Instr::Event(EventUse::Wait(2)),
    Instr::Next,
    Instr::Go(102),
    Instr::Team(TeamQuery::Rank, TeamName::World),
    Instr::Push(3),
    Instr::Relation(Relation::Equal),
    Instr::Test(33),
    Instr::Push(0),
    Instr::Event(EventUse::Wait(2)),
    Instr::Go(102),
    Instr::Team(TeamQuery::Rank, TeamName::World),
    Instr::Push(4),
    Instr::Relation(Relation::Equal),
    Instr::Test(48),
    Instr::Push(0),
    Instr::Push(1),
    Instr::Push(2),
    Instr::Section(SectionForm::Region(1, RangeForm::Between, PlaceForm::World)),
    Instr::Push(2),
    Instr::Push(3),
    Instr::Section(SectionForm::Region(1, RangeForm::Between, PlaceForm::Own)),
    Instr::Push(1),
    Instr::EventAt(2, PlaceForm::Own, Role::Deste),
    Instr::Use(SectionUse::Copy),
    Instr::Go(102),
    Instr::Team(TeamQuery::Rank, TeamName::World),
    Instr::Push(5),
    Instr::Relation(Relation::Equal),
    Instr::Test(57),
    Instr::Section(SectionForm::Region(1, RangeForm::All, PlaceForm::Own)),
    Instr::Push(0),
    Instr::Section(SectionForm::Region(1, RangeForm::Cell, PlaceForm::Own)),
    Instr::Use(SectionUse::Copy),
    Instr::Go(102),
    Instr::Team(TeamQuery::Rank, TeamName::World),
    Instr::Push(6),
    Instr::Relation(Relation::Equal),
    Instr::Test(65),
    Instr::Section(SectionForm::Region(5, RangeForm::All, PlaceForm::Own)),
    Instr::Section(SectionForm::Region(5, RangeForm::All, PlaceForm::Own)),
    Instr::Use(SectionUse::Copy),
    Instr::Go(102),
    Instr::Team(TeamQuery::Rank, TeamName::World),
    Instr::Push(7),
    Instr::Relation(Relation::Equal),
    Instr::Test(77),
    Instr::Push(0),
    Instr::Section(SectionForm::Region(1, RangeForm::Cell, PlaceForm::Own)),
    Instr::Push(1),
    Instr::Section(SectionForm::Region(1, RangeForm::Cell, PlaceForm::Own)),
    Instr::Push(3),
    Instr::EventAt(2, PlaceForm::Own, Role::Pre),
    Instr::Use(SectionUse::Copy),
    Instr::Go(102),
    Instr::Team(TeamQuery::Rank, TeamName::World),
    Instr::Push(8),
    Instr::Relation(Relation::Equal),
    Instr::Test(85),
    Instr::Cofence(Down::Any),
    Instr::Cofence(Down::Read),
    Instr::Next,
    Instr::Go(102),
    Instr::Team(TeamQuery::Rank, TeamName::World),
    Instr::Push(9),
    Instr::Relation(Relation::Equal),
    Instr::Test(95),
    Instr::Push(1),
    Instr::EventAt(2, PlaceForm::Own, Role::Done),
    Instr::Push(5),
    Instr::Push(1),
    Instr::Spawn(0, PlaceForm::World),
    Instr::Go(102),
    Instr::Team(TeamQuery::Rank, TeamName::World),
    Instr::Push(10),
    Instr::Relation(Relation::Equal),
    Instr::Test(102),
    Instr::Push(5),
    Instr::Push(99),
    Instr::Spawn(0, PlaceForm::World),
    Instr::Close,
    Instr::Halt,
    Instr::Cell(CellUse::Get, 0),
    Instr::Print(Printed::Number),
    Instr::Line,
    Instr::Ret,
];

/// Notices, waits, copies, fences and ships, by the number of the image.
fn messages(alloc: Global) -> Result<Code, Memory>
    ensures { IfOk result (λ code. code ≡ messages_code) }
{
    tables_show_rules();
    let mut subs = Sequence::new(alloc);
    subs.push(SubCode {
        address: 104,
        dummies: Sequence::from_slice(alloc, &[false])?,
        locals: 0,
    })?;
    let instrs = Sequence::from_slice(alloc, &MESSAGES)?;
    Ok(Code::of(Listing {
        objects: objects(alloc)?,
        subs,
        texts: Sequence::new(alloc),
        instrs,
    }))
}

// The instructions of `teams`.
const TEAMS: [Instr; 113] = [
    Instr::Team(TeamQuery::Rank, TeamName::World),
    Instr::Push(0),
    Instr::Relation(Relation::Equal),
    Instr::Test(11),
    Instr::Finish(TeamName::World),
    Instr::Push(1),
    Instr::Print(Printed::Number),
    Instr::Line,
    Instr::Close,
    Instr::Next,
    Instr::Go(96),
    Instr::Team(TeamQuery::Rank, TeamName::World),
    Instr::Push(1),
    Instr::Relation(Relation::Equal),
    Instr::Test(19),
    Instr::Finish(TeamName::Object(3)),
    Instr::Close,
    Instr::Next,
    Instr::Go(96),
    Instr::Team(TeamQuery::Rank, TeamName::World),
    Instr::Push(2),
    Instr::Relation(Relation::Equal),
    Instr::Test(35),
    Instr::Push(3),
    Instr::Push(-1),
    Instr::Split(TeamName::World, 3),
    Instr::Team(TeamQuery::Rank, TeamName::Object(3)),
    Instr::Print(Printed::Number),
    Instr::Team(TeamQuery::Size, TeamName::Object(3)),
    Instr::Print(Printed::Number),
    Instr::Line,
    Instr::Finish(TeamName::Object(3)),
    Instr::Close,
    Instr::Next,
    Instr::Go(96),
    Instr::Team(TeamQuery::Rank, TeamName::World),
    Instr::Push(3),
    Instr::Relation(Relation::Equal),
    Instr::Test(43),
    Instr::Push(3),
    Instr::Push(1),
    Instr::Split(TeamName::Object(3), 3),
    Instr::Go(96),
    Instr::Team(TeamQuery::Rank, TeamName::World),
    Instr::Push(4),
    Instr::Relation(Relation::Equal),
    Instr::Test(51),
    Instr::Team(TeamQuery::Rank, TeamName::Object(3)),
    Instr::Print(Printed::Number),
    Instr::Line,
    Instr::Go(96),
    Instr::Team(TeamQuery::Rank, TeamName::World),
    Instr::Push(5),
    Instr::Relation(Relation::Equal),
    Instr::Test(64),
    Instr::Push(5),
    Instr::Store(Reach::Scalar, 0),
    Instr::Out(OutForm::Scalar(0)),
    Instr::Load(Reach::Scalar, 0),
    Instr::Call(0),
    Instr::Load(Reach::Scalar, 0),
    Instr::Print(Printed::Number),
    Instr::Line,
    Instr::Go(96),
    Instr::Team(TeamQuery::Rank, TeamName::World),
    Instr::Push(6),
    Instr::Relation(Relation::Equal),
    Instr::Test(77),
    Instr::Push(2),
    Instr::Out(OutForm::Element(1)),
    Instr::Push(40),
    Instr::Call(0),
    Instr::Push(2),
    Instr::Load(Reach::Element, 1),
    Instr::Print(Printed::Number),
    Instr::Line,
    Instr::Go(96),
    Instr::Team(TeamQuery::Rank, TeamName::World),
    Instr::Push(7),
    Instr::Relation(Relation::Equal),
    Instr::Test(86),
    Instr::Push(4),
    Instr::Out(OutForm::Element(1)),
    Instr::Push(0),
    Instr::Call(0),
    Instr::Go(96),
    Instr::Team(TeamQuery::Rank, TeamName::World),
    Instr::Push(8),
    Instr::Relation(Relation::Equal),
    Instr::Test(96),
    Instr::Out(OutForm::Scalar(0)),
    Instr::Push(20),
    Instr::Call(1),
    Instr::Load(Reach::Scalar, 0),
    Instr::Print(Printed::Number),
    Instr::Line,
    Instr::Close,
    Instr::Halt,
    Instr::Cell(CellUse::Get, 0),
    Instr::Push(1),
    Instr::Arithmetic(Arithmetic::Add),
    Instr::Cell(CellUse::Set, 0),
    Instr::Next,
    Instr::Ret,
    Instr::Push(10),
    Instr::Cell(CellUse::Set, 1),
    Instr::Out(OutForm::Local(1)),
    Instr::Cell(CellUse::Get, 1),
    Instr::Call(0),
    Instr::Cell(CellUse::Get, 1),
    Instr::Cell(CellUse::Set, 0),
    Instr::Next,
    Instr::Ret,
];

/// Finishes, splits and calls, by the number of the image.
fn teams(alloc: Global) -> Result<Code, Memory>
    ensures { IfOk result (λ code. code ≡ teams_code) }
{
    tables_show_rules();
    let mut subs = Sequence::new(alloc);
    subs.push(SubCode {
        address: 98,
        dummies: Sequence::from_slice(alloc, &[true])?,
        locals: 0,
    })?;
    subs.push(SubCode {
        address: 104,
        dummies: Sequence::from_slice(alloc, &[true])?,
        locals: 1,
    })?;
    let instrs = Sequence::from_slice(alloc, &TEAMS)?;
    Ok(Code::of(Listing {
        objects: objects(alloc)?,
        subs,
        texts: Sequence::new(alloc),
        instrs,
    }))
}

// The instructions of `programs`.
const PROGRAMS: [Instr; 156] = [
    Instr::Team(TeamQuery::Rank, TeamName::World),
    Instr::Push(0),
    Instr::Relation(Relation::Equal),
    Instr::Test(21),
    Instr::Push(7),
    Instr::Push(2),
    Instr::Arithmetic(Arithmetic::Divide),
    Instr::Arithmetic(Arithmetic::Negate),
    Instr::Print(Printed::Number),
    Instr::Push(7),
    Instr::Arithmetic(Arithmetic::Negate),
    Instr::Push(2),
    Instr::Arithmetic(Arithmetic::Modulo),
    Instr::Print(Printed::Number),
    Instr::Push(2),
    Instr::Push(3),
    Instr::Arithmetic(Arithmetic::Multiply),
    Instr::Arithmetic(Arithmetic::Negate),
    Instr::Print(Printed::Number),
    Instr::Line,
    Instr::Go(146),
    Instr::Team(TeamQuery::Rank, TeamName::World),
    Instr::Push(1),
    Instr::Relation(Relation::Equal),
    Instr::Test(56),
    Instr::Push(5),
    Instr::Push(1),
    Instr::Push(1),
    Instr::Loop,
    Instr::Store(Reach::Scalar, 0),
    Instr::Enter(38),
    Instr::Print(Printed::Text(0)),
    Instr::Line,
    Instr::Load(Reach::Scalar, 0),
    Instr::StepBy,
    Instr::Arithmetic(Arithmetic::Add),
    Instr::Store(Reach::Scalar, 0),
    Instr::Again(31),
    Instr::Load(Reach::Scalar, 0),
    Instr::Print(Printed::Number),
    Instr::Line,
    Instr::Push(1),
    Instr::Push(5),
    Instr::Push(2),
    Instr::Loop,
    Instr::Store(Reach::Scalar, 0),
    Instr::Enter(52),
    Instr::Load(Reach::Scalar, 0),
    Instr::StepBy,
    Instr::Arithmetic(Arithmetic::Add),
    Instr::Store(Reach::Scalar, 0),
    Instr::Again(47),
    Instr::Load(Reach::Scalar, 0),
    Instr::Print(Printed::Number),
    Instr::Line,
    Instr::Go(146),
    Instr::Team(TeamQuery::Rank, TeamName::World),
    Instr::Push(2),
    Instr::Relation(Relation::Equal),
    Instr::Test(63),
    Instr::Push(1),
    Instr::Call(0),
    Instr::Go(146),
    Instr::Team(TeamQuery::Rank, TeamName::World),
    Instr::Push(3),
    Instr::Relation(Relation::Equal),
    Instr::Test(82),
    Instr::Push(1),
    Instr::Push(600),
    Instr::Push(1),
    Instr::Loop,
    Instr::Store(Reach::Scalar, 0),
    Instr::Enter(80),
    Instr::Print(Printed::Text(1)),
    Instr::Line,
    Instr::Load(Reach::Scalar, 0),
    Instr::StepBy,
    Instr::Arithmetic(Arithmetic::Add),
    Instr::Store(Reach::Scalar, 0),
    Instr::Again(73),
    Instr::Next,
    Instr::Go(146),
    Instr::Team(TeamQuery::Rank, TeamName::World),
    Instr::Push(4),
    Instr::Relation(Relation::Equal),
    Instr::Test(96),
    Instr::Push(1),
    Instr::Push(0),
    Instr::Logical(Logical::Or),
    Instr::Print(Printed::Logical),
    Instr::Push(2),
    Instr::Logical(Logical::Not),
    Instr::Print(Printed::Logical),
    Instr::Print(Printed::Text(0)),
    Instr::Line,
    Instr::Go(146),
    Instr::Team(TeamQuery::Rank, TeamName::World),
    Instr::Push(5),
    Instr::Relation(Relation::Equal),
    Instr::Test(106),
    Instr::Push(9223372036854775807),
    Instr::Push(1),
    Instr::Arithmetic(Arithmetic::Add),
    Instr::Store(Reach::Scalar, 0),
    Instr::Next,
    Instr::Go(146),
    Instr::Team(TeamQuery::Rank, TeamName::World),
    Instr::Push(6),
    Instr::Relation(Relation::Equal),
    Instr::Test(116),
    Instr::Push(1),
    Instr::Push(0),
    Instr::Arithmetic(Arithmetic::Divide),
    Instr::Store(Reach::Scalar, 0),
    Instr::Next,
    Instr::Go(146),
    Instr::Team(TeamQuery::Rank, TeamName::World),
    Instr::Push(7),
    Instr::Relation(Relation::Equal),
    Instr::Test(129),
    Instr::Push(1),
    Instr::Push(5),
    Instr::Push(0),
    Instr::Loop,
    Instr::Store(Reach::Scalar, 0),
    Instr::Enter(127),
    Instr::Again(126),
    Instr::Next,
    Instr::Go(146),
    Instr::Team(TeamQuery::Rank, TeamName::World),
    Instr::Push(8),
    Instr::Relation(Relation::Equal),
    Instr::Test(138),
    Instr::Push(4),
    Instr::Load(Reach::Element, 1),
    Instr::Store(Reach::Scalar, 0),
    Instr::Next,
    Instr::Go(146),
    Instr::Team(TeamQuery::Rank, TeamName::World),
    Instr::Push(9),
    Instr::Relation(Relation::Equal),
    Instr::Test(146),
    Instr::Push(4),
    Instr::Push(1),
    Instr::Store(Reach::Element, 1),
    Instr::Next,
    Instr::Close,
    Instr::Halt,
    Instr::Cell(CellUse::Get, 0),
    Instr::Print(Printed::Number),
    Instr::Line,
    Instr::Cell(CellUse::Get, 0),
    Instr::Push(1),
    Instr::Arithmetic(Arithmetic::Add),
    Instr::Call(0),
    Instr::Ret,
];

/// Small programs, by the number of the image: sums, loops, a subroutine that calls itself, lines up to the limit,
/// logicals, and traps of numbers and elements.
fn programs(alloc: Global) -> Result<Code, Memory>
    ensures { IfOk result (λ code. code ≡ programs_code) }
{
    tables_show_rules();
    let mut subs = Sequence::new(alloc);
    subs.push(SubCode {
        address: 148,
        dummies: Sequence::from_slice(alloc, &[false])?,
        locals: 0,
    })?;
    let mut texts = Sequence::new(alloc);
    texts.push(Text::copy_of(alloc, "never")?)?;
    texts.push(Text::copy_of(alloc, LONG)?)?;
    let instrs = Sequence::from_slice(alloc, &PROGRAMS)?;
    Ok(Code::of(Listing {
        objects: objects(alloc)?,
        subs,
        texts,
        instrs,
    }))
}

/// Whether a task is over.
fn is_over(effect: &Effect) -> bool
    ensures { result ≡ ends_run effect.now }
{
    match effect {
        Effect::Ran => false,
        Effect::Ends(_) => true,
        Effect::Begins(_) => false,
        Effect::Enters(_) => false,
        Effect::Arrives { .. } => false,
        Effect::Blocks(_) => false,
        Effect::Traps(_) => true,
    }
}

/// What a task waits for.
fn need_in(effect: &Effect) -> Option<Need> {
    match effect {
        Effect::Blocks(need) => Some(*need),
        _ => None,
    }
}

/// One step. Before it, what the task would wait for is told.
#[tactic(auto, using(crate::proofs::Driven::goes_on))]
fn step<R: Abort>(
    rt: &R,
    code: &Code,
    task: &mut Task,
    memory: &mut ImageMemory,
    clear: FenceClear,
) -> Result<Effect, Memory>
    requires sound { IsSound code.now task.old memory.old }
    requires settled { IsSettled code.now task.old }
    ensures sound { IfOk result (λ e. ends_run e ≡ false → IsSound code.now task.new memory.new) }
    ensures settled { IfOk result (λ _. IsSettled code.now task.new) }
{
    let need = blocked(code, task, memory, clear)?;
    let effect = statement(code, task, memory, clear)?;
    assert!(rt; need == need_in(&effect));
    Ok(effect)
}

/// The task's read brings 41, or its write has been done.
fn end_operation(code: &Code, task: &mut Task, memory: &ImageMemory)
    requires sound { IsSound code.now task.old memory.now }
    requires settled { IsSettled code.now task.old }
    ensures sound { IsSound code.now task.new memory.now }
    ensures settled { IsSettled code.now task.new }
{
    let _listing = code.listing();
    match task.wait() {
        Some(Wait::Value) => answer(task, Some(41)),
        Some(Wait::Written) => answer(task, None),
        _ => {}
    }
}

/// The task's image alone is the new team of its split.
fn end_split(
    alloc: Global,
    code: &Code,
    task: &mut Task,
    memory: &mut ImageMemory,
) -> Result<(), Memory>
    requires sound { IsSound code.now task.old memory.old }
    requires settled { IsSettled code.now task.old }
    ensures sound { OnOk result (IsSound code.now task.new memory.new) }
    ensures settled { OnOk result (IsSettled code.now task.new) }
{
    let _listing = code.listing();
    let members = Sequence::from_slice(alloc, &[memory.image()])?;
    let team = Team {
        path: Sequence::new(alloc),
        members,
    };
    if let Some(Wait::NewTeam(_)) = task.wait() {
        part(task, memory, team);
    }
    Ok(())
}

/// The event gets a post.
fn post(code: &Code, memory: &mut ImageMemory, object: u32, index: i64)
    requires { IsSoundMemory code.now memory.old }
    ensures sound { IsSoundMemory code.now memory.new }
    ensures images { memory.new.images ≡ memory.old.images }
{
    let _posted = memory.set_posts(object, index, 1);
}

/// Whether the task stands at the end of a finish.
fn is_at_close(code: &Code, task: &Task) -> bool
    ensures { result ≡ stands_at_end code.now task.now }
{
    match task.wait() {
        Some(_) => false,
        None => is_close(code.listing().instrs.get(task.address()).copied()),
    }
}

fn is_close(instr: Option<Instr>) -> bool
    ensures { result ≡ closes instr }
{
    match instr {
        Some(Instr::Close) => true,
        _ => false,
    }
}

/// Ends what the task waits for, if it doesn't stand behind its program.
fn resume(
    alloc: Global,
    code: &Code,
    task: &mut Task,
    memory: &mut ImageMemory,
    need: Need,
) -> Result<bool, Memory>
    requires sound { IsSound code.now task.old memory.old }
    requires settled { IsSettled code.now task.old }
    ensures sound { OnOk result (IsSound code.now task.new memory.new) }
    ensures settled { OnOk result (IsSettled code.now task.new) }
{
    match need {
        Need::Event(object, index) => {
            post(code, memory, object, index);
            Ok(true)
        }
        Need::Cofence => Ok(true),
        Need::Finish => {
            if is_at_close(code, task) {
                leave(code, task);
                Ok(true)
            } else {
                Ok(false)
            }
        }
        Need::Split => {
            end_split(alloc, code, task, memory)?;
            Ok(true)
        }
        Need::Operation => {
            end_operation(code, task, memory);
            Ok(true)
        }
    }
}

/// One step, whose effect is noted if it did more than run, and the end of what the task then waits for. Answers
/// whether the task goes on.
fn turn<R: Abort>(
    rt: &R,
    alloc: Global,
    code: &Code,
    task: &mut Task,
    memory: &mut ImageMemory,
    clear: FenceClear,
    effects: &mut Vec<Effect>,
) -> Result<bool, Memory>
    requires sound { IsSound code.now task.old memory.old }
    requires settled { IsSettled code.now task.old }
    ensures sound { IfOk result (λ goes. goes ≡ true → IsSound code.now task.new memory.new) }
    ensures settled { IfOk result (λ goes. goes ≡ true → IsSettled code.now task.new) }
{
    let effect = step(rt, code, task, memory, clear)?;
    let need = need_in(&effect);
    let over = is_over(&effect);
    if effect != Effect::Ran {
        effects.push(effect)?;
    }
    if over {
        return Ok(false);
    }
    match need {
        Some(need) => resume(alloc, code, task, memory, need),
        None => Ok(true),
    }
}

/// The task, or an equal one.
fn same_task(task: Task, copied: bool) -> Result<Task, Memory>
    ensures { IfOk result (λ same. same ≡ task) }
{
    if copied { task.again() } else { Ok(task) }
}

/// The effects of a task up to its end, without those of steps that did nothing more than run, and the memory after it.
/// No fence lets the task pass at its first try. Where it is copied, an equal task takes its place before each step.
fn run_task<R: Abort>(
    rt: &R,
    alloc: Global,
    code: &Code,
    task: Task,
    memory: ImageMemory,
    copied: bool,
) -> Result<(Vec<Effect>, ImageMemory), Memory>
    requires sound { IsSound code.now task memory }
    requires settled { IsSettled code.now task }
{
    let mut task = task;
    let mut memory = memory;
    let mut effects = Vec::new(alloc);
    for _step in 0..5000 {
        task = same_task(task, copied)?;
        let is_clear = effects.len() > 0;
        let clear = FenceClear {
            reads: is_clear,
            writes: is_clear,
        };
        if !turn(rt, alloc, code, &mut task, &mut memory, clear, &mut effects)? {
            break;
        }
    }
    Ok((effects, memory))
}

/// The same of the main task of an image.
fn run<R: Abort>(
    rt: &R,
    alloc: Global,
    code: &Code,
    image: u32,
    copied: bool,
) -> Result<(Vec<Effect>, ImageMemory), Memory>
    requires { image < 16 }
{
    tasks_stay_sound();
    let listing = code.listing();
    let memory = ImageMemory::new(alloc, listing.objects.as_slice(), image, IMAGES)?;
    let task = Task::main(alloc, code)?;
    run_task(rt, alloc, code, task, memory, copied)
}

/// The main task of an image has these effects and prints these lines.
pub fn expect<R: Abort>(
    rt: &R,
    alloc: Global,
    code: &Code,
    image: u32,
    effects: &[Effect],
    lines: &[&str],
) -> Result<(), Memory> {
    assert!(rt; image < IMAGES);
    let (found, memory) = run(rt, alloc, code, image, false)?;
    assert!(rt; found.as_slice() == effects, "the effects of image {image}");
    assert!(rt;
        memory.lines().len() == lines.len(),
        "the lines of image {image}"
    );
    for (found, line) in memory.lines().iter().zip(lines) {
        assert_eq!(rt; found.as_str(), *line);
    }
    Ok(())
}

/// The main task of each of these images ends with its trap, and prints nothing.
pub fn expect_traps<R: Abort>(
    rt: &R,
    alloc: Global,
    code: &Code,
    traps: &[(u32, Trap)],
) -> Result<(), Memory> {
    for (image, trap) in traps {
        expect(rt, alloc, code, *image, &[Effect::Traps(*trap)], &[])?;
    }
    Ok(())
}

/// The main task of an image ends with this trap, after so many lines of which this is the last.
fn expect_many<R: Abort>(
    rt: &R,
    alloc: Global,
    code: &Code,
    image: u32,
    trap: Trap,
    count: usize,
    last: &str,
) -> Result<(), Memory> {
    assert!(rt; image < IMAGES);
    let (effects, memory) = run(rt, alloc, code, image, false)?;
    assert!(rt; effects.as_slice() == [Effect::Traps(trap)].as_slice());
    assert_eq!(rt; memory.lines().len(), count);
    assert_eq!(rt; memory.lines().last().map(|line| line.as_str()), Some(last));
    Ok(())
}

/// The main task of an image has the same effects where it is copied, and prints this line.
pub fn expect_alike<R: Abort>(
    rt: &R,
    alloc: Global,
    code: &Code,
    image: u32,
    line: &str,
) -> Result<(), Memory> {
    assert!(rt; image < IMAGES);
    let (effects, _memory) = run(rt, alloc, code, image, false)?;
    let (found, memory) = run(rt, alloc, code, image, true)?;
    assert!(rt;
        found.as_slice() == effects.as_slice(),
        "the effects of image {image}"
    );
    assert_eq!(rt; memory.lines().last().map(|last| last.as_str()), Some(line));
    Ok(())
}

// A section of the array from 0 to 3.
pub fn section(image: u32, from: i64, extent: u32) -> Section {
    Section {
        image,
        object: 1,
        from,
        extent,
    }
}

pub fn event(image: u32, index: i64) -> EventAt
    ensures { result ≡ record { image = image; object = 2; index = index } }
{
    EventAt {
        image,
        object: 2,
        index,
    }
}

/// The subroutine of the messages as a task of image 1, with an event for its end.
fn run_shipped<R: Abort>(
    rt: &R,
    alloc: Global,
    code: &Code,
) -> Result<(Vec<Effect>, ImageMemory), Memory>
    requires { code.now ≡ messages_code }
{
    tasks_stay_sound();
    let listing = code.listing();
    let memory = ImageMemory::new(alloc, listing.objects.as_slice(), 1, IMAGES)?;
    let task = Task::shipped(alloc, code, 0, &[5], Some(event(1, 2)))?;
    run_task(rt, alloc, code, task, memory, false)
}

/// The team of all images.
pub fn world(alloc: Global) -> Result<Team, Memory> {
    let mut members = Sequence::new(alloc);
    for image in 0..IMAGES {
        members.push(image)?;
    }
    Ok(Team {
        path: Sequence::new(alloc),
        members,
    })
}

pub const LEFT: Effect = Effect::Blocks(Need::Finish);

pub const AWAITS: Effect = Effect::Blocks(Need::Operation);

fn reads<R: Abort>(rt: &R, alloc: Global, code: &Code) -> Result<(), Memory> {
    let reads = Effect::Begins(OpSpec::Read(section(1, 2, 1)));
    expect(rt, alloc, code, 0, &[reads, AWAITS, LEFT, LEFT], &["42"])
}

fn writes<R: Abort>(rt: &R, alloc: Global, code: &Code) -> Result<(), Memory> {
    let writes = Effect::Begins(OpSpec::Write(section(1, 3, 1), 7));
    expect(rt, alloc, code, 4, &[writes, AWAITS, LEFT, LEFT], &[])
}

fn reads_and_writes<R: Abort>(rt: &R, alloc: Global, code: &Code) -> Result<(), Memory> {
    let reads = Effect::Begins(OpSpec::Read(section(6, 2, 1)));
    let writes = Effect::Begins(OpSpec::Write(section(6, 1, 1), 8));
    let index = Effect::Traps(Trap::Index);
    let effects = [reads, AWAITS, writes, AWAITS, index];
    expect(rt, alloc, code, 6, &effects, &[])
}

fn accesses_do<R: Abort>(rt: &R, alloc: Global, code: &Code) -> Result<(), Memory> {
    reads(rt, alloc, code)?;
    writes(rt, alloc, code)?;
    reads_and_writes(rt, alloc, code)?;
    let traps = [
        (1, Trap::Index),
        (2, Trap::Team),
        (3, Trap::Rank),
        (5, Trap::Index),
        (7, Trap::Copointer),
        (8, Trap::Index),
    ];
    expect_traps(rt, alloc, code, &traps)
}

#[test]
fn reads_and_writes_begin_or_trap(rt: HostRuntime) -> Result<(), Fail> {
    let alloc = rt.alloc();
    Ok(accesses_do(&rt, alloc, &accesses(alloc)?)?)
}

fn notices<R: Abort>(rt: &R, alloc: Global, code: &Code) -> Result<(), Memory> {
    let notice = Effect::Begins(OpSpec::Notice(event(0, 2)));
    expect(rt, alloc, code, 0, &[notice, LEFT, LEFT], &[])
}

fn waits<R: Abort>(rt: &R, alloc: Global, code: &Code) -> Result<(), Memory> {
    let waits = [
        Effect::Blocks(Need::Event(2, 2)),
        Effect::Blocks(Need::Event(2, 2)),
        LEFT,
        LEFT,
    ];
    expect(rt, alloc, code, 2, &waits, &[])
}

fn copies<R: Abort>(rt: &R, alloc: Global, code: &Code) -> Result<(), Memory> {
    let copy = Effect::Begins(OpSpec::Copy(CopyOrder {
        dest: section(2, 0, 2),
        source: section(4, 2, 2),
        pre: None,
        srce: None,
        deste: Some(event(4, 1)),
    }));
    expect(rt, alloc, code, 4, &[copy, LEFT, LEFT], &[])
}

fn fences<R: Abort>(rt: &R, alloc: Global, code: &Code) -> Result<(), Memory> {
    let fence = Effect::Blocks(Need::Cofence);
    expect(rt, alloc, code, 8, &[fence, LEFT, LEFT], &[])
}

fn ships<R: Abort>(rt: &R, alloc: Global, code: &Code) -> Result<(), Memory> {
    let ship = Effect::Begins(OpSpec::Ship {
        target: 1,
        sub: 0,
        args: Sequence::from_slice(alloc, &[5])?,
        done: Some(event(9, 1)),
    });
    expect(rt, alloc, code, 9, &[ship, LEFT, LEFT], &[])
}

fn messages_do<R: Abort>(rt: &R, alloc: Global, code: &Code) -> Result<(), Memory> {
    notices(rt, alloc, code)?;
    waits(rt, alloc, code)?;
    copies(rt, alloc, code)?;
    fences(rt, alloc, code)?;
    ships(rt, alloc, code)?;
    let traps = [
        (1, Trap::Index),
        (3, Trap::Index),
        (5, Trap::Section),
        (6, Trap::Section),
        (7, Trap::Index),
        (10, Trap::Rank),
    ];
    expect_traps(rt, alloc, code, &traps)
}

#[test]
fn messages_are_sent_and_awaited(rt: HostRuntime) -> Result<(), Fail> {
    let alloc = rt.alloc();
    Ok(messages_do(&rt, alloc, &messages(alloc)?)?)
}

fn enters<R: Abort>(rt: &R, alloc: Global, code: &Code) -> Result<(), Memory> {
    let enters = Effect::Enters(world(alloc)?);
    expect(rt, alloc, code, 0, &[enters, LEFT, LEFT, LEFT], &["1"])
}

/// Image 2 arrives at a split of the world.
fn arrival(alloc: Global) -> Result<Effect, Memory> {
    Ok(Effect::Arrives {
        team: world(alloc)?,
        colour: 3,
        key: -1,
        new: 3,
    })
}

/// Image 2 enters a finish of the team that it is alone.
fn entry(alloc: Global) -> Result<Effect, Memory> {
    let members = Sequence::from_slice(alloc, &[2])?;
    Ok(Effect::Enters(Team {
        path: Sequence::new(alloc),
        members,
    }))
}

fn splits<R: Abort>(rt: &R, alloc: Global, code: &Code) -> Result<(), Memory> {
    let parts = Effect::Blocks(Need::Split);
    let effects = [arrival(alloc)?, parts, entry(alloc)?, LEFT, LEFT, LEFT];
    expect(rt, alloc, code, 2, &effects, &["0 1"])
}

/// The main task of an image does nothing that goes beyond it, and prints this line.
fn expect_line<R: Abort>(
    rt: &R,
    alloc: Global,
    code: &Code,
    image: u32,
    line: &str,
) -> Result<(), Memory> {
    expect(rt, alloc, code, image, &[LEFT, LEFT], &[line])
}

fn teams_do<R: Abort>(rt: &R, alloc: Global, code: &Code) -> Result<(), Memory> {
    enters(rt, alloc, code)?;
    splits(rt, alloc, code)?;
    expect_line(rt, alloc, code, 5, "6")?;
    expect_line(rt, alloc, code, 6, "41")?;
    expect_line(rt, alloc, code, 8, "11")?;
    let traps = [
        (1, Trap::Team),
        (3, Trap::Team),
        (4, Trap::Team),
        (7, Trap::Index),
    ];
    expect_traps(rt, alloc, code, &traps)
}

#[test]
fn finishes_splits_and_calls(rt: HostRuntime) -> Result<(), Fail> {
    let alloc = rt.alloc();
    Ok(teams_do(&rt, alloc, &teams(alloc)?)?)
}

fn two_lines<R: Abort>(rt: &R, alloc: Global, code: &Code) -> Result<(), Memory> {
    expect(rt, alloc, code, 1, &[LEFT, LEFT], &["5", "7"])
}

fn programs_do<R: Abort>(rt: &R, alloc: Global, code: &Code) -> Result<(), Memory> {
    expect_line(rt, alloc, code, 0, "-3 -1 -6")?;
    two_lines(rt, alloc, code)?;
    expect_line(rt, alloc, code, 4, "T F never")?;
    let traps = [
        (5, Trap::Number),
        (6, Trap::Divisor),
        (7, Trap::Step),
        (8, Trap::Index),
        (9, Trap::Index),
    ];
    expect_traps(rt, alloc, code, &traps)?;
    // A subroutine that calls itself with one more is called 200 times. Lines of 120 bytes and their ends: 541 fit.
    expect_many(rt, alloc, code, 2, Trap::Depth, 200, "200")?;
    expect_many(rt, alloc, code, 3, Trap::Output, 541, LONG)
}

#[test]
fn small_programs_print_their_lines(rt: HostRuntime) -> Result<(), Fail> {
    let alloc = rt.alloc();
    Ok(programs_do(&rt, alloc, &programs(alloc)?)?)
}

#[test]
fn a_shipped_task_ends_with_its_event(rt: HostRuntime) -> Result<(), Fail> {
    let alloc = rt.alloc();
    let code = messages(alloc)?;
    let (effects, memory) = run_shipped(&rt, alloc, &code)?;
    assert!(rt; effects.as_slice() == [Effect::Ends(Some(event(1, 2)))].as_slice());
    assert_eq!(rt; memory.lines().len(), 1);
    Ok(())
}

fn teams_go_on_alike<R: Abort>(rt: &R, alloc: Global, code: &Code) -> Result<(), Memory> {
    expect_alike(rt, alloc, code, 2, "0 1")?;
    expect_alike(rt, alloc, code, 8, "11")
}

#[test]
fn equal_tasks_go_on_alike(rt: HostRuntime) -> Result<(), Fail> {
    let alloc = rt.alloc();
    expect_alike(&rt, alloc, &accesses(alloc)?, 0, "42")?;
    Ok(teams_go_on_alike(&rt, alloc, &teams(alloc)?)?)
}
