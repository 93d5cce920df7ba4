ghost use Rattle.std.specs.Prelude.{◌≡◌, ◌≤◌, ◌+◌, [], IfOk, IsTrue, OnOk, false, length};
ghost use Rattle.caf_codegen.specs.Compiled.{Compiled};
ghost use Rattle.caf_solo.specs.declared.phase.Phase.TheVariants as phase;
ghost use Rattle.caf_solo.specs.Followed.{Follows};
ghost use Rattle.caf_solo.specs.Led.{ending_in, is_over as over_in, trap_in};
ghost use Rattle.caf_solo.specs.RunOf.{IsRunOf, told, told_alone};
ghost use Rattle.caf_source.specs.Built.{is_program_built};

use crate::Phase;
use crate::solo::step;
use caf_base::{Ending, ImageSummary, Memory, Sequence, Summary, Text, Trap};
use caf_code::{Code, tasks_stay_sound};
use caf_journal::Entry;
use caf_memory::ImageMemory;
use caf_program::Accepted;
use caf_source::main_tasks_come_to_their_end;
use caf_vm::Task;
use std::alloc::Global;

/// What a run leaves.
#[derive(Drop)]
pub struct Run {
    pub journal: Sequence<Entry>,
    /// What a report tells of it.
    pub summary: Summary,
}

/// A program on its way.
#[derive(Drop)]
struct Solo {
    phase: Phase,
    memory: ImageMemory,
    task: Task,
    journal: Sequence<Entry>,
}

/// A program before its first entry.
fn begin(alloc: Global, a: &Accepted, code: &Code) -> Result<Solo, Memory>
    requires built { IsTrue (is_program_built a.now) }
    requires compiled { Compiled a.now code.now }
    ensures follows { IfOk result (λ solo. Follows a.now code.now solo.journal solo.phase solo.memory solo.task) }
    ensures empty { IfOk result (λ solo. solo.journal ≡ []) }
{
    main_tasks_come_to_their_end();
    tasks_stay_sound();
    let _listing = code.listing();
    let memory = ImageMemory::new(alloc, a.program().objects.as_slice(), 0, 1)?;
    let task = Task::main(alloc, code)?;
    Ok(Solo {
        phase: Phase::Running,
        memory,
        task,
        journal: Sequence::new(alloc),
    })
}

/// A step of the main task, or its image's contribution where the task can't go on.
fn go_on(_a: &Accepted, code: &Code, solo: &mut Solo) -> Result<(), Memory>
    requires built { IsTrue (is_program_built _a.now) }
    requires compiled { Compiled _a.now code.now }
    requires running { solo.old.phase ≡ phase.Running }
    requires follows { Follows _a.now code.now solo.old.journal solo.old.phase solo.old.memory solo.old.task }
    ensures follows { OnOk result (Follows _a.now code.now solo.new.journal solo.new.phase solo.new.memory solo.new.task) }
    ensures longer { OnOk result (length solo.new.journal ≡ length solo.old.journal + 1) }
{
    main_tasks_come_to_their_end();
    let (phase, entry) = step(code, &mut solo.task, &mut solo.memory)?;
    solo.phase = phase;
    solo.journal.push(entry)
}

/// The result of the wave, to which nothing was sent.
fn take_result(_a: &Accepted, code: &Code, solo: &mut Solo) -> Result<(), Memory>
    requires contributed { solo.old.phase ≡ phase.Contributed }
    requires follows { Follows _a.now code.now solo.old.journal solo.old.phase solo.old.memory solo.old.task }
    ensures follows { OnOk result (Follows _a.now code.now solo.new.journal solo.new.phase solo.new.memory solo.new.task) }
    ensures longer { OnOk result (length solo.new.journal ≡ length solo.old.journal + 1) }
{
    let _listing = code.listing();
    solo.phase = Phase::Ended;
    solo.journal.push(Entry::Result(0, 0))
}

/// The end of the program's finish.
fn leave(_a: &Accepted, code: &Code, solo: &mut Solo) -> Result<(), Memory>
    requires ended { solo.old.phase ≡ phase.Ended }
    requires follows { Follows _a.now code.now solo.old.journal solo.old.phase solo.old.memory solo.old.task }
    ensures follows { OnOk result (Follows _a.now code.now solo.new.journal solo.new.phase solo.new.memory solo.new.task) }
    ensures longer { OnOk result (length solo.new.journal ≡ length solo.old.journal + 1) }
{
    let _listing = code.listing();
    solo.phase = Phase::Left;
    solo.journal.push(Entry::Leave(0))
}

/// The next entry of the run.
fn advance(a: &Accepted, code: &Code, solo: &mut Solo) -> Result<(), Memory>
    requires built { IsTrue (is_program_built a.now) }
    requires compiled { Compiled a.now code.now }
    requires going { over_in solo.old.phase ≡ false }
    requires follows { Follows a.now code.now solo.old.journal solo.old.phase solo.old.memory solo.old.task }
    ensures follows { OnOk result (Follows a.now code.now solo.new.journal solo.new.phase solo.new.memory solo.new.task) }
    ensures longer { OnOk result (length solo.new.journal ≡ length solo.old.journal + 1) }
{
    match solo.phase {
        Phase::Running => go_on(a, code, solo),
        Phase::Contributed => take_result(a, code, solo),
        Phase::Ended => leave(a, code, solo),
        Phase::Left => unreachable!(),
        Phase::Trapped(_) => unreachable!(),
    }
}

/// Whether nothing more can come.
fn is_over(phase: Phase) -> bool
    ensures { result ≡ over_in phase }
{
    match phase {
        Phase::Left => true,
        Phase::Trapped(_) => true,
        Phase::Running => false,
        Phase::Contributed => false,
        Phase::Ended => false,
    }
}

/// A program after so many entries, or at its end.
fn go(alloc: Global, a: &Accepted, code: &Code, most: u32) -> Result<Solo, Memory>
    requires built { IsTrue (is_program_built a.now) }
    requires compiled { Compiled a.now code.now }
    ensures follows { IfOk result (λ solo. Follows a.now code.now solo.journal solo.phase solo.memory solo.task) }
    ensures within { IfOk result (λ solo. length solo.journal ≤ most) }
    ensures spent { IfOk result (λ solo. over_in solo.phase ≡ false → length solo.journal ≡ most) }
{
    let mut solo = begin(alloc, a, code)?;
    for _entry in 0..most {
        if is_over(solo.phase) {
            return Ok(solo);
        }
        advance(a, code, &mut solo)?;
    }
    Ok(solo)
}

/// How the state stands.
fn ending(phase: Phase) -> Ending
    ensures { result ≡ ending_in phase }
{
    match phase {
        Phase::Trapped(_) => Ending::Trapped,
        Phase::Left => Ending::Done,
        Phase::Running => Ending::Going,
        Phase::Contributed => Ending::Going,
        Phase::Ended => Ending::Going,
    }
}

/// The trap of the image.
fn trap(phase: Phase) -> Option<Trap>
    ensures { result ≡ trap_in phase }
{
    match phase {
        Phase::Trapped(trap) => Some(trap),
        _ => None,
    }
}

/// What a report tells of the image.
fn summary_of(alloc: Global, phase: Phase, memory: &ImageMemory) -> Result<ImageSummary, Memory>
    ensures { IfOk result (λ summary. summary ≡ told phase memory.now) }
{
    let mut lines = Sequence::new(alloc);
    for line in memory.lines() {
        lines.push(Text::copy_of(alloc, line.as_str())?)?;
    }
    Ok(ImageSummary {
        lines,
        trap: trap(phase),
    })
}

/// What a report tells of the run.
fn summary(alloc: Global, solo: &Solo) -> Result<Summary, Memory>
    ensures { IfOk result (λ summary. summary ≡ told_alone solo.now.phase solo.now.memory) }
{
    let mut images = Sequence::new(alloc);
    images.push(summary_of(alloc, solo.phase, &solo.memory)?)?;
    Ok(Summary {
        images,
        ending: ending(solo.phase),
    })
}

/// Runs a compiled program on one image, up to so many entries of the journal.
///
/// The journal is legal, and leads the source machine to the state of which the summary tells. It has as many entries
/// as it may where the program would go on.
pub fn run_alone(alloc: Global, a: &Accepted, code: &Code, most: u32) -> Result<Run, Memory>
    requires built { IsTrue (is_program_built a.now) }
    requires compiled { Compiled a.now code.now }
    ensures { IfOk result (λ run. IsRunOf a.now most run.journal run.summary) }
{
    main_tasks_come_to_their_end();
    let solo = go(alloc, a, code, most)?;
    let summary = summary(alloc, &solo)?;
    Ok(Run {
        journal: solo.journal,
        summary,
    })
}
