ghost use Rattle.std.specs.Prelude.{◌≡◌, ◌≢◌, ◌≤◌, ◌<◌, ◌^◌, ◌++◌, ℕ, List, [], None, codes, length, IfOk, IsTrue};
ghost use Rattle.caf_outside.specs.Texts.{Has};
ghost use Rattle.caf_source.specs.Built.{is_program_built};
ghost use Rattle.caf_top.specs.Answers.{CarriedOut, IsListing, IsRefusal, IsReport, IsStopped, IsTold, RanUnless};
ghost use Rattle.caf_top.specs.Promise.{IsDue, IsGiven, Seen, due_of_ending, limit, seen_of};
ghost use Rattle.caf_top.specs.Dues.{IsWantedDue, host_of};
ghost use Rattle.caf_top.specs.Reading.{told_by};
ghost use Rattle.caf_top.specs.Wanted.{IsOnImages, IsOther, wanted_of};
ghost use Rattle.caf_unbuilt.specs.Unbuilt.{first_unbuilt as first};

use crate::check::check_answer;
use crate::job::{Job, Work};
use crate::read::read_program;
use crate::refusal::{Refusal, Stop, line_of, refused};
use caf_base::{Ending, Memory, Sequence};
use caf_code::print_listing;
use caf_codegen::compile;
use caf_journal::Entry;
use caf_outside::{Host, LoadFail};
use caf_program::Accepted;
use caf_report::report;
use caf_solo::run_alone;
use caf_unbuilt::first_unbuilt;
use std::alloc::Global;

/// The longest program text, in bytes.
pub(crate) const LIMIT: usize = 1_048_576;

/// What is due to be written: the report of a run by how it ends, a listing, or a line on why there is none.
#[derive(Clone, Copy)]
pub(crate) enum Due {
    /// The report of a run to its end, or a listing.
    Done,
    Trapped,
    Refused,
    Stuck,
    Spent,
    Paused,
    Unreadable,
    TooLong,
    TraceRefused,
}

/// The text that is due to be written, what it is, and the journal of the run.
#[derive(Drop)]
pub(crate) struct Answer {
    pub(crate) due: Due,
    pub(crate) journal: Sequence<Entry>,
    pub(crate) text: Vec<u8>,
}

impl Answer {
    // A text without a run.
    pub(crate) fn without_run(alloc: Global, due: Due, text: Vec<u8>) -> Answer
        ensures due { result.due ≡ due }
        ensures journal { result.journal ≡ [] }
        ensures text { result.text ≡ text }
    {
        Answer {
            due,
            journal: Sequence::new(alloc),
            text,
        }
    }
}

fn due_of_ending(ending: Ending) -> Due
    ensures { result ≡ due_of_ending ending }
{
    match ending {
        Ending::Done => Due::Done,
        Ending::Trapped => Due::Trapped,
        Ending::Stuck => Due::Stuck,
        Ending::Going => Due::Spent,
    }
}

/// The report of a program's run on one image.
fn reported(alloc: Global, a: &Accepted, events: u32) -> Result<Answer, Memory>
    requires { IsTrue (is_program_built a.now) }
    ensures { IfOk result (λ answer. IsReport events a.now answer.due answer.journal answer.text.items) }
{
    let code = compile(alloc, a)?;
    let run = run_alone(alloc, a, &code, events)?;
    Ok(Answer {
        due: due_of_ending(run.summary.ending),
        text: report(alloc, &run.summary)?,
        journal: run.journal,
    })
}

/// The listing of a program's code.
fn listed(alloc: Global, a: &Accepted) -> Result<Answer, Memory>
    ensures { IfOk result (λ answer. IsListing a.now answer.due answer.journal answer.text.items) }
{
    let code = compile(alloc, a)?;
    let _listing = code.listing();
    let text = print_listing(alloc, &code)?;
    Ok(Answer::without_run(alloc, Due::Done, text))
}

/// The line of a refusal.
fn told(alloc: Global, refusal: &Refusal) -> Result<Answer, Memory>
    ensures { IfOk result (λ answer. IsRefusal (told_by refusal.now) answer.due answer.journal answer.text.items) }
{
    let line = line_of(alloc, refusal)?;
    Ok(Answer::without_run(alloc, Due::Refused, line))
}

/// The same, where memory wasn't wanting before.
pub(crate) fn stopped(alloc: Global, stop: &Stop) -> Result<Answer, Memory>
    ensures { IfOk result (λ answer. IsStopped stop.now answer.due answer.journal answer.text.items) }
{
    match stop {
        Stop::Refused(refusal) => told(alloc, refusal),
        Stop::Memory => Err(Memory),
    }
}

/// The line of a program that doesn't run yet.
fn unbuilt(alloc: Global, line: u32) -> Result<Answer, Memory>
    ensures { IfOk result (λ answer. IsRefusal (line, codes "not yet") answer.due answer.journal answer.text.items) }
{
    stopped(alloc, &refused(alloc, line, "not yet"))
}

/// The report of a run on one image, unless a statement doesn't run yet.
fn ran(alloc: Global, a: &Accepted, events: u32) -> Result<Answer, Memory>
    ensures { IfOk result (λ answer. RanUnless (first a.now) events a.now answer.due answer.journal answer.text.items) }
{
    match first_unbuilt(a) {
        Some(line) => unbuilt(alloc, line),
        None => reported(alloc, a, events),
    }
}

/// What is wanted of an accepted program.
fn carried_out(alloc: Global, work: Work, a: &Accepted) -> Result<Answer, Memory>
    ensures { IfOk result (λ answer. CarriedOut work a.now answer.due answer.journal answer.text.items) }
{
    match work {
        Work::Run { events } => ran(alloc, a, events),
        Work::List => listed(alloc, a),
    }
}

/// What a loaded text gives.
fn given(alloc: Global, work: Work, bytes: &[u8]) -> Result<Answer, Memory>
    requires { length bytes.now < 2 ^ 32 }
    ensures { IfOk result (λ answer. IsGiven work answer.due bytes.now answer.journal answer.text.items) }
{
    match read_program(alloc, bytes) {
        Ok(accepted) => carried_out(alloc, work, &accepted),
        Err(stop) => stopped(alloc, &stop),
    }
}

/// The same, as what is due of a host that gave the text without a fault.
fn due_of(alloc: Global, work: Work, bytes: &[u8]) -> Result<Answer, Memory>
    requires { length bytes.now ≤ limit }
    ensures { (host : Seen) → host.failed_now ≡ host.failed_before → Has host.texts host.name (λ held. bytes.now ≡ held)
        → IfOk result (λ answer. IsDue host work answer.due answer.journal answer.text.items) }
{
    given(alloc, work, bytes)
}

/// A line on a file.
fn line_on(alloc: Global, front: &str, file: &str) -> Result<Vec<u8>, Memory>
    ensures { IfOk result (λ line. line.items ≡ front.now ++ file.now ++ codes "\n") }
{
    let mut line = Vec::from_slice(alloc, front.as_bytes())?;
    line.extend_from_slice(file.as_bytes())?;
    line.extend_from_slice(b"\n")?;
    Ok(line)
}

fn not_loaded(alloc: Global, due: Due, front: &str, file: &str) -> Result<Answer, Memory>
    ensures { IfOk result (λ answer. (answer.due ≡ due) × (answer.journal ≡ []) × (answer.text.items ≡ front.now ++ file.now ++ codes "\n")) }
{
    let line = line_on(alloc, front, file)?;
    Ok(Answer::without_run(alloc, due, line))
}

/// The line on a name that gives no text.
pub(crate) fn unloaded(alloc: Global, fault: LoadFail, file: &str) -> Result<Answer, Memory>
    ensures { IfOk result (λ answer. IsTold fault file.now answer.due answer.journal answer.text.items) }
{
    match fault {
        LoadFail::Failed => not_loaded(alloc, Due::Unreadable, "cannot read ", file),
        LoadFail::TooLong => not_loaded(alloc, Due::TooLong, "too long ", file),
        LoadFail::Memory => Err(Memory),
    }
}

/// What the answer for a file's program by itself is.
fn answer_by_itself<H: Host>(
    alloc: Global,
    file: &str,
    work: Work,
    host: &mut H,
) -> Result<Answer, Memory>
    ensures due { let seen = seen_of (H.texts host.old) (H.load_faults host.old) (H.load_faults host.new) file.now in
        IfOk result (λ answer. IsDue seen work answer.due answer.journal answer.text.items) }
    ensures others { (other : List ℕ) → other ≢ file.now → H.load_faults host.new other ≡ H.load_faults host.old other }
    ensures saves { H.save_faults host.new ≡ H.save_faults host.old }
    ensures texts { H.texts host.new ≡ H.texts host.old }
{
    match host.load(alloc, file, LIMIT) {
        Ok(bytes) => due_of(alloc, work, &bytes),
        Err(fault) => unloaded(alloc, fault, file),
    }
}

/// What the answer to a job is, before anything is written.
pub(crate) fn answer_to<H: Host>(
    alloc: Global,
    job: Job<'_>,
    host: &mut H,
) -> Result<Answer, Memory>
    requires { IsOnImages (wanted_of job) }
    ensures due { let seen = host_of (H.texts host.old) (H.load_faults host.old) (H.load_faults host.new) in
        IfOk result (λ answer. IsWantedDue seen (wanted_of job.entry) answer.due answer.journal answer.text.items) }
    ensures others { (other : List ℕ) → IsOther (wanted_of job.entry) other → H.load_faults host.new other ≡ H.load_faults host.old other }
    ensures saves { H.save_faults host.new ≡ H.save_faults host.old }
    ensures texts { H.texts host.new ≡ H.texts host.old }
{
    match job {
        Job::Program { file, work } => answer_by_itself(alloc, file, work, host),
        Job::Check {
            file,
            images,
            trace,
        } => check_answer(alloc, file, images, trace, host),
    }
}
