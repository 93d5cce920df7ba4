ghost use Rattle.std.specs.Prelude.{◌≡◌, ◌≢◌, ◌⊎◌, ℕ, List, [], Some, IsSomeAnd, IsTrue, is_some};
ghost use Rattle.std.specs.Io.KnownBytes.{Keeps};
ghost use Rattle.caf_outside.specs.Causes.{Rose};
ghost use Rattle.caf_words.specs.Requests.{request_of_order};
ghost use Rattle.caf_top.specs.Ended.{journal_of};
ghost use Rattle.caf_top.specs.Promise.{IsSerialStatus, status_of};
ghost use Rattle.caf_top.specs.Dues.{TookDue, TookPartDue, host_of};
ghost use Rattle.caf_top.specs.Wanted.{IsOnImages, IsOther, wanted_in, wanted_of};

use crate::answer::{Answer, Due, answer_to};
use crate::ended::Ended;
use crate::job::{Job, job_of};
use crate::output::write_all;
use caf_base::Sequence;
use caf_outside::{Host, Sink};
use caf_words::Order;
use std::alloc::Global;

fn status_of(due: Due) -> u8
    ensures { result ≡ status_of due }
{
    match due {
        Due::Done => 0,
        Due::Trapped => 1,
        Due::Refused => 3,
        Due::Stuck => 4,
        Due::Spent => 5,
        Due::Paused => 6,
        Due::Unreadable => 7,
        Due::TooLong => 10,
        Due::TraceRefused => 11,
    }
}

/// Carries out a job, as [`caf_serial`] says.
fn carry_out<H: Host, O: Sink>(alloc: Global, job: Job<'_>, host: &mut H, out: &mut O) -> Ended
    requires { IsOnImages (wanted_of job) }
    ensures due { let seen = host_of (H.texts host.old) (H.load_faults host.old) (H.load_faults host.new) in
        result.status ≢ 8 → result.status ≢ 9 → TookDue (O.taken out.old) (O.taken out.new) seen (wanted_of job.entry) result.status (journal_of result) }
    ensures part { let seen = host_of (H.texts host.old) (H.load_faults host.old) (H.load_faults host.new) in
        result.status ≡ 8 → TookPartDue (O.taken out.old) (O.taken out.new) seen (wanted_of job.entry) (journal_of result) }
    ensures sink_failed { result.status ≡ 8 → Rose (O.faults out.old) (O.faults out.new) }
    ensures sink_stood { result.status ≢ 8 → O.faults out.new ≡ O.faults out.old }
    ensures memory { result.status ≡ 9 → Keeps (O.taken out.old) (O.taken out.new) }
    ensures no_run { result.status ≡ 9 → journal_of result ≡ [] }
    ensures status { IsSerialStatus result.status }
    ensures texts { H.texts host.new ≡ H.texts host.old }
    ensures others { (other : List ℕ) → IsOther (wanted_of job.entry) other → H.load_faults host.new other ≡ H.load_faults host.old other }
    ensures saves { H.save_faults host.new ≡ H.save_faults host.old }
{
    let Ok(answer) = answer_to(alloc, job, host) else {
        return Ended {
            status: 9,
            journal: Sequence::new(alloc),
        };
    };
    let Answer { due, journal, text } = answer;
    match write_all(out, &text) {
        Ok(()) => Ended {
            status: status_of(due),
            journal,
        },
        Err(_) => Ended { status: 8, journal },
    }
}

/// Carries out an order that is built: loads the program's text from the host, reads and checks it, runs it or lists its
/// code, and writes what is due to the sink.
///
/// | Status | Comes |
/// |---|---|
/// | 0 | the program has run to its end, or its code is listed |
/// | 1 | an image has a trap |
/// | 3 | the text is no accepted program, or one that doesn't run yet |
/// | 4 | no image can go on |
/// | 5 | the journal has as many entries as it may, and the program would go on |
/// | 6 | all choices of a trace were made, and the program would go on |
/// | 7 | the text or the trace can't be loaded |
/// | 8 | the sink met a fault |
/// | 9 | for want of memory |
/// | 10 | the text is longer than 1,048,576 bytes, or the trace than 67,108,864 |
/// | 11 | a line isn't one of a trace, or its choice isn't defined |
pub fn caf_serial<H: Host, O: Sink>(
    alloc: Global,
    order: &Order<'_>,
    host: &mut H,
    out: &mut O,
) -> Ended
    requires { IsTrue (is_some (wanted_in (request_of_order order.now))) }

    // The sink took exactly what is due, and the status is that of what this is: the report of the run, a listing, or a
    // line on why there is none.
    ensures due { result.status ≢ 8 → result.status ≢ 9 → IsSomeAnd (wanted_in (request_of_order order.now)) (λ wanted.
        let seen = host_of (H.texts host.old) (H.load_faults host.old) (H.load_faults host.new) in
        TookDue (O.taken out.old) (O.taken out.new) seen wanted result.status (journal_of result)) }

    // The sink met a fault in this call, exactly then, and took less than was due.
    ensures part { result.status ≡ 8 → IsSomeAnd (wanted_in (request_of_order order.now)) (λ wanted.
        let seen = host_of (H.texts host.old) (H.load_faults host.old) (H.load_faults host.new) in
        TookPartDue (O.taken out.old) (O.taken out.new) seen wanted (journal_of result)) }
    ensures sink_failed { result.status ≡ 8 → Rose (O.faults out.old) (O.faults out.new) }
    ensures sink_stood { result.status ≢ 8 → O.faults out.new ≡ O.faults out.old }

    // For want of memory nothing was written.
    ensures memory { result.status ≡ 9 → Keeps (O.taken out.old) (O.taken out.new) }
    ensures no_run { result.status ≡ 9 → journal_of result ≡ [] }

    // There is no other status. The host's texts stay, and no other name was loaded nor any saved.
    ensures status { IsSerialStatus result.status }
    ensures texts { H.texts host.new ≡ H.texts host.old }
    ensures others { IsSomeAnd (wanted_in (request_of_order order.now)) (λ wanted.
        (other : List ℕ) → IsOther wanted other → H.load_faults host.new other ≡ H.load_faults host.old other) }
    ensures saves { H.save_faults host.new ≡ H.save_faults host.old }
{
    match job_of(order) {
        Some(job) => carry_out(alloc, job, host, out),
        None => unreachable!(),
    }
}
