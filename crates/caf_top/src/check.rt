ghost use Rattle.std.specs.Prelude.{◌≡◌, ◌≢◌, ◌≤◌, ◌++◌, ℕ, List, [], codes, decimal, length, IfOk};
ghost use Rattle.caf_outside.specs.Texts.{Has};
ghost use Rattle.caf_top.specs.Check.{CheckDue, IsAccepted, IsTraced, due_of_check};
ghost use Rattle.caf_top.specs.Dues.{IsCheckDue, host_of};
ghost use Rattle.caf_top.specs.Promise.{Seen, limit, seen_of};

use crate::answer::{Answer, Due, LIMIT, stopped, unloaded};
use crate::read::read_program;
use caf_base::{Ending, Memory};
use caf_check::{Checked, check_trace};
use caf_outside::Host;
use caf_program::Accepted;
use caf_report::report;
use itoa::Buffer;
use std::alloc::Global;

/// The longest trace, in bytes.
const TRACE_LIMIT: usize = 67_108_864;

fn due_of_check(ending: Ending) -> Due
    ensures { result ≡ due_of_check ending }
{
    match ending {
        Ending::Done => Due::Done,
        Ending::Trapped => Due::Trapped,
        Ending::Stuck => Due::Stuck,
        Ending::Going => Due::Paused,
    }
}

/// The line on a trace that is refused.
fn refused_at(alloc: Global, number: u32) -> Result<Vec<u8>, Memory>
    ensures { IfOk result (λ line. line.items ≡ codes "trace refused at line " ++ decimal number ++ codes "\n") }
{
    let mut buffer = Buffer::new();
    let mut line = Vec::from_slice(alloc, b"trace refused at line ")?;
    line.extend_from_slice(buffer.format(number).as_bytes())?;
    line.extend_from_slice(b"\n")?;
    Ok(line)
}

/// What a trace gives for a program.
fn traced(alloc: Global, a: &Accepted, images: u32, trace: &[u8]) -> Result<Answer, Memory>
    requires least { 1 ≤ images }
    requires most { images ≤ 64 }
    ensures { IfOk result (λ answer. IsTraced a.now images answer.due trace.now answer.text.items × (answer.journal ≡ [])) }
{
    match check_trace(alloc, a, images, trace)? {
        Checked::Ended(summary) => {
            let text = report(alloc, &summary)?;
            Ok(Answer::without_run(alloc, due_of_check(summary.ending), text))
        }
        Checked::Refused(number) => {
            let line = refused_at(alloc, number)?;
            Ok(Answer::without_run(alloc, Due::TraceRefused, line))
        }
    }
}

/// The same of the trace that the host holds under a name, behind a file that was loaded and is accepted.
fn followed<H: Host>(
    alloc: Global,
    a: &Accepted,
    images: u32,
    trace: &str,
    host: &mut H,
) -> Result<Answer, Memory>
    requires least { 1 ≤ images }
    requires most { images ≤ 64 }
    ensures due { let seen = seen_of (H.texts host.old) (H.load_faults host.old) (H.load_faults host.new) trace.now in
        (file : Seen) → IsAccepted file a.now → IfOk result (λ answer. CheckDue file seen images answer.due answer.text.items × (answer.journal ≡ [])) }
    ensures others { (other : List ℕ) → other ≢ trace.now → H.load_faults host.new other ≡ H.load_faults host.old other }
    ensures saves { H.save_faults host.new ≡ H.save_faults host.old }
    ensures texts { H.texts host.new ≡ H.texts host.old }
{
    match host.load(alloc, trace, TRACE_LIMIT) {
        Ok(bytes) => traced(alloc, a, images, &bytes),
        Err(fault) => unloaded(alloc, fault, trace),
    }
}

/// The same behind a file that gave these bytes without a fault.
fn read_and_followed<H: Host>(
    alloc: Global,
    bytes: &[u8],
    images: u32,
    trace: &str,
    host: &mut H,
) -> Result<Answer, Memory>
    requires least { 1 ≤ images }
    requires most { images ≤ 64 }
    requires within { length bytes.now ≤ limit }
    ensures due { let seen = seen_of (H.texts host.old) (H.load_faults host.old) (H.load_faults host.new) trace.now in
        (file : Seen) → file.failed_now ≡ file.failed_before → Has file.texts file.name (λ held. bytes.now ≡ held)
        → IfOk result (λ answer. CheckDue file seen images answer.due answer.text.items × (answer.journal ≡ [])) }
    ensures others { (other : List ℕ) → other ≢ trace.now → H.load_faults host.new other ≡ H.load_faults host.old other }
    ensures saves { H.save_faults host.new ≡ H.save_faults host.old }
    ensures texts { H.texts host.new ≡ H.texts host.old }
{
    match read_program(alloc, bytes) {
        Ok(accepted) => followed(alloc, &accepted, images, trace, host),
        Err(stop) => stopped(alloc, &stop),
    }
}

/// What the answer to a check is: the source machine follows the choices of a trace.
pub(crate) fn check_answer<H: Host>(
    alloc: Global,
    file: &str,
    images: u32,
    trace: &str,
    host: &mut H,
) -> Result<Answer, Memory>
    requires least { 1 ≤ images }
    requires most { images ≤ 64 }
    ensures due { let seen = host_of (H.texts host.old) (H.load_faults host.old) (H.load_faults host.new) in
        IfOk result (λ answer. IsCheckDue seen file.now images trace.now answer.due answer.journal answer.text.items) }
    ensures others { (other : List ℕ) → other ≢ file.now → other ≢ trace.now → H.load_faults host.new other ≡ H.load_faults host.old other }
    ensures saves { H.save_faults host.new ≡ H.save_faults host.old }
    ensures texts { H.texts host.new ≡ H.texts host.old }
{
    match host.load(alloc, file, LIMIT) {
        Ok(bytes) => read_and_followed(alloc, &bytes, images, trace, host),
        Err(fault) => unloaded(alloc, fault, file),
    }
}
