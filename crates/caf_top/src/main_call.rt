ghost use Rattle.std.specs.Prelude.{◌≡◌, ◌≢◌, ◌⊎◌, ℕ, List, [], map, None, IfSome, IsSomeAnd};
ghost use Rattle.std.specs.Io.KnownBytes.{Keeps};
ghost use Rattle.caf_outside.specs.Causes.{Rose};
ghost use Rattle.caf_words.specs.Requests.{asked_of, request_of_order, request_of};
ghost use Rattle.caf_top.specs.Ended.{journal_of};
ghost use Rattle.caf_top.specs.Promise.{IsMainStatus, IsUsage, Took, TookPart};
ghost use Rattle.caf_top.specs.Dues.{TookDue, TookPartDue, host_of};
ghost use Rattle.caf_top.specs.Orders.{Orders};
ghost use Rattle.caf_top.specs.Wanted.{IsOther, usage, wanted_by};

use crate::ended::Ended;
use crate::job::is_built;
use crate::output::write_all;
use crate::serial::caf_serial;
use caf_base::{Memory, Sequence};
use caf_outside::{Host, Sink};
use caf_words::{Asked, Order, WordFault, read_words};
use std::alloc::Global;
use std::sync::Wait;
use std::thread::Threads;

const USAGE: &[u8] =
    b"usage: caf run FILE IMAGES WORKERS EVENTS [--trace NAME]\nusage: caf step FILE IMAGES SEED EVENTS [--trace NAME]\nusage: caf replay FILE IMAGES TRACE\nusage: caf check FILE IMAGES TRACE\nusage: caf list FILE\nusage: caf gen NUMBER\n";

/// The order that words ask for, if it is built.
fn order_in<'a>(alloc: Global, words: &'a [&'a str]) -> Result<Option<Order<'a>>, Memory>
    ensures { Orders (map (λ word. word.now) words.now) result }
{
    match read_words(alloc, words) {
        Ok(Asked::Serial(order)) if is_built(&order) => Ok(Some(order)),
        Err(WordFault::Memory) => Err(Memory),
        _ => Ok(None),
    }
}

/// Writes the usage, for words that want nothing that is built.
fn write_usage<O: Sink>(alloc: Global, out: &mut O) -> Ended
    ensures done { result.status ≡ 2 → Took (O.taken out.old) (O.taken out.new) (λ text. text ≡ usage) }
    ensures part { result.status ≡ 8 → TookPart (O.taken out.old) (O.taken out.new) (λ text. text ≡ usage) }
    ensures failed { result.status ≡ 8 → Rose (O.faults out.old) (O.faults out.new) }
    ensures stood { result.status ≢ 8 → O.faults out.new ≡ O.faults out.old }
    ensures status { (result.status ≡ 2) ⊎ (result.status ≡ 8) }
    ensures no_run { journal_of result ≡ [] }
{
    let journal = Sequence::new(alloc);
    match write_all(out, USAGE) {
        Ok(()) => Ended { status: 2, journal },
        Err(_) => Ended { status: 8, journal },
    }
}

/// Carries out the words of a command line, without the program's name.
///
/// The status is 2 where the words ask for nothing that is built, and else that of [`caf_serial`].
pub fn caf_main<'a, R: Threads + Wait + Sync, H: Host, O: Sink>(
    _rt: &R,
    alloc: Global,
    words: &'a [&'a str],
    host: &mut H,
    out: &mut O,
) -> Ended
    // The words want nothing that is built, the sink took the usage, and the host wasn't asked.
    ensures usage { result.status ≡ 2 → Took (O.taken out.old) (O.taken out.new) (IsUsage (map (λ word. word.now) words.now) (journal_of result)) }
    ensures unasked { wanted_by (map (λ word. word.now) words.now) ≡ None → host.new ≡ host.old }

    // They want something of a file's program, and the call goes as `caf_serial` says.
    ensures due { result.status ≢ 2 → result.status ≢ 8 → result.status ≢ 9 → IsSomeAnd (wanted_by (map (λ word. word.now) words.now)) (λ wanted.
        let seen = host_of (H.texts host.old) (H.load_faults host.old) (H.load_faults host.new) in
        TookDue (O.taken out.old) (O.taken out.new) seen wanted result.status (journal_of result)) }

    // The sink met a fault in this call, exactly then, and took less than was due.
    ensures part { result.status ≡ 8 → TookPart (O.taken out.old) (O.taken out.new) (IsUsage (map (λ word. word.now) words.now) (journal_of result))
        ⊎ IsSomeAnd (wanted_by (map (λ word. word.now) words.now)) (λ wanted.
        let seen = host_of (H.texts host.old) (H.load_faults host.old) (H.load_faults host.new) in
        TookPartDue (O.taken out.old) (O.taken out.new) seen wanted (journal_of result)) }
    ensures sink_failed { result.status ≡ 8 → Rose (O.faults out.old) (O.faults out.new) }
    ensures sink_stood { result.status ≢ 8 → O.faults out.new ≡ O.faults out.old }

    // For want of memory nothing was written.
    ensures memory { result.status ≡ 9 → Keeps (O.taken out.old) (O.taken out.new) }
    ensures no_run { result.status ≡ 9 → journal_of result ≡ [] }

    // There is no other status. The host's texts stay, and no other name was loaded nor any saved.
    ensures status { IsMainStatus result.status }
    ensures texts { H.texts host.new ≡ H.texts host.old }
    ensures others { IfSome (wanted_by (map (λ word. word.now) words.now)) (λ wanted.
        (other : List ℕ) → IsOther wanted other → H.load_faults host.new other ≡ H.load_faults host.old other) }
    ensures saves { H.save_faults host.new ≡ H.save_faults host.old }
{
    let Ok(order) = order_in(alloc, words) else {
        return Ended {
            status: 9,
            journal: Sequence::new(alloc),
        };
    };
    let Some(order) = order else {
        return write_usage(alloc, out);
    };
    caf_serial(alloc, &order, host, out)
}
