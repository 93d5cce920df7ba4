mod long;
mod outside;
mod plain;
mod refused;
mod words;

use caf_outside::{MemHost, MemSink};
use caf_top::caf_main;
use std::alloc::Global;
use std::process::Abort;
use std::sync::Wait;
use std::test::Fail;
use std::thread::Threads;

/// The words that run the program `p` on one image.
pub(crate) const STEP: [&str; 5] = ["step", "p", "1", "7", "10000"];

/// A program that prints one number.
pub(crate) const SUM: &str = "program x\nprint *, 2+3*4\nend program\n";

pub(crate) const SUM_REPORT: &str = "0: 14\ndone: images 1, lines 1, traps 0\n";

/// A program's text, the status of its run, and what is written.
pub(crate) type Case = (&'static str, u8, &'static str);

/// A host that holds this text under `p`, and fails at these calls.
pub(crate) fn host_with(alloc: Global, failing: &[u64], text: &[u8]) -> Result<MemHost, Fail> {
    let mut host = MemHost::new(alloc, failing, 0, 0)?;
    host.hold(alloc, "p", text)?;
    Ok(host)
}

/// Carries out the words over a host that holds this text under `p`, and compares the status, what was written and the
/// number of entries.
pub(crate) fn comes_to<'a, R: Abort + Threads + Wait + Sync>(
    rt: &R,
    alloc: Global,
    words: &'a [&'a str],
    text: &[u8],
    wanted: (u8, &str),
) -> Result<usize, Fail> {
    let mut host = host_with(alloc, &[], text)?;
    let mut out = MemSink::new(alloc, &[], 100, 1_048_576)?;
    let ended = caf_main(rt, alloc, words, &mut host, &mut out);
    assert_eq!(rt; ended.status, wanted.0);
    assert_eq!(rt; out.bytes(), wanted.1.as_bytes());
    Ok(ended.journal().len())
}

/// Runs each program on one image.
pub(crate) fn all_come_to<R: Abort + Threads + Wait + Sync>(
    rt: &R,
    alloc: Global,
    cases: &[Case],
) -> Result<(), Fail> {
    for (text, status, written) in cases {
        comes_to(rt, alloc, &STEP, text.as_bytes(), (*status, *written))?;
    }
    Ok(())
}
