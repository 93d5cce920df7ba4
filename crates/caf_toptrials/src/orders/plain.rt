use super::{Case, STEP, SUM, SUM_REPORT, all_come_to, comes_to};
use caf_outside::MemSink;
use caf_top::{Entry, Four, caf_main};
use std::alloc::Global;
use std::test::Fail;

const PROGRAMS: [Case; 8] = [
    (SUM, 0, SUM_REPORT),
    (
        "program x\r\nprint *, 2+3*4\r\nend program\r\n",
        0,
        SUM_REPORT,
    ),
    (
        "program x\nprint *, -7/2, mod(-7,2), -2*3\nend program\n",
        0,
        "0: -3 -1 -6\ndone: images 1, lines 1, traps 0\n",
    ),
    (
        "program x\ninteger :: i\ndo i = 5, 1\nprint *, 'never'\nend do\nprint *, i\ndo i = 1, 5, 2\nend do\nprint *, i\nend program\n",
        0,
        "0: 5\n0: 7\ndone: images 1, lines 2, traps 0\n",
    ),
    (
        "program x\ninteger :: x\nx = 9223372036854775807\nprint *, x\nif (team_rank() == 0) then\nx = x + 1\nend if\nprint *, x\nend program\n",
        1,
        "0: 9223372036854775807\ntrap: image 0, 2 number\ntrapped: images 1, lines 1, traps 1\n",
    ),
    (
        "program x\ninteger :: a(2:3)\na(3) = 8\nprint *, a(2), a(3), team_size()\nprint *, a(4)\nend program\n",
        1,
        "0: 0 8 1\ntrap: image 0, 1 index\ntrapped: images 1, lines 1, traps 1\n",
    ),
    (
        "program x\ninteger :: k\nk = 10\ndo while (k > 7)\ncall less(k)\nprint *, 'k', k, k == 8\nend do\ncontains\nsubroutine less(n)\ninteger, intent(inout) :: n\nn = n - 1\nend subroutine\nend program\n",
        0,
        "0: k 9 F\n0: k 8 T\n0: k 7 F\ndone: images 1, lines 3, traps 0\n",
    ),
    (
        "program x\nend program\n",
        0,
        "done: images 1, lines 0, traps 0\n",
    ),
];

#[test]
fn plain_programs_run(rt: HostRuntime) -> Result<(), Fail> {
    all_come_to(&rt, rt.alloc(), &PROGRAMS)
}

/// A subroutine that prints its argument and calls itself with the next number.
const DEEPER: &str =
    "program x\ncall f(1)\ncontains\nsubroutine f(n)\ninteger, intent(in) :: n\nprint *, n\ncall f(n + 1)\nend subroutine\nend program\n";

#[test]
fn two_hundred_calls_may_be_open(rt: HostRuntime) -> Result<(), Fail> {
    let alloc = rt.alloc();
    let mut report = String::new(alloc);
    for k in 1..201_u32 {
        report.push_str("0: ")?;
        report.push_str(format!(in alloc; "{k}")?.as_str())?;
        report.push_str("\n")?;
    }
    report.push_str("trap: image 0, 7 depth\ntrapped: images 1, lines 200, traps 1\n")?;
    comes_to(&rt, alloc, &STEP, DEEPER.as_bytes(), (1, report.as_str()))?;
    Ok(())
}

const NO_COUNTS: Four = Four {
    sent: 0,
    delivered: 0,
    received: 0,
    completed: 0,
};

const RUN: [Entry; 4] = [
    Entry::Step(0, 0),
    Entry::Contribute(0, NO_COUNTS),
    Entry::Result(0, 0),
    Entry::Leave(0),
];

#[test]
fn a_run_ends_with_its_wave_or_is_spent(rt: HostRuntime) -> Result<(), Fail> {
    let alloc = rt.alloc();
    for (events, status) in [("4", 0), ("3", 5), ("1", 5)] {
        let words = ["step", "p", "1", "1", events];
        let mut host = super::host_with(alloc, &[], SUM.as_bytes())?;
        let mut out = MemSink::new(alloc, &[], 100, 4096)?;
        let ended = caf_main(&rt, alloc, &words, &mut host, &mut out);
        assert_eq!(rt; ended.status, status);
        let length = ended.journal().len();
        assert!(rt; length <= RUN.len());
        assert_eq!(rt; ended.journal(), &RUN[..length]);
    }
    let going = "0: 14\ngoing: images 1, lines 1, traps 0\n";
    let words = ["step", "p", "1", "1", "3"];
    let entries = comes_to(&rt, alloc, &words, SUM.as_bytes(), (5, going))?;
    assert_eq!(rt; entries, 3);
    Ok(())
}

#[test]
fn a_code_is_listed(rt: HostRuntime) -> Result<(), Fail> {
    let alloc = rt.alloc();
    let listing =
        "caf code 3\n0: push 2\n1: push 3\n2: push 4\n3: mul\n4: add\n5: printn\n6: line\n7: close\n8: halt\n";
    comes_to(&rt, alloc, &["list", "p"], SUM.as_bytes(), (0, listing))?;
    let waits = b"program x\nevent :: e\nevent_wait(e)\nend program\n";
    comes_to(
        &rt,
        alloc,
        &["list", "p"],
        waits,
        (
            0,
            "caf code 3\nobject 0 event 1 1 own\n0: push 1\n1: wait 0\n2: close\n3: halt\n",
        ),
    )?;
    Ok(())
}
