use caf_base::{Four, OpName, Stage};
use caf_journal::{Entry, MAX_ENTRIES, TraceFault, print_trace, read_trace, strike};
use std::alloc::{AllocError, Global};
use std::process::Abort;
use std::test::Fail;

/// The run of a program of one statement on one image.
const ONE_IMAGE_TEXT: &[u8] = b"step 0 0\n\
            contribute 0 0 0 0 0\n\
            result 0 0\n\
            leave 0\n";

const ONE_IMAGE: [Entry; 4] = [
    Entry::Step(0, 0),
    Entry::Contribute(
        0,
        Four {
            sent: 0,
            delivered: 0,
            received: 0,
            completed: 0,
        },
    ),
    Entry::Result(0, 0),
    Entry::Leave(0),
];

/// A ship that is taken after its target has contributed, so that the finish takes two waves.
const TWO_WAVES_TEXT: &[u8] = b"step 0 0\n\
            step 0 0\n\
            step 1 0\n\
            contribute 1 0 0 0 0\n\
            touch 1 0.1 ship\n\
            ack 0 0.1 ship\n\
            contribute 0 1 1 0 0\n\
            relay 0 1\n\
            result 0 1\n\
            result 1 1\n\
            step 1 1\n\
            step 1 1\n\
            contribute 0 1 1 0 0\n\
            contribute 1 0 0 1 1\n\
            relay 0 1\n\
            result 0 0\n\
            result 1 0\n\
            leave 0\n\
            leave 1\n";

const TWO_WAVES: [Entry; 19] = [
    Entry::Step(0, 0),
    Entry::Step(0, 0),
    Entry::Step(1, 0),
    Entry::Contribute(
        1,
        Four {
            sent: 0,
            delivered: 0,
            received: 0,
            completed: 0,
        },
    ),
    Entry::Touch(
        1,
        OpName {
            image: 0,
            number: 1,
        },
        Stage::Ship,
    ),
    Entry::Ack(
        0,
        OpName {
            image: 0,
            number: 1,
        },
        Stage::Ship,
    ),
    Entry::Contribute(
        0,
        Four {
            sent: 1,
            delivered: 1,
            received: 0,
            completed: 0,
        },
    ),
    Entry::Relay(0, 1),
    Entry::Result(0, 1),
    Entry::Result(1, 1),
    Entry::Step(1, 1),
    Entry::Step(1, 1),
    Entry::Contribute(
        0,
        Four {
            sent: 1,
            delivered: 1,
            received: 0,
            completed: 0,
        },
    ),
    Entry::Contribute(
        1,
        Four {
            sent: 0,
            delivered: 0,
            received: 1,
            completed: 1,
        },
    ),
    Entry::Relay(0, 1),
    Entry::Result(0, 0),
    Entry::Result(1, 0),
    Entry::Leave(0),
    Entry::Leave(1),
];

/// An image that takes the total of a wave after the others.
const LAGGING_TEXT: &[u8] = b"step 0 0\n\
            step 0 0\n\
            step 1 0\n\
            step 2 0\n\
            contribute 1 0 0 0 0\n\
            contribute 2 0 0 0 0\n\
            touch 2 0.1 ship\n\
            ack 0 0.1 ship\n\
            contribute 0 1 1 0 0\n\
            relay 0 1\n\
            relay 0 2\n\
            result 0 1\n\
            result 2 1\n\
            contribute 0 1 1 0 0\n\
            step 2 1\n\
            step 2 1\n\
            touch 0 2.1 ship\n\
            step 0 1\n\
            step 0 1\n\
            step 0 1\n\
            result 1 1\n\
            touch 1 0.2 ship\n";

const LAGGING: [Entry; 22] = [
    Entry::Step(0, 0),
    Entry::Step(0, 0),
    Entry::Step(1, 0),
    Entry::Step(2, 0),
    Entry::Contribute(
        1,
        Four {
            sent: 0,
            delivered: 0,
            received: 0,
            completed: 0,
        },
    ),
    Entry::Contribute(
        2,
        Four {
            sent: 0,
            delivered: 0,
            received: 0,
            completed: 0,
        },
    ),
    Entry::Touch(
        2,
        OpName {
            image: 0,
            number: 1,
        },
        Stage::Ship,
    ),
    Entry::Ack(
        0,
        OpName {
            image: 0,
            number: 1,
        },
        Stage::Ship,
    ),
    Entry::Contribute(
        0,
        Four {
            sent: 1,
            delivered: 1,
            received: 0,
            completed: 0,
        },
    ),
    Entry::Relay(0, 1),
    Entry::Relay(0, 2),
    Entry::Result(0, 1),
    Entry::Result(2, 1),
    Entry::Contribute(
        0,
        Four {
            sent: 1,
            delivered: 1,
            received: 0,
            completed: 0,
        },
    ),
    Entry::Step(2, 1),
    Entry::Step(2, 1),
    Entry::Touch(
        0,
        OpName {
            image: 2,
            number: 1,
        },
        Stage::Ship,
    ),
    Entry::Step(0, 1),
    Entry::Step(0, 1),
    Entry::Step(0, 1),
    Entry::Result(1, 1),
    Entry::Touch(
        1,
        OpName {
            image: 0,
            number: 2,
        },
        Stage::Ship,
    ),
];

/// Each kind and stage, and the largest numbers.
const LIMITS_TEXT: &[u8] = b"touch 63 0.65535 start\n\
            touch 0 63.1 fetch\n\
            touch 1 1.10 store\n\
            touch 1 1.9 read\n\
            touch 1 1.8 write\n\
            touch 1 1.7 notice\n\
            part 63\n\
            ack 1 2.3 notice\n\
            ack 1 2.3 start\n\
            ack 1 2.3 fetch\n\
            ack 1 2.3 store\n\
            return 4 5.6\n\
            offer 0 63\n\
            step 63 4294967295\n\
            contribute 9 1 20 300 4294967295\n\
            result 7 9223372036854775807\n";

const LIMITS: [Entry; 16] = [
    Entry::Touch(
        63,
        OpName {
            image: 0,
            number: 65535,
        },
        Stage::Start,
    ),
    Entry::Touch(
        0,
        OpName {
            image: 63,
            number: 1,
        },
        Stage::Fetch,
    ),
    Entry::Touch(
        1,
        OpName {
            image: 1,
            number: 10,
        },
        Stage::Store,
    ),
    Entry::Touch(
        1,
        OpName {
            image: 1,
            number: 9,
        },
        Stage::Read,
    ),
    Entry::Touch(
        1,
        OpName {
            image: 1,
            number: 8,
        },
        Stage::Write,
    ),
    Entry::Touch(
        1,
        OpName {
            image: 1,
            number: 7,
        },
        Stage::Notice,
    ),
    Entry::Part(63),
    Entry::Ack(
        1,
        OpName {
            image: 2,
            number: 3,
        },
        Stage::Notice,
    ),
    Entry::Ack(
        1,
        OpName {
            image: 2,
            number: 3,
        },
        Stage::Start,
    ),
    Entry::Ack(
        1,
        OpName {
            image: 2,
            number: 3,
        },
        Stage::Fetch,
    ),
    Entry::Ack(
        1,
        OpName {
            image: 2,
            number: 3,
        },
        Stage::Store,
    ),
    Entry::Return(
        4,
        OpName {
            image: 5,
            number: 6,
        },
    ),
    Entry::Offer(0, 63),
    Entry::Step(63, 4294967295),
    Entry::Contribute(
        9,
        Four {
            sent: 1,
            delivered: 20,
            received: 300,
            completed: 4294967295,
        },
    ),
    Entry::Result(7, 9223372036854775807),
];

fn reads_and_prints<R: Abort>(
    rt: &R,
    alloc: Global,
    text: &[u8],
    entries: &[Entry],
) -> Result<(), Fail> {
    let journal = read_trace(alloc, text)?;
    assert_eq!(rt; journal.as_slice(), entries);
    let printed = print_trace(alloc, &journal)?;
    assert_eq!(rt; printed.as_slice(), text);
    Ok(())
}

#[test]
fn traces_of_runs(rt: HostRuntime) -> Result<(), Fail> {
    let alloc = rt.alloc();
    reads_and_prints(&rt, alloc, ONE_IMAGE_TEXT, &ONE_IMAGE)?;
    reads_and_prints(&rt, alloc, TWO_WAVES_TEXT, &TWO_WAVES)?;
    reads_and_prints(&rt, alloc, LAGGING_TEXT, &LAGGING)?;
    reads_and_prints(&rt, alloc, LIMITS_TEXT, &LIMITS)?;
    reads_and_prints(&rt, alloc, b"", &[])
}

/// Texts whose first bad line is the line of that number.
const BAD_LINES: [(&[u8], u32); 45] = [
    (b"step 0 0", 1),
    (b"step 00 0\n", 1),
    (b"step 0 00\n", 1),
    (b"step 0  0\n", 1),
    (b"touch 0 0.1 shift\n", 1),
    (b"\n", 1),
    (b"step 0 0\n\nstep 0 0\n", 2),
    (b"step 0 0\nleave 0", 2),
    (b"step 0 0\nleave 0\npart 01\n", 3),
    (b" step 0 0\n", 1),
    (b"step 0 0 \n", 1),
    (b"step 0\n", 1),
    (b"step 0 0 0\n", 1),
    (b"step\n", 1),
    (b"step \n", 1),
    (b"Step 0 0\n", 1),
    (b"steps 0 0\n", 1),
    (b"step 64 0\n", 1),
    (b"step +1 0\n", 1),
    (b"step -1 0\n", 1),
    (b"step 0 4294967296\n", 1),
    (b"step 0 99999999999999999999\n", 1),
    (b"step 0 0\r\n", 1),
    (b"step\t0 0\n", 1),
    (b"part 64\n", 1),
    (b"leave 100\n", 1),
    (b"touch 0 0.0 ship\n", 1),
    (b"touch 0 0.65536 ship\n", 1),
    (b"touch 0 64.1 ship\n", 1),
    (b"touch 0 0.01 ship\n", 1),
    (b"touch 0 01 ship\n", 1),
    (b"touch 0 0.1.1 ship\n", 1),
    (b"ack 0 0.1 read\n", 1),
    (b"ack 0 0.1 write\n", 1),
    (b"return 0 0.1 read\n", 1),
    (b"offer 0 64\n", 1),
    (b"relay 64 0\n", 1),
    (b"contribute 0 0 0 0\n", 1),
    (b"contribute 0 0 0 0 0 0\n", 1),
    (b"contribute 0 4294967296 0 0 0\n", 1),
    (b"result 0 9223372036854775808\n", 1),
    (b"result 0 -1\n", 1),
    (b"result 0 007\n", 1),
    (b"step 0 0\nwait 0\n", 2),
    (b"step 0 \xff\n", 1),
];

#[test]
fn first_bad_lines(rt: HostRuntime) -> Result<(), Fail> {
    let alloc = rt.alloc();
    for (text, line) in &BAD_LINES {
        let fault = read_trace(alloc, text).err();
        assert_eq!(rt; fault, Some(TraceFault::BadLine(*line)), "{text:?}");
    }
    Ok(())
}

/// The text of as many lines as a trace may have.
fn full_trace(alloc: Global, line: &[u8]) -> Result<Vec<u8>, AllocError> {
    let mut text = Vec::new(alloc);
    for _ in 0..MAX_ENTRIES {
        text.extend_from_slice(line)?;
    }
    Ok(text)
}

#[test]
fn the_line_after_the_last(rt: HostRuntime) -> Result<(), Fail> {
    let alloc = rt.alloc();
    let mut text = full_trace(alloc, b"part 0\n")?;
    let journal = read_trace(alloc, &text)?;
    assert_eq!(rt; journal.len(), MAX_ENTRIES);
    text.extend_from_slice(b"part 0\n")?;
    let fault = read_trace(alloc, &text).err();
    assert_eq!(rt; fault, Some(TraceFault::BadLine(1_000_001)));
    Ok(())
}

#[test]
fn the_longest_trace(rt: HostRuntime) -> Result<(), Fail> {
    let alloc = rt.alloc();
    let text = full_trace(
        alloc,
        b"contribute 63 4294967295 4294967295 4294967295 4294967295\n",
    )?;
    let journal = read_trace(alloc, &text)?;
    let printed = print_trace(alloc, &journal)?;
    assert!(rt; printed == text);
    Ok(())
}

#[test]
fn struck_journals(rt: HostRuntime) -> Result<(), Fail> {
    let alloc = rt.alloc();
    let choices = strike(alloc, &ONE_IMAGE)?;
    assert_eq!(rt;
        choices.as_slice(),
        [Entry::Step(0, 0), Entry::Leave(0)].as_slice()
    );
    let choices = strike(alloc, &LIMITS)?;
    assert_eq!(rt; choices.len(), 8);
    Ok(())
}
