use caf_words::{Asked, Order, WordFault, read_words};
use std::alloc::Global;
use std::process::Abort;
use std::test::Fail;

/// A command line, and what it asks for: the command, its file, its numbers and its trace.
type Case = (
    &'static [&'static str],
    &'static str,
    &'static str,
    [u64; 3],
    Option<&'static str>,
);

const TAKEN: [Case; 14] = [
    (
        &["step", "ab", "1", "1", "100"],
        "step",
        "ab",
        [1, 1, 100],
        None,
    ),
    (
        &["step", "ab", "64", "18446744073709551615", "1000000"],
        "step",
        "ab",
        [64, 18446744073709551615, 1000000],
        None,
    ),
    (
        &[
            "step",
            "ab",
            "001",
            "00000000000000000000",
            "1",
            "--trace",
            "t",
        ],
        "step",
        "ab",
        [1, 0, 1],
        Some("t"),
    ),
    (
        &["step", "--trace=t", "ab", "1", "1", "1"],
        "step",
        "ab",
        [1, 1, 1],
        Some("t"),
    ),
    (
        &["step", "ab", "1", "--trace", "t", "1", "1"],
        "step",
        "ab",
        [1, 1, 1],
        Some("t"),
    ),
    (
        &["step", "ab", "1", "1", "1", "--trace=a=b"],
        "step",
        "ab",
        [1, 1, 1],
        Some("a=b"),
    ),
    (&["step", "", "1", "1", "1"], "step", "", [1, 1, 1], None),
    (
        &["step", "help", "1", "1", "1"],
        "step",
        "help",
        [1, 1, 1],
        None,
    ),
    (
        &["run", "ab", "2", "8", "1000"],
        "run",
        "ab",
        [2, 8, 1000],
        None,
    ),
    (
        &["run", "ab", "2", "1", "1000", "--trace", "t"],
        "run",
        "ab",
        [2, 1, 1000],
        Some("t"),
    ),
    (
        &["replay", "ab", "3", "t"],
        "replay",
        "ab",
        [3, 0, 0],
        Some("t"),
    ),
    (
        &["check", "ab", "3", "t"],
        "check",
        "ab",
        [3, 0, 0],
        Some("t"),
    ),
    (&["list", "ab"], "list", "ab", [0, 0, 0], None),
    (&["gen", "7"], "gen", "", [7, 0, 0], None),
];

const REFUSED: [&[&str]; 42] = [
    &[],
    &[""],
    &["Step", "ab", "1", "1", "1"],
    &["steps", "ab", "1", "1", "1"],
    &["--trace", "t", "step", "ab", "1", "1", "1"],
    &["--help"],
    &["--version"],
    &["-h"],
    &["step"],
    &["step", "ab", "1", "1"],
    &["step", "ab", "1", "1", "1", "1"],
    &["step", "ab", "0", "1", "1"],
    &["step", "ab", "65", "1", "1"],
    &["step", "ab", "1", "1", "0"],
    &["step", "ab", "1", "1", "1000001"],
    &["step", "ab", "1", "18446744073709551616", "1"],
    &["step", "ab", "1", "000000000000000000001", "1"],
    &["step", "ab", "1", "1", "1x"],
    &["step", "ab", "1", "+1", "1"],
    &["step", "ab", "1", "-1", "1"],
    &["step", "ab", "1", "", "1"],
    &["step", "ab", "1", "1", " 1"],
    &["step", "ab", "1", "1", "1", "--trace"],
    &["step", "ab", "1", "1", "1", "--trace", ""],
    &["step", "ab", "1", "1", "1", "--trace="],
    &["step", "ab", "1", "1", "1", "--trace", "-t"],
    &["step", "ab", "1", "1", "1", "--trace=-t"],
    &["step", "ab", "1", "1", "1", "--trace", "a", "--trace", "b"],
    &["step", "ab", "1", "1", "1", "--trace=a", "--trace", "a"],
    &["step", "ab", "1", "1", "1", "--trac", "a"],
    &["step", "ab", "1", "1", "1", "--traces=a"],
    &["step", "-", "1", "1", "1"],
    &["step", "--", "ab", "1", "1", "1"],
    &["step", "ab", "1", "1", "1", "--help"],
    &["step", "ab", "1", "1", "1", "-t"],
    &["run", "ab", "0", "1", "10"],
    &["run", "ab", "1", "9", "10"],
    &["run", "ab", "1", "0", "10"],
    &["replay", "ab", "1"],
    &["replay", "ab", "1", "t", "--trace", "u"],
    &["list", "ab", "--trace=t"],
    &["gen", "--trace=7"],
];

/// Whether it is what the case says.
fn is_asked(
    asked: &Asked<'_>,
    command: &str,
    file: &str,
    numbers: [u64; 3],
    trace: Option<&str>,
) -> bool {
    let (is, of, found, saved) = match *asked {
        Asked::Run {
            file,
            images,
            workers,
            events,
            trace,
        } => (
            "run",
            file,
            [u64::from(images), u64::from(workers), u64::from(events)],
            trace,
        ),
        Asked::Serial(
            Order::Step {
                file,
                images,
                seed,
                events,
                trace,
            },
        ) => (
            "step",
            file,
            [u64::from(images), seed, u64::from(events)],
            trace,
        ),
        Asked::Serial(
            Order::Replay {
                file,
                images,
                trace,
            },
        ) => ("replay", file, [u64::from(images), 0, 0], Some(trace)),
        Asked::Serial(
            Order::Check {
                file,
                images,
                trace,
            },
        ) => ("check", file, [u64::from(images), 0, 0], Some(trace)),
        Asked::Serial(Order::List { file }) => ("list", file, [0, 0, 0], None),
        Asked::Serial(Order::Gen { number }) => ("gen", "", [number, 0, 0], None),
    };
    is == command
        && of == file
        && found[0] == numbers[0]
        && found[1] == numbers[1]
        && found[2] == numbers[2]
        && saved == trace
}

#[test]
fn words_ask_for_what_they_say(rt: HostRuntime) -> Result<(), Fail> {
    let alloc = rt.alloc();
    for (words, command, file, numbers, trace) in TAKEN {
        let asked = read_words(alloc, words)?;
        assert!(rt; is_asked(&asked, command, file, numbers, trace));
    }
    for words in REFUSED {
        assert!(rt; matches!(read_words(alloc, words), Err(WordFault::Usage)));
    }
    Ok(())
}
