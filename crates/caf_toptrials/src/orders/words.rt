use super::{SUM, comes_to};
use std::test::Fail;

const USAGE: &str = "usage: caf run FILE IMAGES WORKERS EVENTS [--trace NAME]\n\
    usage: caf step FILE IMAGES SEED EVENTS [--trace NAME]\n\
    usage: caf replay FILE IMAGES TRACE\n\
    usage: caf check FILE IMAGES TRACE\n\
    usage: caf list FILE\n\
    usage: caf gen NUMBER\n";

/// Words that ask for nothing, and then some that ask for what isn't built yet.
const LINES: [&[&str]; 16] = [
    &[],
    &["run", "p", "0", "1", "10"],
    &["step", "p", "65", "1", "10"],
    &["replay", "p", "1"],
    &["step", "p", "1", "1", "10", "--trace", "a", "--trace", "b"],
    &["step", "p", "1", "1", "1x"],
    &["step", "p", "1", "-1", "10"],
    &["step", "p", "1", "+1", "10"],
    &["step", "p", "1", "1", "0"],
    &["step", "p", "1", "1", "1000001"],
    &["--help"],
    &["run", "p", "1", "1", "10"],
    &["step", "p", "2", "1", "10"],
    &["step", "p", "1", "1", "10", "--trace", "a"],
    &["check", "p", "65", "t"],
    &["gen", "7"],
];

#[test]
fn other_words_get_the_usage(rt: HostRuntime) -> Result<(), Fail> {
    let alloc = rt.alloc();
    for words in LINES {
        comes_to(&rt, alloc, words, SUM.as_bytes(), (2, USAGE))?;
    }
    Ok(())
}
