use super::{STEP, SUM, SUM_REPORT, comes_to};
use std::alloc::{AllocError, Global};
use std::test::Fail;

/// The sum, and then comment lines up to so many bytes.
fn with_comments(alloc: Global, bytes: usize) -> Result<Vec<u8>, AllocError> {
    let mut text = Vec::from_slice(alloc, SUM.as_bytes())?;
    for at in SUM.len()..bytes {
        text.push(if at % 100 == 0 { b'\n' } else { b'!' })?;
    }
    Ok(text)
}

#[test]
fn a_text_may_have_1_048_576_bytes(rt: HostRuntime) -> Result<(), Fail> {
    let alloc = rt.alloc();
    let text = with_comments(alloc, 1_048_576)?;
    comes_to(&rt, alloc, &STEP, &text, (0, SUM_REPORT))?;
    let text = with_comments(alloc, 1_048_577)?;
    comes_to(&rt, alloc, &STEP, &text, (10, "too long p\n"))?;
    Ok(())
}

/// Prints a number in so many parentheses, over two lines.
fn in_parentheses(alloc: Global, levels: usize) -> Result<Vec<u8>, AllocError> {
    let mut text = Vec::from_slice(alloc, b"program x\nprint *, ")?;
    for _ in 0..levels {
        text.push(b'(')?;
    }
    text.extend_from_slice(b"7 &\n")?;
    for _ in 0..levels {
        text.push(b')')?;
    }
    text.extend_from_slice(b"\nend program\n")?;
    Ok(text)
}

#[test]
fn a_hundred_parentheses_may_be_open(rt: HostRuntime) -> Result<(), Fail> {
    let alloc = rt.alloc();
    let report = "0: 7\ndone: images 1, lines 1, traps 0\n";
    let text = in_parentheses(alloc, 100)?;
    comes_to(&rt, alloc, &STEP, &text, (0, report))?;
    let text = in_parentheses(alloc, 101)?;
    comes_to(&rt, alloc, &STEP, &text, (3, "refused: line 2: deep\n"))?;
    Ok(())
}

#[test]
fn a_line_has_132_bytes(rt: HostRuntime) -> Result<(), Fail> {
    let alloc = rt.alloc();
    let mut text = Vec::from_slice(alloc, b"program x ")?;
    text.resize(132, b'!')?;
    text.extend_from_slice(b"\nend program\n")?;
    comes_to(
        &rt,
        alloc,
        &STEP,
        &text,
        (0, "done: images 1, lines 0, traps 0\n"),
    )?;
    text.insert(20, b'!')?;
    comes_to(
        &rt,
        alloc,
        &STEP,
        &text,
        (3, "refused: line 1: long line\n"),
    )?;
    Ok(())
}
