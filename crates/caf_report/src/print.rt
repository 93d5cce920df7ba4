ghost use Rattle.std.specs.Prelude.{◌≡◌, ◌++◌, length, decimal, count_by, flat_map, is_some, sum_by, IfOk, IfSome, OnOk};
ghost use Rattle.caf_report.specs.Report.{ending_word, line_text, lines_from, report_text, tail_text, trap_line, trap_name, trap_text, traps_from};

use caf_base::{Ending, ImageSummary, Memory, Summary, Text, Trap};
use itoa::Buffer;
use std::alloc::Global;

/// The report of a summary, as bytes.
pub fn report(alloc: Global, summary: &Summary) -> Result<Vec<u8>, Memory>
    ensures { IfOk result (λ text. text.items ≡ report_text summary.now) }
{
    let images = summary.images.as_slice();
    let mut text = Vec::new(alloc);
    push_lines(&mut text, images)?;
    push_traps(&mut text, images)?;
    push_tail(&mut text, summary.ending, images)?;
    Ok(text)
}

fn push_number(text: &mut Vec<u8>, number: usize) -> Result<(), Memory>
    ensures { OnOk result (text.new.items ≡ text.old.items ++ decimal number) }
{
    let mut buffer = Buffer::new();
    text.extend_from_slice(buffer.format(number).as_bytes())?;
    Ok(())
}

fn push_line(text: &mut Vec<u8>, image: usize, line: &str) -> Result<(), Memory>
    ensures { OnOk result (text.new.items ≡ text.old.items ++ line_text image line.now) }
{
    push_number(text, image)?;
    text.extend_from_slice(b": ")?;
    text.extend_from_slice(line.as_bytes())?;
    text.extend_from_slice(b"\n")?;
    Ok(())
}

fn push_lines_of(text: &mut Vec<u8>, image: usize, lines: &[Text]) -> Result<(), Memory>
    ensures { OnOk result (text.new.items ≡ text.old.items ++ flat_map (line_text image) lines.now) }
{
    for line in lines {
        push_line(text, image, line.as_str())?;
    }
    Ok(())
}

fn push_lines(text: &mut Vec<u8>, images: &[ImageSummary]) -> Result<(), Memory>
    ensures { OnOk result (text.new.items ≡ text.old.items ++ lines_from 0 images.now) }
{
    for (image, one) in images.iter().enumerate() {
        push_lines_of(text, image, one.lines.as_slice())?;
    }
    Ok(())
}

fn push_trap_name(text: &mut Vec<u8>, trap: Trap) -> Result<(), Memory>
    ensures { OnOk result (text.new.items ≡ text.old.items ++ trap_name trap) }
{
    push_number(text, usize::from(trap.number()))?;
    text.extend_from_slice(b" ")?;
    text.extend_from_slice(trap.word().as_bytes())?;
    Ok(())
}

fn push_trap(text: &mut Vec<u8>, image: usize, trap: Trap) -> Result<(), Memory>
    ensures { OnOk result (text.new.items ≡ text.old.items ++ trap_line image trap) }
{
    text.extend_from_slice(b"trap: image ")?;
    push_number(text, image)?;
    text.extend_from_slice(b", ")?;
    push_trap_name(text, trap)?;
    text.extend_from_slice(b"\n")?;
    Ok(())
}

fn push_trap_of(text: &mut Vec<u8>, image: usize, trap: Option<Trap>) -> Result<(), Memory>
    ensures { OnOk result (text.new.items ≡ text.old.items ++ trap_text image trap) }
{
    match trap {
        None => Ok(()),
        Some(trap) => push_trap(text, image, trap),
    }
}

fn push_traps(text: &mut Vec<u8>, images: &[ImageSummary]) -> Result<(), Memory>
    ensures { OnOk result (text.new.items ≡ text.old.items ++ traps_from 0 images.now) }
{
    for (image, one) in images.iter().enumerate() {
        push_trap_of(text, image, one.trap)?;
    }
    Ok(())
}

fn ending_word(ending: Ending) -> &'static str
    ensures { result.now ≡ ending_word ending }
{
    match ending {
        Ending::Done => "done",
        Ending::Trapped => "trapped",
        Ending::Stuck => "stuck",
        Ending::Going => "going",
    }
}

// The number of lines of all images, where it is one of 64 bits.
fn line_count(images: &[ImageSummary]) -> Option<usize>
    ensures { IfSome result (λ count. count ≡ sum_by (λ one. length one.lines) images.now) }
{
    let mut count: usize = 0;
    for one in images {
        count = count.checked_add(one.lines.len())?;
    }
    Some(count)
}

fn trap_count(images: &[ImageSummary]) -> usize
    ensures { result ≡ count_by (λ one. is_some one.trap) images.now }
{
    images.iter().filter(|one| one.trap.is_some()).count()
}

fn push_tail(text: &mut Vec<u8>, ending: Ending, images: &[ImageSummary]) -> Result<(), Memory>
    ensures { OnOk result (text.new.items ≡ text.old.items ++ tail_text ending images.now) }
{
    text.extend_from_slice(ending_word(ending).as_bytes())?;
    text.extend_from_slice(b": images ")?;
    push_number(text, images.len())?;
    text.extend_from_slice(b", lines ")?;
    push_number(text, line_count(images).ok_or(Memory)?)?;
    text.extend_from_slice(b", traps ")?;
    push_number(text, trap_count(images))?;
    text.extend_from_slice(b"\n")?;
    Ok(())
}
