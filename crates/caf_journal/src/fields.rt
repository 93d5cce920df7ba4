ghost use Rattle.std.specs.Prelude.{◌≡◌, ◌<◌, ◌≤◌, ◌^◌, ◌==◌, map, option_map, position, IfSome, IsTrue, ◌↔◌};
ghost use Rattle.std.specs.Fmt.{decimal};
ghost use Rattle.caf_journal.specs.Reading as reading;

use crate::Entry;
use caf_base::{Four, OpName, Stage};
use itoa::Buffer;
use std::str;

/// The kinds of entries, by the first word of their lines.
#[derive(Clone, Copy)]
enum Kind {
    Step,
    Touch,
    Part,
    Leave,
    Ack,
    Return,
    Offer,
    Contribute,
    Relay,
    Result,
}

const KINDS: [(&[u8], Kind); 10] = [
    (b"step", Kind::Step),
    (b"touch", Kind::Touch),
    (b"part", Kind::Part),
    (b"leave", Kind::Leave),
    (b"ack", Kind::Ack),
    (b"return", Kind::Return),
    (b"offer", Kind::Offer),
    (b"contribute", Kind::Contribute),
    (b"relay", Kind::Relay),
    (b"result", Kind::Result),
];

const STAGES: [(&[u8], Stage); 7] = [
    (b"ship", Stage::Ship),
    (b"notice", Stage::Notice),
    (b"start", Stage::Start),
    (b"fetch", Stage::Fetch),
    (b"store", Stage::Store),
    (b"read", Stage::Read),
    (b"write", Stage::Write),
];

/// The entry of a line without its end.
#[tactic(auto, unfolding(crate::specs::Reading::entry_of))]
pub(crate) fn entry_of(line: &[u8]) -> Option<Entry>
    ensures { result ≡ reading.entry_of line.now }
{
    let (kind, text) = cut(line, b' ')?;
    fields_of(value_at(&KINDS, kind)?, text)
}

fn fields_of(kind: Kind, text: &[u8]) -> Option<Entry>
    ensures { result ≡ reading.fields_of kind text.now }
{
    match kind {
        Kind::Step => step_of(text),
        Kind::Touch => touch_of(text),
        Kind::Part => part_of(text),
        Kind::Leave => leave_of(text),
        Kind::Ack => ack_of(text),
        Kind::Return => return_of(text),
        Kind::Offer => offer_of(text),
        Kind::Contribute => contribute_of(text),
        Kind::Relay => relay_of(text),
        Kind::Result => result_of(text),
    }
}

#[tactic(auto, unfolding(crate::specs::Reading::step_of))]
fn step_of(text: &[u8]) -> Option<Entry>
    ensures { result ≡ reading.step_of text.now }
{
    let (image, task) = image_before(text)?;
    Some(Entry::Step(image, count_of(task)?))
}

#[tactic(auto, unfolding(crate::specs::Reading::touch_of))]
fn touch_of(text: &[u8]) -> Option<Entry>
    ensures { result ≡ reading.touch_of text.now }
{
    let (image, rest) = image_before(text)?;
    let (operation, stage) = operation_before(rest)?;
    Some(Entry::Touch(image, operation, stage_of(stage)?))
}

#[tactic(auto, unfolding(crate::specs::Reading::part_of))]
fn part_of(text: &[u8]) -> Option<Entry>
    ensures { result ≡ reading.part_of text.now }
{
    Some(Entry::Part(image_of(text)?))
}

#[tactic(auto, unfolding(crate::specs::Reading::leave_of))]
fn leave_of(text: &[u8]) -> Option<Entry>
    ensures { result ≡ reading.leave_of text.now }
{
    Some(Entry::Leave(image_of(text)?))
}

#[tactic(auto, unfolding(crate::specs::Reading::ack_of))]
fn ack_of(text: &[u8]) -> Option<Entry>
    ensures { result ≡ reading.ack_of text.now }
{
    let (image, rest) = image_before(text)?;
    let (operation, stage) = operation_before(rest)?;
    Some(Entry::Ack(image, operation, counted_stage_of(stage)?))
}

#[tactic(auto, unfolding(crate::specs::Reading::return_of))]
fn return_of(text: &[u8]) -> Option<Entry>
    ensures { result ≡ reading.return_of text.now }
{
    let (image, operation) = image_before(text)?;
    Some(Entry::Return(image, operation_of(operation)?))
}

#[tactic(auto, unfolding(crate::specs::Reading::offer_of))]
fn offer_of(text: &[u8]) -> Option<Entry>
    ensures { result ≡ reading.offer_of text.now }
{
    let (image, from) = image_before(text)?;
    Some(Entry::Offer(image, image_of(from)?))
}

#[tactic(auto, unfolding(crate::specs::Reading::contribute_of))]
fn contribute_of(text: &[u8]) -> Option<Entry>
    ensures { result ≡ reading.contribute_of text.now }
{
    let (image, four) = image_before(text)?;
    Some(Entry::Contribute(image, four_of(four)?))
}

#[tactic(auto, unfolding(crate::specs::Reading::relay_of))]
fn relay_of(text: &[u8]) -> Option<Entry>
    ensures { result ≡ reading.relay_of text.now }
{
    let (image, from) = image_before(text)?;
    Some(Entry::Relay(image, image_of(from)?))
}

#[tactic(auto, unfolding(crate::specs::Reading::result_of))]
fn result_of(text: &[u8]) -> Option<Entry>
    ensures { result ≡ reading.result_of text.now }
{
    let (image, sum) = image_before(text)?;
    Some(Entry::Result(image, number_below(sum, 1 << 63)? as i64))
}

#[tactic(auto, unfolding(crate::specs::Reading::four_of))]
fn four_of(text: &[u8]) -> Option<Four>
    ensures { result ≡ reading.four_of text.now }
{
    let (sent, rest) = count_before(text)?;
    let (delivered, rest) = count_before(rest)?;
    let (received, rest) = count_before(rest)?;
    let completed = count_of(rest)?;
    Some(Four {
        sent,
        delivered,
        received,
        completed,
    })
}

#[tactic(auto, unfolding(crate::specs::Reading::number_before))]
fn image_before(text: &[u8]) -> Option<(u32, &[u8])>
    ensures { option_map (λ read. (read.0, read.1.now)) result ≡ reading.image_before text.now }
{
    let (image, rest) = cut(text, b' ')?;
    Some((image_of(image)?, rest))
}

#[tactic(auto, unfolding(crate::specs::Reading::number_before))]
fn count_before(text: &[u8]) -> Option<(u32, &[u8])>
    ensures { option_map (λ read. (read.0, read.1.now)) result ≡ reading.number_before (2 ^ 32) text.now }
{
    let (count, rest) = cut(text, b' ')?;
    Some((count_of(count)?, rest))
}

#[tactic(auto, unfolding(crate::specs::Reading::operation_before))]
fn operation_before(text: &[u8]) -> Option<(OpName, &[u8])>
    ensures { option_map (λ read. (read.0, read.1.now)) result ≡ reading.operation_before text.now }
{
    let (operation, rest) = cut(text, b' ')?;
    Some((operation_of(operation)?, rest))
}

#[tactic(auto, unfolding(crate::specs::Reading::operation_of))]
fn operation_of(word: &[u8]) -> Option<OpName>
    ensures { result ≡ reading.operation_of word.now }
{
    let (image, number) = cut(word, b'.')?;
    let image = image_of(image)?;
    let number = small_below(number, 65_536)?;
    if number == 0 {
        return None;
    }
    Some(OpName { image, number })
}

#[tactic(auto, unfolding(crate::specs::Reading::counted_stage_of))]
fn counted_stage_of(word: &[u8]) -> Option<Stage>
    ensures { result ≡ reading.counted_stage_of word.now }
{
    match stage_of(word)? {
        Stage::Read | Stage::Write => None,
        stage => Some(stage),
    }
}

#[tactic(auto, unfolding(crate::specs::Reading::stage_of))]
fn stage_of(word: &[u8]) -> Option<Stage>
    ensures { result ≡ reading.stage_of word.now }
{
    value_at(&STAGES, word)
}

/// The value at a word in a table.
fn value_at<T: Copy>(mut table: &[(&[u8], T)], word: &[u8]) -> Option<T>
    ensures { result ≡ reading.value_at (map (λ line. (line.0.now, line.1)) table.entry.now) word.now }
{
    while let [line, rest @ ..] = table {
        if line.0 == word {
            return Some(line.1);
        }
        table = rest;
    }
    None
}

fn image_of(word: &[u8]) -> Option<u32>
    ensures { result ≡ reading.image_of word.now }
{
    small_below(word, 64)
}

fn count_of(word: &[u8]) -> Option<u32>
    ensures { result ≡ reading.count_of word.now }
{
    small_below(word, 1 << 32)
}

fn small_below(word: &[u8], limit: u64) -> Option<u32>
    requires { limit ≤ 2 ^ 32 }
    ensures { result ≡ reading.number_below limit word.now }
{
    Some(number_below(word, limit)? as u32)
}

/// The number below the limit that the word is in decimal, without leading zeros.
fn number_below(word: &[u8], limit: u64) -> Option<u64>
    ensures value { result ≡ reading.number_below limit word.now }
    ensures below { IfSome result (λ number. number < limit) }
{
    let Ok(text) = str::from_utf8(word) else {
        return None;
    };
    let Ok(number) = text.parse::<u64>() else {
        return None;
    };
    if number < limit && is_decimal(word, number) {
        Some(number)
    } else {
        None
    }
}

/// Whether the word is the number in decimal.
fn is_decimal(word: &[u8], number: u64) -> bool
    ensures { IsTrue result ↔ (word.now ≡ decimal number) }
{
    Buffer::new().format(number).as_bytes() == word
}

/// What stands before the first mark, and what stands behind it.
pub(crate) fn cut(text: &[u8], mark: u8) -> Option<(&[u8], &[u8])>
    ensures { option_map (λ parts. (parts.0.now, parts.1.now)) result ≡ reading.cut mark text.now }
{
    let end = place_of(text, mark)?;
    Some((&text[..end], &text[end + 1..]))
}

fn place_of(text: &[u8], mark: u8) -> Option<usize>
    ensures { result ≡ position (λ byte. byte == mark) text.now }
{
    text.iter().position(|byte| *byte == mark)
}
