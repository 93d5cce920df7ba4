//! What stands at the front of a line.

ghost use Rattle.std.specs.Prelude.{◌≡◌, ◌≢◌, ◌<◌, ◌≤◌, ◌+◌, ◌-◌, ◌^◌, ◌++◌, ◌∷◌, [], length, map, slice_index, string_bytes, take, drop, true, false, IfOk, IfSome, OnOk};
ghost use Rattle.std.specs.List.{prefix_len};
ghost use Rattle.std.specs.Char.{to_ascii_lowercase, is_ascii_digit};
ghost use Rattle.std.specs.Str.{str_eq_ignore_ascii_case, IsAscii};
ghost use Rattle.caf_lexer.specs.Spelling as spec;

use crate::fault::Mistake;
use crate::table::{SIGNS, WORDS};
use crate::token::{Sign, What, Word};
use caf_base::{Memory, Text};
use std::alloc::Global;

const MOST_NAME_BYTES: usize = 63;

/// Between the quotes, as written.
const MOST_TEXT_BYTES: usize = 120;

/// What stands at a place of a line, outside blanks and comments.
#[derive(Debug, Drop)]
pub enum Piece {
    Token(What),
    /// `&`
    Ampersand,
    Mistake(Mistake),
}

fn is_name_byte(b: u8) -> bool
    ensures { result ≡ spec.is_name_byte b }
{
    b.is_ascii_alphanumeric() || b == b'_'
}

/// How many bytes in front can stand in a name.
fn name_length(bytes: &[u8]) -> usize
    ensures value { result ≡ prefix_len spec.is_name_byte bytes.now }
    ensures within { result ≤ length bytes.now }
{
    let mut end = 0;
    while end < bytes.len() && is_name_byte(bytes[end]) {
        end += 1;
    }
    end
}

/// How many digits stand in front.
fn number_length(bytes: &[u8]) -> usize
    ensures value { result ≡ prefix_len is_ascii_digit bytes.now }
    ensures within { result ≤ length bytes.now }
{
    let mut end = 0;
    while end < bytes.len() && bytes[end].is_ascii_digit() {
        end += 1;
    }
    end
}

fn is_same(written: &[u8], spelling: &[u8]) -> bool
    ensures { result ≡ str_eq_ignore_ascii_case written.now spelling.now }
{
    written.eq_ignore_ascii_case(spelling)
}

fn begins(bytes: &[u8], spelling: &[u8]) -> bool
    ensures { result ≡ spec.begins bytes.now spelling.now }
{
    let front = &bytes[..spelling.len().min(bytes.len())];
    is_same(front, spelling)
}

/// The word of the table with this spelling.
fn word_in(mut table: &[(&[u8], Word)], name: &[u8]) -> Option<Word>
    ensures { result ≡ spec.word_in (map (λ entry. (entry.0.now, entry.1)) table.entry.now) name.now }
{
    while let [entry, others @ ..] = table {
        if is_same(name, entry.0) {
            return Some(entry.1);
        }
        table = others;
    }
    None
}

/// The first sign of the table with which the line begins, and its length.
fn sign_in(mut table: &[(&[u8], Sign)], bytes: &[u8]) -> Option<(Sign, usize)>
    ensures value { result ≡ spec.sign_in (map (λ entry. (entry.0.now, entry.1)) table.entry.now) bytes.now }
    ensures within { IfSome result (λ found. found.1 ≤ length bytes.now) }
{
    while let [entry, others @ ..] = table {
        if begins(bytes, entry.0) {
            return Some((entry.1, entry.0.len()));
        }
        table = others;
    }
    None
}

/// The reserved word with this spelling, in capitals or not.
fn word_of(name: &[u8]) -> Option<Word>
    ensures { result ≡ spec.word_in spec.words name.now }
{
    word_in(&WORDS, name)
}

/// Puts an ASCII byte at the end of a text.
fn push_byte(text: &mut String, b: u8) -> Result<(), Memory>
    requires { b < 128 }
    ensures { OnOk result (string_bytes text.new ≡ string_bytes text.old ++ b ∷ []) }
{
    text.push(char::from(b))?;
    Ok(())
}

/// A copy in small letters.
fn small_letters(alloc: Global, letters: &[u8]) -> Result<Text, Memory>
    requires { IsAscii letters.now }
    ensures { IfOk result (λ text. text ≡ map to_ascii_lowercase letters.now) }
{
    let mut small = String::with_capacity(alloc, letters.len())?;
    for b in letters {
        push_byte(&mut small, b.to_ascii_lowercase())?;
    }
    Ok(Text::from_string(small))
}

/// What a run of letters, digits and `_` is.
#[tactic(auto, unfolding(crate::specs::Spelling::name_of))]
fn name(alloc: Global, name: &[u8]) -> Result<Piece, Memory>
    requires { IsAscii name.now }
    ensures { IfOk result (λ piece. piece ≡ spec.name_of name.now) }
{
    if name.len() > MOST_NAME_BYTES {
        return Ok(Piece::Mistake(Mistake::BadToken));
    }
    match word_of(name) {
        Some(word) => Ok(Piece::Token(What::Word(word))),
        None => Ok(Piece::Token(What::Name(small_letters(alloc, name)?))),
    }
}

/// The value of digits, or 2^63 where it is larger.
fn capped_value(digits: &[u8]) -> u64
    ensures { result ≡ spec.capped digits.now }
{
    let mut value: u64 = 0;
    for digit in digits {
        let digit = u64::from(digit.saturating_sub(b'0'));
        value = value.saturating_mul(10).saturating_add(digit).min(1 << 63);
    }
    value
}

/// What a run of digits is.
#[tactic(auto, unfolding(crate::specs::Spelling::number_of))]
fn number(digits: &[u8]) -> Piece
    ensures { result ≡ spec.number_of digits.now }
{
    let value = capped_value(digits);
    if value < 1 << 63 {
        Piece::Token(What::Number(value as i64))
    } else {
        Piece::Mistake(Mistake::BadNumber)
    }
}

/// The first byte, or 0 where there is none.
fn first_byte(bytes: &[u8]) -> u8
    ensures { result ≡ slice_index bytes.now 0 }
{
    if bytes.is_empty() { 0 } else { bytes[0] }
}

fn can_stand(b: u8) -> bool
    ensures { result ≡ spec.can_stand b }
{
    b == b'\t' || (b' ' <= b && b <= b'~')
}

fn misplaced(b: u8) -> Mistake
    ensures { result ≡ spec.misplaced b }
{
    if b > 127 {
        Mistake::NotAscii
    } else {
        Mistake::BadToken
    }
}

fn wrong(mistake: Mistake) -> (Piece, usize)
    ensures { result ≡ spec.wrong mistake }
{
    (Piece::Mistake(mistake), 1)
}

/// The text that begins here, up to its closing quote.
#[tactic(auto, unfolding(crate::specs::Spelling::text_at))]
fn text(alloc: Global, quote: u8, mut bytes: &[u8]) -> Result<(Piece, usize), Memory>
    requires ascii { quote < 128 }
    requires bound { length bytes.now < 2 ^ 63 }
    ensures value { IfOk result (λ cut. cut ≡ spec.text_at quote bytes.entry.now) }
    ensures within { IfOk result (λ cut. cut.1 ≤ length bytes.entry.now + 1) }
{
    let mut content = String::new(alloc);
    let mut length: usize = 1;
    let mut room = MOST_TEXT_BYTES;
    let mut is_second = false;
    while let [b, rest @ ..] = bytes {
        if is_second {
            is_second = false;
        } else if *b == quote {
            if first_byte(rest) != quote {
                return Ok((
                    Piece::Token(What::Text(Text::from_string(content))),
                    length + 1,
                ));
            }
            if room < 2 {
                return Ok(wrong(Mistake::BadToken));
            }
            push_byte(&mut content, *b)?;
            is_second = true;
            room -= 2;
        } else if room == 0 || !can_stand(*b) {
            return Ok(wrong(misplaced(*b)));
        } else {
            push_byte(&mut content, *b)?;
            room -= 1;
        }
        length += 1;
        bytes = rest;
    }
    Ok(wrong(Mistake::BadToken))
}

/// The sign that begins here.
#[tactic(auto, unfolding(crate::specs::Spelling::sign_at), using(crate::proofs::Tables::signs_are))]
fn sign(b: u8, bytes: &[u8]) -> (Piece, usize)
    requires { 0 < length bytes.now }
    ensures value { result ≡ spec.sign_at b bytes.now }
    ensures within { result.1 ≤ length bytes.now }
{
    match sign_in(&SIGNS, bytes) {
        Some((sign, length)) => (Piece::Token(What::Sign(sign)), length),
        None => wrong(misplaced(b)),
    }
}

/// The piece that begins here, and its length.
#[tactic(auto, unfolding(crate::specs::Spelling::front))]
pub fn front(alloc: Global, bytes: &[u8]) -> Result<(Piece, usize), Memory>
    requires some { 0 < length bytes.now }
    requires bound { length bytes.now < 2 ^ 63 }
    ensures value { IfOk result (λ cut. cut ≡ spec.front (slice_index bytes.now 0) bytes.now) }
    ensures within { IfOk result (λ cut. cut.1 ≤ length bytes.now) }
{
    let b = bytes[0];
    if b.is_ascii_alphabetic() {
        let length = name_length(bytes);
        return Ok((name(alloc, &bytes[..length])?, length));
    }
    if b.is_ascii_digit() {
        let length = number_length(bytes);
        return Ok((number(&bytes[..length]), length));
    }
    match b {
        b'\'' | b'"' => text(alloc, b, &bytes[1..]),
        b'&' => Ok((Piece::Ampersand, 1)),
        b';' => Ok((Piece::Token(What::End), 1)),
        _ => Ok(sign(b, bytes)),
    }
}
