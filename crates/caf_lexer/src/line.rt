//! The tokens of one line.

ghost use Rattle.std.specs.Prelude.{◌≡◌, ◌≢◌, ◌<◌, ◌≤◌, ◌+◌, ◌-◌, ◌^◌, length, take, drop, slice_index, IfOk, OnOk, Ok, Err, [], ◌∷◌, true, false};
ghost use Rattle.caf_lexer.specs.Spelling.{pieces, Begins};
ghost use Rattle.caf_lexer.specs.Tokens as spec;

use crate::fault::{LexFault, Mistake};
use crate::piece::{Piece, front};
use crate::token::{Token, What};
use caf_base::{Memory, Sequence};
use std::alloc::Global;

/// The most bytes of a line, without its end.
const MOST_LINE_BYTES: usize = 132;

/// The line from its first piece on, empty where a comment or the line's end comes.
fn from_piece(mut bytes: &[u8]) -> &[u8]
    ensures same { pieces result.now ≡ pieces bytes.entry.now }
    ensures within { length result.now ≤ length bytes.entry.now }
    ensures at { 0 < length result.now → Begins (slice_index result.now 0) }
{
    while let [b, rest @ ..] = bytes {
        if *b == b' ' || *b == b'\t' {
            bytes = rest;
        } else if *b == b'!' {
            return &[];
        } else {
            return bytes;
        }
    }
    bytes
}

/// The first piece, and the line from the next one on.
fn cut(alloc: Global, bytes: &[u8]) -> Result<(Piece, &[u8]), Memory>
    requires some { 0 < length bytes.now }
    requires bound { length bytes.now < 2 ^ 63 }
    requires begins { Begins (slice_index bytes.now 0) }
    ensures pieces { IfOk result (λ cut. pieces bytes.now ≡ cut.0 ∷ pieces cut.1.now) }
    ensures less { IfOk result (λ cut. length cut.1.now < length bytes.now) }
    ensures at { IfOk result (λ cut. 0 < length cut.1.now → Begins (slice_index cut.1.now 0)) }
{
    let (piece, length) = front(alloc, bytes)?;
    let (_, rest) = bytes.split_at(length.max(1));
    Ok((piece, from_piece(rest)))
}

fn is_end(what: &What) -> bool
    ensures { result ≡ spec.is_end what.now }
{
    matches!(what, What::End)
}

/// Whether there is no token, or an `End` at the end.
fn is_ended(tokens: &[Token]) -> bool
    ensures { result ≡ spec.is_ended tokens.now }
{
    match tokens.last() {
        None => true,
        Some(last) => is_end(&last.what),
    }
}

/// Adds a token, but for an `End` that would stand first or after an `End`.
fn add(tokens: &mut Sequence<Token>, token: Token) -> Result<(), LexFault>
    ensures { spec.Leaves result tokens.new (Ok (spec.with_token tokens.old token, tt)) }
{
    if is_end(&token.what) && is_ended(tokens.as_slice()) {
        return Ok(());
    }
    tokens.push(token)?;
    Ok(())
}

/// Adds the tokens from here to the end of the line, and answers whether the statement goes on behind it.
fn rest(
    alloc: Global,
    tokens: &mut Sequence<Token>,
    line: u32,
    mut bytes: &[u8],
) -> Result<bool, LexFault>
    requires bound { length bytes.now < 2 ^ 63 }
    requires begins { 0 < length bytes.now → Begins (slice_index bytes.now 0) }
    ensures { spec.Leaves result tokens.new (spec.given_after tokens.old (spec.rest_of line (pieces bytes.entry.now))) }
{
    while !bytes.is_empty() {
        let (piece, others) = cut(alloc, bytes)?;
        match piece {
            Piece::Token(what) => add(tokens, Token { what, line })?,
            Piece::Mistake(mistake) => return Err(mistake.at(line)),
            Piece::Ampersand if others.is_empty() => return Ok(true),
            Piece::Ampersand => return Err(LexFault::BadToken(line)),
        }
        bytes = others;
    }
    add(
        tokens,
        Token {
            what: What::End,
            line,
        },
    )?;
    Ok(false)
}

/// Adds the tokens of a line, and answers whether the statement goes on behind it. `goes_on` says whether the statement
/// before goes on here.
#[tactic(auto, unfolding(crate::specs::Tokens::line_of))]
pub fn read_line(
    alloc: Global,
    tokens: &mut Sequence<Token>,
    goes_on: bool,
    line: u32,
    bytes: &[u8],
) -> Result<bool, LexFault>
    ensures { spec.Leaves result tokens.new (spec.given_after tokens.old (spec.line_of goes_on line bytes.now)) }
{
    if bytes.len() > MOST_LINE_BYTES {
        return Err(LexFault::LongLine(line));
    }
    let bytes = from_piece(bytes);
    if bytes.is_empty() && goes_on {
        return Ok(true);
    }
    if bytes.is_empty() {
        return rest(alloc, tokens, line, bytes);
    }
    let (first, others) = cut(alloc, bytes)?;
    match first {
        Piece::Token(what) => {
            add(tokens, Token { what, line })?;
            rest(alloc, tokens, line, others)
        }
        Piece::Mistake(mistake) => Err(mistake.at(line)),
        Piece::Ampersand if goes_on && !others.is_empty() => rest(alloc, tokens, line, others),
        Piece::Ampersand => Err(LexFault::BadToken(line)),
    }
}
