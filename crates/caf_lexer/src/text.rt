//! The tokens of a text.

ghost use Rattle.std.specs.Prelude.{◌≡◌, ◌≢◌, ◌<◌, ◌≤◌, ◌+◌, ◌-◌, ◌^◌, length, take, drop, slice_index, not, ◌==◌, ◌∷◌};
ghost use Rattle.std.specs.List.{prefix_len};
ghost use Rattle.caf_lexer.specs.Lines as spec;
ghost use Rattle.caf_lexer.specs.Tokens.{tokens_of, Answers};

use crate::fault::LexFault;
use crate::line::read_line;
use crate::token::Token;
use caf_base::Sequence;
use std::alloc::Global;

/// How many bytes stand before the first byte 10.
fn line_length(bytes: &[u8]) -> usize
    ensures value { result ≡ prefix_len (λ b. not (b == 10)) bytes.now }
    ensures within { result ≤ length bytes.now }
{
    let mut end = 0;
    while end < bytes.len() && bytes[end] != b'\n' {
        end += 1;
    }
    end
}

/// What stands before a byte 10, without the byte 13 that belongs to the line end.
fn without_return(bytes: &[u8]) -> &[u8]
    ensures { result.now ≡ spec.without_return bytes.now }
{
    if bytes.len() > 0 && bytes[bytes.len() - 1] == b'\r' {
        &bytes[..bytes.len() - 1]
    } else {
        bytes
    }
}

/// The first line, and what comes after it.
fn next_line(bytes: &[u8]) -> (&[u8], &[u8])
    requires { 0 < length bytes.now }
    ensures lines { spec.lines bytes.now ≡ result.0.now ∷ spec.lines result.1.now }
    ensures less { length result.1.now < length bytes.now }
{
    let end = line_length(bytes);
    if end == bytes.len() {
        return (bytes, &bytes[end..]);
    }
    let (line, rest) = bytes.split_at(end);
    let (_, rest) = rest.split_at(1);
    (without_return(line), rest)
}

/// The tokens of a text, or its first fault. The time is proportional to the text, of which there is less than 4 GiB, so
/// that the numbers of its lines fit.
#[tactic(auto, unfolding(crate::specs::Tokens::tokens_of))]
pub fn tokens(alloc: Global, bytes: &[u8]) -> Result<Sequence<Token>, LexFault>
    requires { length bytes.now < 2 ^ 32 }
    ensures { Answers result (tokens_of bytes.now) }
{
    let mut tokens = Sequence::new(alloc);
    let mut rest = bytes;
    let mut goes_on = false;
    let mut number: u32 = 0;
    while !rest.is_empty() {
        let (line, others) = next_line(rest);
        number += 1;
        goes_on = read_line(alloc, &mut tokens, goes_on, number, line)?;
        rest = others;
    }
    if goes_on {
        return Err(LexFault::OpenContinuation(number));
    }
    Ok(tokens)
}
