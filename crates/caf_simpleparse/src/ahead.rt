//! What stands behind the next token.

ghost use Rattle.std.specs.Prelude.{◌≡◌, is_some};
ghost use Rattle.caf_exprparse.specs.Reads.{Reads};
ghost use Rattle.caf_exprparse.specs.Told as token;
ghost use Rattle.caf_simpleparse.specs.Choices as choices;

use caf_exprparse::{ParseFault, Tokens};
use caf_lexer::{Sign, What, Word};

/// Whether the token behind the next one is this sign.
pub fn second_is_sign(c: &Tokens<'_>, sign: Sign) -> bool
    ensures { result ≡ choices.second_passes (λ w. is_some (token.is_sign sign w)) c.now }
{
    match c.second() {
        Some(What::Sign(next)) => *next == sign,
        _ => false,
    }
}

/// Whether the token behind the next one is this word.
pub fn second_is_word(c: &Tokens<'_>, word: Word) -> bool
    ensures { result ≡ choices.second_passes (λ w. is_some (token.is_word word w)) c.now }
{
    match c.second() {
        Some(What::Word(next)) => *next == word,
        _ => false,
    }
}

/// Whether an `else if` stands here, in one word or in two.
pub fn sees_else_if(c: &Tokens<'_>) -> bool
    ensures { result ≡ choices.at_else_if c.now }
{
    if c.sees_word(Word::ElseIf) {
        return true;
    }
    if c.sees_word(Word::Else) {
        return second_is_word(c, Word::If);
    }
    false
}

/// Takes two words, or the one that they make.
pub fn joined(
    c: &mut Tokens<'_>,
    first: Word,
    second: Word,
    together: Word,
) -> Result<(), ParseFault>
    ensures { Reads (choices.joined first second together c.old) result c.new }
{
    if c.sees_word(first) {
        c.word(first)?;
        return c.word(second);
    }
    c.word(together)
}
