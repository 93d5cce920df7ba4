//! The tokens of a line as they are spelled.

ghost use Rattle.std.specs.Prelude.{◌≡◌, ◌==◌, ◌+◌, ◌++◌, ◌∷◌, [], OnOk, count_by, if◌then◌else◌};
ghost use Rattle.caf_tree.specs.Text.{word_text, sign_text, quote_for, doubled, quoted, token_text};
ghost use Rattle.caf_printer.specs.Pieces.{token_of};

use caf_base::Memory;
use caf_lexer::{Sign, Word};
use itoa::Buffer;

/// A token of a line.
#[derive(Clone, Copy)]
pub enum Piece<'a> {
    Name(&'a str),
    Word(Word),
    Number(i64),
    /// A text without its quotes.
    Text(&'a str),
    Sign(Sign),
}

impl Piece<'_> {
    /// Adds the spelling of a token.
    pub fn spell(self, text: &mut Vec<u8>) -> Result<(), Memory>
        ensures { OnOk result (text.new.items ≡ text.old.items ++ token_text (token_of self.entry)) }
    {
        match self {
            Piece::Name(name) => text.extend_from_slice(name.as_bytes())?,
            Piece::Word(word) => text.extend_from_slice(word_bytes(word))?,
            Piece::Number(number) => {
                text.extend_from_slice(Buffer::new().format(number).as_bytes())?
            }
            Piece::Text(content) => quote(content.as_bytes(), text)?,
            Piece::Sign(sign) => text.extend_from_slice(sign_bytes(sign))?,
        }
        Ok(())
    }
}

/// The quote that needs fewer doublings, and `'` where both need as many.
fn quote_of(content: &[u8]) -> u8
    ensures { result ≡ quote_for content.now }
{
    let single = count_of(content, b'\'');
    let double = count_of(content, b'"');
    if double < single { b'"' } else { b'\'' }
}

/// How often a byte stands there.
fn count_of(content: &[u8], byte: u8) -> usize
    ensures { result ≡ count_by (λ b. b == byte) content.now }
{
    content.iter().filter(|b| **b == byte).count()
}

/// Adds a text within quotes, in which each such quote is doubled.
fn quote(content: &[u8], text: &mut Vec<u8>) -> Result<(), Memory>
    ensures { OnOk result (text.new.items ≡ text.old.items ++ quoted (quote_for content.now) content.now) }
{
    let quote = quote_of(content);
    text.push(quote)?;
    push_doubled(content, quote, text)?;
    text.push(quote)?;
    Ok(())
}

/// Adds bytes, of which each quote is doubled.
fn push_doubled(content: &[u8], quote: u8, text: &mut Vec<u8>) -> Result<(), Memory>
    ensures { OnOk result (text.new.items ≡ text.old.items ++ doubled quote content.now) }
{
    for b in content {
        push_byte(*b, quote, text)?;
    }
    Ok(())
}

/// Adds a byte, twice where it is the quote.
fn push_byte(b: u8, quote: u8, text: &mut Vec<u8>) -> Result<(), Memory>
    ensures { OnOk result (text.new.items ≡ text.old.items ++ (if b == quote then b ∷ b ∷ [] else b ∷ [])) }
{
    text.push(b)?;
    if b == quote {
        text.push(b)?;
    }
    Ok(())
}

/// The spelling of a reserved word.
fn word_bytes(word: Word) -> &'static [u8]
    ensures { result.now ≡ word_text word }
{
    match word {
        Word::Program => b"program",
        Word::End => b"end",
        Word::Contains => b"contains",
        Word::Subroutine => b"subroutine",
        Word::Implicit => b"implicit",
        Word::None => b"none",
        Word::Integer => b"integer",
        Word::Logical => b"logical",
        Word::Event => b"event",
        Word::Team => b"team",
        Word::Parameter => b"parameter",
        Word::Copointer => b"copointer",
        Word::Intent => b"intent",
        Word::In => b"in",
        Word::Out => b"out",
        Word::InOut => b"inout",
        Word::If => b"if",
        Word::Then => b"then",
        Word::Else => b"else",
        Word::ElseIf => b"elseif",
        Word::EndIf => b"endif",
        Word::Do => b"do",
        Word::While => b"while",
        Word::EndDo => b"enddo",
        Word::Finish => b"finish",
        Word::EndFinish => b"endfinish",
        Word::EndProgram => b"endprogram",
        Word::EndSubroutine => b"endsubroutine",
        Word::Print => b"print",
        Word::Call => b"call",
        Word::Spawn => b"spawn",
        Word::EventNotify => b"event_notify",
        Word::EventWait => b"event_wait",
        Word::CopyAsync => b"copy_async",
        Word::Pre => b"pre",
        Word::Srce => b"srce",
        Word::Deste => b"deste",
        Word::Cofence => b"cofence",
        Word::TeamSplit => b"team_split",
        Word::TeamWorld => b"team_world",
        Word::TeamRank => b"team_rank",
        Word::TeamSize => b"team_size",
        Word::Mod => b"mod",
        Word::Abs => b"abs",
        Word::Min => b"min",
        Word::Max => b"max",
    }
}

/// The spelling of a sign.
fn sign_bytes(sign: Sign) -> &'static [u8]
    ensures { result.now ≡ sign_text sign }
{
    match sign {
        Sign::True => b".true.",
        Sign::False => b".false.",
        Sign::Not => b".not.",
        Sign::And => b".and.",
        Sign::Or => b".or.",
        Sign::Equivalent => b".eqv.",
        Sign::NotEquivalent => b".neqv.",
        Sign::Equal => b"==",
        Sign::NotEqual => b"/=",
        Sign::Less => b"<",
        Sign::LessEqual => b"<=",
        Sign::Greater => b">",
        Sign::GreaterEqual => b">=",
        Sign::Plus => b"+",
        Sign::Minus => b"-",
        Sign::Asterisk => b"*",
        Sign::Slash => b"/",
        Sign::Assign => b"=",
        Sign::Arrow => b"=>",
        Sign::LeftParenthesis => b"(",
        Sign::RightParenthesis => b")",
        Sign::LeftBracket => b"[",
        Sign::RightBracket => b"]",
        Sign::Comma => b",",
        Sign::Colon => b":",
        Sign::DoubleColon => b"::",
        Sign::At => b"@",
    }
}
