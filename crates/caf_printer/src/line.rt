//! One line of a text.

ghost use Rattle.std.specs.Prelude.{◌≡◌, ◌≤◌, ◌++◌, [], ◌∷◌, List, IfOk, OnOk, map, replicate, ℕ, ◌<◌, ◌-◌, ◌^◌};
ghost use Rattle.caf_tree.specs.Said.{of_word, of_sign, of_name};
ghost use Rattle.caf_tree.specs.Text.{after_column, tokens_text, line_text, token_text};
ghost use Rattle.caf_lexer.specs.declared.token.What.TheVariants as what;
ghost use Rattle.caf_printer.specs.Pieces.{token_of};

use crate::piece::Piece;
use caf_base::{Memory, Text};
use caf_lexer::{Sign, Word};
use std::alloc::Global;
use std::marker::Model;

/// The last column in which a token may end.
const LAST_COLUMN: usize = 130;

/// The tokens of a line.
#[derive(Drop)]
pub struct Line<'a> {
    pieces: Vec<Piece<'a>>,
}

impl<'a> Model for Line<'a> {
    ghost use Rattle.std.specs.Prelude.{List, map};
    ghost use Rattle.caf_lexer.specs.declared.token.What.{What};
    ghost use Rattle.caf_printer.specs.Pieces.{token_of};

    ghost Value = { List What };

    ghost view = { λ line. map token_of line.pieces.items };
}

impl<'a> Line<'a> {
    /// A line without tokens. It takes no memory.
    pub fn new(alloc: Global) -> Line<'a>
        ensures { result ≡ [] }
    {
        Line {
            pieces: Vec::new(alloc),
        }
    }

    fn push(&mut self, piece: Piece<'a>) -> Result<(), Memory>
        ensures { OnOk result (self.new ≡ self.old ++ token_of piece.entry ∷ []) }
    {
        self.pieces.push(piece)?;
        Ok(())
    }

    /// Adds a reserved word.
    pub fn word(&mut self, word: Word) -> Result<(), Memory>
        ensures { OnOk result (self.new ≡ self.old ++ of_word word) }
    {
        self.push(Piece::Word(word))
    }

    /// Adds a sign.
    pub fn sign(&mut self, sign: Sign) -> Result<(), Memory>
        ensures { OnOk result (self.new ≡ self.old ++ of_sign sign) }
    {
        self.push(Piece::Sign(sign))
    }

    /// Adds a name.
    pub fn name(&mut self, name: &'a str) -> Result<(), Memory>
        ensures { OnOk result (self.new ≡ self.old ++ of_name name.now) }
    {
        self.push(Piece::Name(name))
    }

    /// Adds a number.
    pub fn number(&mut self, number: i64) -> Result<(), Memory>
        ensures { OnOk result (self.new ≡ self.old ++ what.Number number ∷ []) }
    {
        self.push(Piece::Number(number))
    }

    /// Adds a text, of which the content is given.
    pub fn text(&mut self, content: &'a str) -> Result<(), Memory>
        ensures { OnOk result (self.new ≡ self.old ++ what.Text content.now ∷ []) }
    {
        self.push(Piece::Text(content))
    }

    /// Prints the line, behind so many blanks, at the end of a text.
    pub fn print(&self, alloc: Global, indent: usize, text: &mut Vec<u8>) -> Result<(), Memory>
        requires { indent ≤ 40 }
        ensures { OnOk result (text.new.items ≡ text.old.items ++ line_text (indent, self.now)) }
    {
        push_blanks(indent, text)?;
        push_pieces(alloc, indent, self.pieces.as_slice(), text)?;
        text.push(b'\n')?;
        Ok(())
    }
}

fn push_blanks(count: usize, text: &mut Vec<u8>) -> Result<(), Memory>
    requires { count ≤ 40 }
    ensures { OnOk result (text.new.items ≡ text.old.items ++ replicate count 32) }
{
    text.resize(text.len() + count, b' ')?;
    Ok(())
}

/// The spelling of a token.
fn spelling(alloc: Global, piece: Piece<'_>) -> Result<Vec<u8>, Memory>
    ensures { IfOk result (λ token. token.items ≡ token_text (token_of piece.entry)) }
{
    let mut token = Vec::new(alloc);
    piece.spell(&mut token)?;
    Ok(token)
}

/// Adds the tokens of a line, of which the first stands behind `indent` blanks.
fn push_pieces(
    alloc: Global,
    indent: usize,
    pieces: &[Piece<'_>],
    text: &mut Vec<u8>,
) -> Result<(), Memory>
    requires { indent ≤ 40 }
    ensures { OnOk result (text.new.items ≡ text.old.items ++ tokens_text indent (map token_text (map token_of pieces.now))) }
{
    match pieces {
        [] => Ok(()),
        [first, others @ ..] => {
            let token = spelling(alloc, *first)?;
            text.extend_from_slice(token.as_slice())?;
            push_others(alloc, indent + token.len(), others, text)
        }
    }
}

/// Adds the tokens that stand behind others, of which the last ends in this column.
fn push_others(
    alloc: Global,
    column: usize,
    pieces: &[Piece<'_>],
    text: &mut Vec<u8>,
) -> Result<(), Memory>
    requires { column < 2 ^ 64 - 1 }
    ensures { OnOk result (text.new.items ≡ text.old.items ++ after_column column (map token_text (map token_of pieces.now))) }
{
    let mut column = column;
    for piece in pieces {
        let token = spelling(alloc, *piece)?;
        column = push_token(column, token.as_slice(), text)?;
    }
    Ok(())
}

/// Adds a token behind others, of which the last ends in this column, and answers in which column it ends. Where the
/// token would carry the line past the last column it begins a line of its own.
fn push_token(column: usize, token: &[u8], text: &mut Vec<u8>) -> Result<usize, Memory>
    requires { column < 2 ^ 64 - 1 }
    ensures text { IfOk result (λ end. (others : List (List ℕ)) → text.new.items ++ after_column end others ≡ text.old.items ++ after_column column (token.now ∷ others)) }
    ensures fits { IfOk result (λ end. end < 2 ^ 64 - 1) }
{
    let end = (column + 1).saturating_add(token.len());
    if end > LAST_COLUMN {
        text.extend_from_slice(b" &\n")?;
        text.extend_from_slice(token)?;
        return Ok(token.len());
    }
    text.push(b' ')?;
    text.extend_from_slice(token)?;
    Ok(end)
}
