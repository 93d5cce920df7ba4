//! What follows from the definitions for every text.

ghost use Rattle.std.specs.Prelude.{◌≡◌, ◌⊎◌, ◌↔◌, List, ℕ, true, Ok, Err};
ghost use Rattle.std.specs.List.{list_all};
ghost use Rattle.caf_lexer.specs.declared.fault.LexFault.{LexFault};
ghost use Rattle.caf_lexer.specs.declared.piece.Piece.{Piece};
ghost use Rattle.caf_lexer.specs.declared.token.Token.{Token};
ghost use Rattle.caf_lexer.specs.Ends.{ended_after, is_apart};
ghost use Rattle.caf_lexer.specs.HasTokens.{HasTokens, HasFault};
ghost use Rattle.caf_lexer.specs.Longest.{is_sound, IsCut};
ghost use Rattle.caf_lexer.specs.Spelling.{pieces};
ghost use Rattle.caf_lexer.specs.Tokens.{tokens_of};

/// The pieces of a line without mistakes are the longest spellings at their places, from left to right, up to the end
/// of the line or a comment, with nothing but blanks between them. No line is made of longest spellings in another way.
pub fn pieces_are_longest_spellings()
    ensures longest { (line : List ℕ) → list_all is_sound (pieces line) ≡ true → IsCut line (pieces line) }
    ensures only { (line : List ℕ) (found : List Piece) → IsCut line found → found ≡ pieces line }
{}

/// Each text has a list of tokens, told by whole lines and longest spellings, or a first fault. The fault is that of
/// the first line which has one, behind lines that give tokens; in its line it is the first from left to right, as it
/// is computed. A text has one of the two alone, which is the one that is computed, and which
/// [`tokens`](crate::tokens) answers.
pub fn each_text_has_tokens_or_a_fault()
    ensures one { (text : List ℕ) → ((tokens : List Token) × HasTokens text tokens) ⊎ ((fault : LexFault) × HasFault text fault) }
    ensures tokens { (text : List ℕ) (tokens : List Token) → HasTokens text tokens ↔ (tokens_of text ≡ Ok tokens) }
    ensures fault { (text : List ℕ) (fault : LexFault) → HasFault text fault ↔ (tokens_of text ≡ Err fault) }
{}

/// In the tokens of a text no `End` stands first, none follows another, and the last is an `End`, if there are any.
pub fn ends_are_placed()
    ensures apart { (text : List ℕ) (tokens : List Token) → tokens_of text ≡ Ok tokens → is_apart true tokens ≡ true }
    ensures last { (text : List ℕ) (tokens : List Token) → tokens_of text ≡ Ok tokens → ended_after true tokens ≡ true }
{}
