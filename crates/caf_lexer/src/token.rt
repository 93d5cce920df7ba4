use caf_base::Text;

/// A reserved word. A name can't be spelled like one.
#[derive(Clone, Copy, Debug, PartialEq, Eq)]
pub enum Word {
    Program,
    End,
    Contains,
    Subroutine,
    Implicit,
    None,
    Integer,
    Logical,
    Event,
    Team,
    Parameter,
    Copointer,
    Intent,
    In,
    Out,
    InOut,
    If,
    Then,
    Else,
    ElseIf,
    EndIf,
    Do,
    While,
    EndDo,
    Finish,
    EndFinish,
    EndProgram,
    EndSubroutine,
    Print,
    Call,
    Spawn,
    EventNotify,
    EventWait,
    CopyAsync,
    Pre,
    Srce,
    Deste,
    Cofence,
    TeamSplit,
    TeamWorld,
    TeamRank,
    TeamSize,
    Mod,
    Abs,
    Min,
    Max,
}

/// A delimiter, an operator or a truth value. Each relation has two spellings, as `==` and `.eq.`.
#[derive(Clone, Copy, Debug, PartialEq, Eq)]
pub enum Sign {
    True,
    False,
    Not,
    And,
    Or,
    Equivalent,
    NotEquivalent,
    Equal,
    NotEqual,
    Less,
    LessEqual,
    Greater,
    GreaterEqual,
    Plus,
    Minus,
    Asterisk,
    Slash,
    /// `=`
    Assign,
    /// `=>`
    Arrow,
    LeftParenthesis,
    RightParenthesis,
    LeftBracket,
    RightBracket,
    Comma,
    Colon,
    DoubleColon,
    At,
}

/// What a token is.
#[derive(Debug, Drop)]
pub enum What {
    /// A name, in small letters.
    Name(Text),
    Word(Word),
    /// Digits. The sign before a number is a token of its own.
    Number(i64),
    /// A text without its quotes, where a doubled quote stands for one.
    Text(Text),
    Sign(Sign),
    /// The end of a statement.
    End,
}

/// A token, and the number of the line on which its first byte stands, from 1. An `End` stands where its `;` or its
/// line end stands: of a statement over several lines on the last.
#[derive(Debug, Drop)]
pub struct Token {
    pub what: What,
    pub line: u32,
}
