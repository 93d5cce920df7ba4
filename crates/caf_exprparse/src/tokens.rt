ghost use Rattle.std.specs.Prelude.{◌≡◌, length, option_map, is_some};
ghost use Rattle.caf_exprparse.specs.Reads.{Reads};
ghost use Rattle.caf_exprparse.specs.Reading as reading;
ghost use Rattle.caf_exprparse.specs.Told as token;
ghost use Rattle.caf_exprparse.specs.Reader as r;

use crate::fault::ParseFault;
use caf_base::Text;
use caf_lexer::{Sign, Token, What, Word};
use caf_tree::expr::{FrontSign, Level, Operator, Relation, Team};
use caf_tree::stmt::FenceClass;
use caf_tree::unit::ValueKind;
use std::alloc::Global;
use std::marker::Model;

/// The tokens that are left to read. Contracts see them as their list.
#[derive(Drop)]
pub struct Tokens<'a> {
    left: &'a [Token],
    /// The line of the last token of all, or 1.
    last_line: u32,
    /// How few tokens were left where one didn't fit, and the line of that one.
    fewest: usize,
    fault_line: u32,
}

impl<'a> Model for Tokens<'a> {
    ghost use Rattle.std.specs.Prelude.{List};
    ghost use Rattle.caf_lexer.specs.declared.token.Token.{Token};

    ghost Value = { List Token };

    ghost view = { λ c. c.left.now };
}

impl<'a> Tokens<'a> {
    /// All these tokens.
    pub fn new(tokens: &'a [Token]) -> Tokens<'a>
        ensures { result ≡ tokens.now }
    {
        let last_line = match tokens {
            [.., last] => last.line,
            [] => 1,
        };
        Tokens {
            left: tokens,
            last_line,
            fewest: usize::MAX,
            fault_line: last_line,
        }
    }

    /// What is left, to come back to it.
    pub fn mark(&self) -> &'a [Token]
        ensures { result.now ≡ self.now }
    {
        self.left
    }

    /// Goes back to a mark.
    pub fn back(&mut self, mark: &'a [Token])
        ensures { self.new ≡ mark.now }
    {
        self.left = mark;
    }

    /// How many tokens are left.
    pub fn left(&self) -> usize
        ensures { result ≡ length self.now }
    {
        self.left.len()
    }

    /// The line of the next token, or of the last of all.
    pub fn line(&self) -> u32 {
        match self.left {
            [token, ..] => token.line,
            [] => self.last_line,
        }
    }

    /// The line of the next token, or 0 where none is left.
    pub fn first_line(&self) -> u32
        ensures { result ≡ reading.line_at self.now }
    {
        match self.left {
            [token, ..] => token.line,
            [] => 0,
        }
    }

    /// The line of the first token so far that didn't fit. The next one doesn't.
    pub fn fault_line(&mut self) -> u32
        ensures { self.new ≡ self.old }
    {
        if self.left.len() <= self.fewest {
            self.fewest = self.left.len();
            self.fault_line = self.line();
        }
        self.fault_line
    }

    /// What the next token is.
    pub fn next(&self) -> Option<&'a What>
        ensures { option_map (λ w. w.now) result ≡ reading.next_of self.now }
    {
        match self.left {
            [token, ..] => Some(&token.what),
            [] => None,
        }
    }

    /// What the token behind the next one is.
    pub fn second(&self) -> Option<&'a What>
        ensures { option_map (λ w. w.now) result ≡ reading.second_of self.now }
    {
        match self.left {
            [_, token, ..] => Some(&token.what),
            _ => None,
        }
    }

    /// What the token behind the next two is.
    pub fn third(&self) -> Option<&'a What>
        ensures { option_map (λ w. w.now) result ≡ reading.third_of self.now }
    {
        match self.left {
            [_, _, token, ..] => Some(&token.what),
            _ => None,
        }
    }

    /// Whether the next token is this sign.
    pub fn sees_sign(&self, sign: Sign) -> bool
        ensures { result ≡ reading.ahead (λ w. is_some (token.is_sign sign w)) self.now }
    {
        match self.left {
            [token, ..] => match token.what {
                What::Sign(next) => next == sign,
                _ => false,
            },
            [] => false,
        }
    }

    /// Whether the next token is this word.
    pub fn sees_word(&self, word: Word) -> bool
        ensures { result ≡ reading.ahead (λ w. is_some (token.is_word word w)) self.now }
    {
        match self.left {
            [token, ..] => match token.what {
                What::Word(next) => next == word,
                _ => false,
            },
            [] => false,
        }
    }

    /// Whether the next token is this name.
    pub fn sees_name(&self, name: &str) -> bool
        ensures { result ≡ reading.ahead (λ w. is_some (token.is_name name.now w)) self.now }
    {
        match self.left {
            [token, ..] => match &token.what {
                What::Name(next) => next.as_str() == name,
                _ => false,
            },
            [] => false,
        }
    }

    /// Whether the next token is a text.
    pub fn sees_text(&self) -> bool
        ensures { result ≡ reading.ahead (λ w. is_some (token.a_text w)) self.now }
    {
        match self.left {
            [token, ..] => matches!(&token.what, What::Text(_)),
            [] => false,
        }
    }

    /// Whether the next token is `+` or `-`.
    pub fn sees_front_sign(&self) -> bool
        ensures { result ≡ reading.ahead (λ w. is_some (token.a_front w)) self.now }
    {
        match self.left {
            [token, ..] => match token.what {
                What::Sign(Sign::Plus) | What::Sign(Sign::Minus) => true,
                _ => false,
            },
            [] => false,
        }
    }

    /// Takes this sign.
    pub fn sign(&mut self, sign: Sign) -> Result<(), ParseFault>
        ensures { Reads (token.sign' sign self.old) result self.new }
    {
        match self.left {
            [token, rest @ ..] => match token.what {
                What::Sign(next) if next == sign => {
                    self.left = rest;
                    Ok(())
                }
                _ => Err(ParseFault::Syntax(self.fault_line())),
            },
            [] => Err(ParseFault::Syntax(self.fault_line())),
        }
    }

    /// Takes this word.
    pub fn word(&mut self, word: Word) -> Result<(), ParseFault>
        ensures { Reads (token.word' word self.old) result self.new }
    {
        match self.left {
            [token, rest @ ..] => match token.what {
                What::Word(next) if next == word => {
                    self.left = rest;
                    Ok(())
                }
                _ => Err(ParseFault::Syntax(self.fault_line())),
            },
            [] => Err(ParseFault::Syntax(self.fault_line())),
        }
    }

    /// Takes a name.
    pub fn name(&mut self, alloc: Global) -> Result<Text, ParseFault>
        ensures { Reads (r.name self.old) result self.new }
    {
        match self.left {
            [token, rest @ ..] => match &token.what {
                What::Name(name) => {
                    let name = Text::copy_of(alloc, name.as_str())?;
                    self.left = rest;
                    Ok(name)
                }
                _ => Err(ParseFault::Syntax(self.fault_line())),
            },
            [] => Err(ParseFault::Syntax(self.fault_line())),
        }
    }

    /// Takes a number.
    pub fn number(&mut self) -> Result<i64, ParseFault>
        ensures { Reads (reading.one token.a_number self.old) result self.new }
    {
        match self.left {
            [token, rest @ ..] => match token.what {
                What::Number(number) => {
                    self.left = rest;
                    Ok(number)
                }
                _ => Err(ParseFault::Syntax(self.fault_line())),
            },
            [] => Err(ParseFault::Syntax(self.fault_line())),
        }
    }

    /// Takes `.true.` or `.false.`.
    pub fn truth(&mut self) -> Result<bool, ParseFault>
        ensures { Reads (reading.one token.a_truth self.old) result self.new }
    {
        match self.left {
            [token, rest @ ..] => match token.what {
                What::Sign(Sign::True) => {
                    self.left = rest;
                    Ok(true)
                }
                What::Sign(Sign::False) => {
                    self.left = rest;
                    Ok(false)
                }
                _ => Err(ParseFault::Syntax(self.fault_line())),
            },
            [] => Err(ParseFault::Syntax(self.fault_line())),
        }
    }

    /// Takes a team: a name, or `team_world`.
    pub fn team(&mut self, alloc: Global) -> Result<Team, ParseFault>
        ensures { Reads (r.team self.old) result self.new }
    {
        match self.left {
            [token, rest @ ..] => match &token.what {
                What::Name(name) => {
                    let name = Text::copy_of(alloc, name.as_str())?;
                    self.left = rest;
                    Ok(Team::Named(name))
                }
                What::Word(Word::TeamWorld) => {
                    self.left = rest;
                    Ok(Team::World)
                }
                _ => Err(ParseFault::Syntax(self.fault_line())),
            },
            [] => Err(ParseFault::Syntax(self.fault_line())),
        }
    }

    /// Takes an operator of this level.
    pub fn operator(&mut self, level: Level) -> Result<Operator, ParseFault>
        ensures { Reads (reading.one (token.an_operator level) self.old) result self.new }
    {
        match self.left {
            [token, rest @ ..] => match operator_at(level, &token.what) {
                Some(operator) => {
                    self.left = rest;
                    Ok(operator)
                }
                None => Err(ParseFault::Syntax(self.fault_line())),
            },
            [] => Err(ParseFault::Syntax(self.fault_line())),
        }
    }

    /// Takes a relation.
    pub fn relation(&mut self) -> Result<Relation, ParseFault>
        ensures { Reads (reading.one token.a_relation self.old) result self.new }
    {
        match self.left {
            [token, rest @ ..] => match relation_at(&token.what) {
                Some(relation) => {
                    self.left = rest;
                    Ok(relation)
                }
                None => Err(ParseFault::Syntax(self.fault_line())),
            },
            [] => Err(ParseFault::Syntax(self.fault_line())),
        }
    }

    /// Takes `+` or `-`.
    pub fn front_sign(&mut self) -> Result<FrontSign, ParseFault>
        ensures { Reads (reading.one token.a_front self.old) result self.new }
    {
        match self.left {
            [token, rest @ ..] => match token.what {
                What::Sign(Sign::Plus) => {
                    self.left = rest;
                    Ok(FrontSign::Plus)
                }
                What::Sign(Sign::Minus) => {
                    self.left = rest;
                    Ok(FrontSign::Minus)
                }
                _ => Err(ParseFault::Syntax(self.fault_line())),
            },
            [] => Err(ParseFault::Syntax(self.fault_line())),
        }
    }

    /// Takes the end of a statement.
    pub fn end(&mut self) -> Result<(), ParseFault>
        ensures { Reads (token.end' self.old) result self.new }
    {
        match self.left {
            [token, rest @ ..] => match &token.what {
                What::End => {
                    self.left = rest;
                    Ok(())
                }
                _ => Err(ParseFault::Syntax(self.fault_line())),
            },
            [] => Err(ParseFault::Syntax(self.fault_line())),
        }
    }

    /// Takes this name.
    pub fn named(&mut self, name: &str) -> Result<(), ParseFault>
        ensures { Reads (token.named name.now self.old) result self.new }
    {
        match self.left {
            [token, rest @ ..] => match &token.what {
                What::Name(next) if next.as_str() == name => {
                    self.left = rest;
                    Ok(())
                }
                _ => Err(ParseFault::Syntax(self.fault_line())),
            },
            [] => Err(ParseFault::Syntax(self.fault_line())),
        }
    }

    /// Takes a text.
    pub fn text(&mut self, alloc: Global) -> Result<Text, ParseFault>
        ensures { Reads (reading.one token.a_text self.old) result self.new }
    {
        match self.left {
            [token, rest @ ..] => match &token.what {
                What::Text(text) => {
                    let text = Text::copy_of(alloc, text.as_str())?;
                    self.left = rest;
                    Ok(text)
                }
                _ => Err(ParseFault::Syntax(self.fault_line())),
            },
            [] => Err(ParseFault::Syntax(self.fault_line())),
        }
    }

    /// Takes `integer` or `logical`.
    pub fn kind(&mut self) -> Result<ValueKind, ParseFault>
        ensures { Reads (reading.one token.a_kind self.old) result self.new }
    {
        match self.left {
            [token, rest @ ..] => match &token.what {
                What::Word(Word::Integer) => {
                    self.left = rest;
                    Ok(ValueKind::Integer)
                }
                What::Word(Word::Logical) => {
                    self.left = rest;
                    Ok(ValueKind::Logical)
                }
                _ => Err(ParseFault::Syntax(self.fault_line())),
            },
            [] => Err(ParseFault::Syntax(self.fault_line())),
        }
    }

    /// Takes `read`, `write` or `any`.
    pub fn fence_class(&mut self) -> Result<FenceClass, ParseFault>
        ensures { Reads (reading.one token.a_class self.old) result self.new }
    {
        match self.left {
            [token, rest @ ..] => match class_at(&token.what) {
                Some(class) => {
                    self.left = rest;
                    Ok(class)
                }
                None => Err(ParseFault::Syntax(self.fault_line())),
            },
            [] => Err(ParseFault::Syntax(self.fault_line())),
        }
    }
}

fn operator_of(sign: Sign) -> Option<Operator>
    ensures { result ≡ token.operator_of sign }
{
    match sign {
        Sign::Asterisk => Some(Operator::Multiply),
        Sign::Slash => Some(Operator::Divide),
        Sign::Plus => Some(Operator::Add),
        Sign::Minus => Some(Operator::Subtract),
        Sign::And => Some(Operator::And),
        Sign::Or => Some(Operator::Or),
        Sign::Equivalent => Some(Operator::Equivalent),
        Sign::NotEquivalent => Some(Operator::NotEquivalent),
        _ => None,
    }
}

fn operator_at(level: Level, what: &What) -> Option<Operator>
    ensures { result ≡ token.an_operator level what.now }
{
    let What::Sign(sign) = what else {
        return None;
    };
    match operator_of(*sign) {
        Some(operator) if operator.level() == level => Some(operator),
        _ => None,
    }
}

fn relation_at(what: &What) -> Option<Relation>
    ensures { result ≡ token.a_relation what.now }
{
    match what {
        What::Sign(Sign::Equal) => Some(Relation::Equal),
        What::Sign(Sign::NotEqual) => Some(Relation::NotEqual),
        What::Sign(Sign::Less) => Some(Relation::Less),
        What::Sign(Sign::LessEqual) => Some(Relation::LessEqual),
        What::Sign(Sign::Greater) => Some(Relation::Greater),
        What::Sign(Sign::GreaterEqual) => Some(Relation::GreaterEqual),
        _ => None,
    }
}

fn class_at(what: &What) -> Option<FenceClass>
    ensures { result ≡ token.a_class what.now }
{
    let What::Name(name) = what else {
        return None;
    };
    if name.as_str() == "read" {
        Some(FenceClass::Read)
    } else if name.as_str() == "write" {
        Some(FenceClass::Write)
    } else if name.as_str() == "any" {
        Some(FenceClass::Any)
    } else {
        None
    }
}
