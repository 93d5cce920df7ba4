//! Declarations.

ghost use Rattle.std.specs.Prelude.{◌≡◌, ◌<◌, suc};
ghost use Rattle.caf_tree.specs.Units.{is_there};
ghost use Rattle.caf_exprparse.specs.Reader as e;
ghost use Rattle.caf_exprparse.specs.Reading as reading;
ghost use Rattle.caf_exprparse.specs.Reads.{Reads};
ghost use Rattle.caf_exprparse.specs.Told as token;
ghost use Rattle.caf_simpleparse.specs.Choices as choices;
ghost use Rattle.caf_parser.specs.Reader as r;

use caf_base::Text;
use caf_exprparse::{ParseFault, Tokens};
use caf_lexer::{Sign, What, Word};
use caf_simpleparse::ahead::second_is_sign;
use caf_simpleparse::{Parts, all_of};
use caf_tree::expr::Expr;
use caf_tree::unit::{Bounds, Decl, Intent, Item, ValueKind};
use sqlite_items::Items;
use std::alloc::Global;

/// The readers of declarations.
#[derive(Clone, Copy)]
pub struct Declarations {
    pub alloc: Global,
    /// How many levels of parentheses and brackets may be opened.
    pub depth: u32,
}

impl Declarations {
    fn parts(self) -> Parts
        ensures depth { result.depth ≡ self.depth }
    {
        Parts {
            alloc: self.alloc,
            depth: self.depth,
        }
    }

    fn within(self) -> Declarations
        requires { 0 < self.depth }
        ensures { self.depth ≡ suc result.depth }
    {
        Declarations {
            alloc: self.alloc,
            depth: self.depth - 1,
        }
    }

    fn second_bound(self, c: &mut Tokens<'_>) -> Result<Expr, ParseFault>
        ensures { Reads (reading.lead (token.sign' Sign.Colon) (e.expression self.depth) c.old) result c.new }
    {
        c.sign(Sign::Colon)?;
        self.parts().value(c)
    }

    fn perhaps_second_bound(self, c: &mut Tokens<'_>) -> Result<Option<Expr>, ParseFault>
        ensures { Reads (reading.optional (reading.lead (token.sign' Sign.Colon) (e.expression self.depth)) c.old) result c.new }
    {
        let before = c.mark();
        match self.second_bound(c) {
            Ok(item) => Ok(Some(item)),
            Err(ParseFault::Syntax(_)) => {
                c.back(before);
                Ok(None)
            }
            Err(fault) => Err(fault),
        }
    }

    #[tactic(auto, unfolding(crate::specs::Reader::bounds))]
    fn bounds(self, c: &mut Tokens<'_>) -> Result<Bounds, ParseFault>
        ensures { Reads (r.bounds self.depth c.old) result c.new }
    {
        let first = self.parts().value(c)?;
        match self.perhaps_second_bound(c)? {
            None => Ok(Bounds {
                lower: None,
                upper: first,
            }),
            Some(second) => Ok(Bounds {
                lower: Some(first),
                upper: second,
            }),
        }
    }

    fn bounds_inside(self, c: &mut Tokens<'_>) -> Result<Bounds, ParseFault>
        ensures { Reads (reading.inside r.bounds self.depth c.old) result c.new }
    {
        if self.depth == 0 {
            return Err(ParseFault::Deep(c.line()));
        }
        self.within().bounds(c)
    }

    fn bounds_in(self, c: &mut Tokens<'_>) -> Result<Bounds, ParseFault>
        ensures { Reads (token.in_parentheses (reading.inside r.bounds self.depth) c.old) result c.new }
    {
        c.sign(Sign::LeftParenthesis)?;
        let bounds = self.bounds_inside(c)?;
        c.sign(Sign::RightParenthesis)?;
        Ok(bounds)
    }

    fn perhaps_bounds(self, c: &mut Tokens<'_>) -> Result<Option<Bounds>, ParseFault>
        ensures { Reads (reading.optional (token.in_parentheses (reading.inside r.bounds self.depth)) c.old) result c.new }
    {
        let before = c.mark();
        match self.bounds_in(c) {
            Ok(item) => Ok(Some(item)),
            Err(ParseFault::Syntax(_)) => {
                c.back(before);
                Ok(None)
            }
            Err(fault) => Err(fault),
        }
    }

    fn asterisk_inside(self, c: &mut Tokens<'_>) -> Result<(), ParseFault>
        ensures { Reads (reading.inside (λ _. token.sign' Sign.Asterisk) self.depth c.old) result c.new }
    {
        if self.depth == 0 {
            return Err(ParseFault::Deep(c.line()));
        }
        c.sign(Sign::Asterisk)
    }

    fn asterisk_in(self, c: &mut Tokens<'_>) -> Result<(), ParseFault>
        ensures { Reads (token.in_brackets (reading.inside (λ _. token.sign' Sign.Asterisk) self.depth) c.old) result c.new }
    {
        c.sign(Sign::LeftBracket)?;
        self.asterisk_inside(c)?;
        c.sign(Sign::RightBracket)?;
        Ok(())
    }

    fn is_shared(self, c: &mut Tokens<'_>) -> Result<bool, ParseFault>
        ensures { Reads (reading.make is_there (reading.optional (token.in_brackets (reading.inside (λ _. token.sign' Sign.Asterisk) self.depth))) c.old) result c.new }
    {
        let before = c.mark();
        match self.asterisk_in(c) {
            Ok(()) => Ok(true),
            Err(ParseFault::Syntax(_)) => {
                c.back(before);
                Ok(false)
            }
            Err(fault) => Err(fault),
        }
    }

    #[tactic(auto, unfolding(crate::specs::Reader::item))]
    fn item(self, c: &mut Tokens<'_>) -> Result<Item, ParseFault>
        ensures { Reads (r.item self.depth c.old) result c.new }
    {
        let name = c.name(self.alloc)?;
        let bounds = self.perhaps_bounds(c)?;
        let shared = self.is_shared(c)?;
        Ok(Item {
            name,
            bounds,
            shared,
        })
    }

    fn next_item(self, c: &mut Tokens<'_>) -> Result<Item, ParseFault>
        ensures { Reads (choices.next_behind (r.item self.depth) c.old) result c.new }
    {
        c.sign(Sign::Comma)?;
        self.item(c)
    }

    fn more_items(self, c: &mut Tokens<'_>) -> Result<Items<Item>, ParseFault>
        ensures { Reads (reading.many (choices.next_behind (r.item self.depth)) c.old) result c.new }
    {
        let mut found = Items::new(self.alloc);
        for _turn in 0..c.left() {
            let before = c.mark();
            match self.next_item(c) {
                Ok(item) => found.push(item)?,
                Err(ParseFault::Syntax(_)) => {
                    c.back(before);
                    return Ok(found);
                }
                Err(fault) => return Err(fault),
            }
        }
        Ok(found)
    }

    fn items(self, c: &mut Tokens<'_>) -> Result<Items<Item>, ParseFault>
        ensures { Reads (choices.listed (r.item self.depth) c.old) result c.new }
    {
        let first = self.item(c)?;
        let more = self.more_items(c)?;
        Ok(all_of(self.alloc, first, more)?)
    }

    fn value(self, c: &mut Tokens<'_>) -> Result<(Text, Expr), ParseFault>
        ensures { Reads (r.value self.depth c.old) result c.new }
    {
        let name = c.name(self.alloc)?;
        c.sign(Sign::Assign)?;
        let value = self.parts().value(c)?;
        Ok((name, value))
    }

    fn next_value(self, c: &mut Tokens<'_>) -> Result<(Text, Expr), ParseFault>
        ensures { Reads (choices.next_behind (r.value self.depth) c.old) result c.new }
    {
        c.sign(Sign::Comma)?;
        self.value(c)
    }

    fn more_values(self, c: &mut Tokens<'_>) -> Result<Items<(Text, Expr)>, ParseFault>
        ensures { Reads (reading.many (choices.next_behind (r.value self.depth)) c.old) result c.new }
    {
        let mut found = Items::new(self.alloc);
        for _turn in 0..c.left() {
            let before = c.mark();
            match self.next_value(c) {
                Ok(item) => found.push(item)?,
                Err(ParseFault::Syntax(_)) => {
                    c.back(before);
                    return Ok(found);
                }
                Err(fault) => return Err(fault),
            }
        }
        Ok(found)
    }

    fn values(self, c: &mut Tokens<'_>) -> Result<Items<(Text, Expr)>, ParseFault>
        ensures { Reads (choices.listed (r.value self.depth) c.old) result c.new }
    {
        let first = self.value(c)?;
        let more = self.more_values(c)?;
        Ok(all_of(self.alloc, first, more)?)
    }

    fn colon_inside(self, c: &mut Tokens<'_>) -> Result<(), ParseFault>
        ensures { Reads (reading.inside (λ _. token.sign' Sign.Colon) self.depth c.old) result c.new }
    {
        if self.depth == 0 {
            return Err(ParseFault::Deep(c.line()));
        }
        c.sign(Sign::Colon)
    }

    fn colon_in(self, c: &mut Tokens<'_>) -> Result<(), ParseFault>
        ensures { Reads (token.in_parentheses (reading.inside (λ _. token.sign' Sign.Colon) self.depth) c.old) result c.new }
    {
        c.sign(Sign::LeftParenthesis)?;
        self.colon_inside(c)?;
        c.sign(Sign::RightParenthesis)?;
        Ok(())
    }

    fn pointer(self, c: &mut Tokens<'_>) -> Result<Text, ParseFault>
        ensures { Reads (r.pointer self.depth c.old) result c.new }
    {
        let name = c.name(self.alloc)?;
        self.colon_in(c)?;
        Ok(name)
    }

    fn next_pointer(self, c: &mut Tokens<'_>) -> Result<Text, ParseFault>
        ensures { Reads (choices.next_behind (r.pointer self.depth) c.old) result c.new }
    {
        c.sign(Sign::Comma)?;
        self.pointer(c)
    }

    fn more_pointers(self, c: &mut Tokens<'_>) -> Result<Items<Text>, ParseFault>
        ensures { Reads (reading.many (choices.next_behind (r.pointer self.depth)) c.old) result c.new }
    {
        let mut found = Items::new(self.alloc);
        for _turn in 0..c.left() {
            let before = c.mark();
            match self.next_pointer(c) {
                Ok(item) => found.push(item)?,
                Err(ParseFault::Syntax(_)) => {
                    c.back(before);
                    return Ok(found);
                }
                Err(fault) => return Err(fault),
            }
        }
        Ok(found)
    }

    fn pointers(self, c: &mut Tokens<'_>) -> Result<Items<Text>, ParseFault>
        ensures { Reads (choices.listed (r.pointer self.depth) c.old) result c.new }
    {
        let first = self.pointer(c)?;
        let more = self.more_pointers(c)?;
        Ok(all_of(self.alloc, first, more)?)
    }

    fn next_name(self, c: &mut Tokens<'_>) -> Result<Text, ParseFault>
        ensures { Reads (choices.next_behind e.name c.old) result c.new }
    {
        c.sign(Sign::Comma)?;
        c.name(self.alloc)
    }

    fn more_names(self, c: &mut Tokens<'_>) -> Result<Items<Text>, ParseFault>
        ensures { Reads (reading.many (choices.next_behind e.name) c.old) result c.new }
    {
        let mut found = Items::new(self.alloc);
        for _turn in 0..c.left() {
            let before = c.mark();
            match self.next_name(c) {
                Ok(item) => found.push(item)?,
                Err(ParseFault::Syntax(_)) => {
                    c.back(before);
                    return Ok(found);
                }
                Err(fault) => return Err(fault),
            }
        }
        Ok(found)
    }

    /// `name, ..`
    pub fn names(self, c: &mut Tokens<'_>) -> Result<Items<Text>, ParseFault>
        ensures { Reads (choices.listed e.name c.old) result c.new }
    {
        let first = c.name(self.alloc)?;
        let more = self.more_names(c)?;
        Ok(all_of(self.alloc, first, more)?)
    }

    fn perhaps_out(self, c: &mut Tokens<'_>) -> Result<Intent, ParseFault>
        ensures { Reads (reading.make r.intent_of (reading.optional (token.word' Word.Out)) c.old) result c.new }
    {
        let before = c.mark();
        match c.word(Word::Out) {
            Ok(()) => Ok(Intent::InOut),
            Err(ParseFault::Syntax(_)) => {
                c.back(before);
                Ok(Intent::In)
            }
            Err(fault) => Err(fault),
        }
    }

    #[tactic(auto, unfolding(crate::specs::Reader::intent))]
    fn intent(self, c: &mut Tokens<'_>) -> Result<Intent, ParseFault>
        ensures { Reads (r.intent c.old) result c.new }
    {
        if c.sees_word(Word::InOut) {
            c.word(Word::InOut)?;
            return Ok(Intent::InOut);
        }
        c.word(Word::In)?;
        self.perhaps_out(c)
    }

    fn intent_inside(self, c: &mut Tokens<'_>) -> Result<Intent, ParseFault>
        ensures { Reads (reading.inside (λ _. r.intent) self.depth c.old) result c.new }
    {
        if self.depth == 0 {
            return Err(ParseFault::Deep(c.line()));
        }
        self.intent(c)
    }

    fn intent_in(self, c: &mut Tokens<'_>) -> Result<Intent, ParseFault>
        ensures { Reads (token.in_parentheses (reading.inside (λ _. r.intent) self.depth) c.old) result c.new }
    {
        c.sign(Sign::LeftParenthesis)?;
        let intent = self.intent_inside(c)?;
        c.sign(Sign::RightParenthesis)?;
        Ok(intent)
    }

    fn kind_with(self, c: &mut Tokens<'_>, word: Word) -> Result<ValueKind, ParseFault>
        ensures { Reads (r.kind_with word c.old) result c.new }
    {
        let kind = c.kind()?;
        c.sign(Sign::Comma)?;
        c.word(word)?;
        Ok(kind)
    }

    #[tactic(auto, unfolding(crate::specs::Reader::parameters))]
    fn parameters(self, c: &mut Tokens<'_>) -> Result<Decl, ParseFault>
        ensures { Reads (r.parameters self.depth c.old) result c.new }
    {
        let line = c.first_line();
        let kind = self.kind_with(c, Word::Parameter)?;
        c.sign(Sign::DoubleColon)?;
        let values = self.values(c)?;
        c.end()?;
        Ok(Decl::Parameters { line, kind, values })
    }

    #[tactic(auto, unfolding(crate::specs::Reader::copointers))]
    fn copointers(self, c: &mut Tokens<'_>) -> Result<Decl, ParseFault>
        ensures { Reads (r.copointers self.depth c.old) result c.new }
    {
        let line = c.first_line();
        let kind = self.kind_with(c, Word::Copointer)?;
        c.sign(Sign::DoubleColon)?;
        let names = self.pointers(c)?;
        c.end()?;
        Ok(Decl::Copointers { line, kind, names })
    }

    #[tactic(auto, unfolding(crate::specs::Reader::dummies))]
    fn dummies(self, c: &mut Tokens<'_>) -> Result<Decl, ParseFault>
        ensures { Reads (r.dummies self.depth c.old) result c.new }
    {
        let line = c.first_line();
        let kind = self.kind_with(c, Word::Intent)?;
        let intent = self.intent_in(c)?;
        c.sign(Sign::DoubleColon)?;
        let names = self.names(c)?;
        c.end()?;
        Ok(Decl::Dummies {
            line,
            kind,
            intent,
            names,
        })
    }

    fn perhaps_colons(self, c: &mut Tokens<'_>) -> Result<(), ParseFault>
        ensures { Reads (choices.perhaps (token.sign' Sign.DoubleColon) c.old) result c.new }
    {
        let before = c.mark();
        match c.sign(Sign::DoubleColon) {
            Ok(()) => Ok(()),
            Err(ParseFault::Syntax(_)) => {
                c.back(before);
                Ok(())
            }
            Err(fault) => Err(fault),
        }
    }

    #[tactic(auto, unfolding(crate::specs::Reader::variables))]
    fn variables(self, c: &mut Tokens<'_>) -> Result<Decl, ParseFault>
        ensures { Reads (r.variables self.depth c.old) result c.new }
    {
        let line = c.first_line();
        let kind = c.kind()?;
        self.perhaps_colons(c)?;
        let items = self.items(c)?;
        c.end()?;
        Ok(Decl::Variables { line, kind, items })
    }

    #[tactic(auto, unfolding(crate::specs::Reader::events))]
    fn events(self, c: &mut Tokens<'_>) -> Result<Decl, ParseFault>
        ensures { Reads (r.events self.depth c.old) result c.new }
    {
        let line = c.first_line();
        c.word(Word::Event)?;
        c.sign(Sign::DoubleColon)?;
        let items = self.items(c)?;
        c.end()?;
        Ok(Decl::Events { line, items })
    }

    #[tactic(auto, unfolding(crate::specs::Reader::teams))]
    fn teams(self, c: &mut Tokens<'_>) -> Result<Decl, ParseFault>
        ensures { Reads (r.teams self.depth c.old) result c.new }
    {
        let line = c.first_line();
        c.word(Word::Team)?;
        c.sign(Sign::DoubleColon)?;
        let names = self.names(c)?;
        c.end()?;
        Ok(Decl::Teams { line, names })
    }

    #[tactic(auto, unfolding(crate::specs::Reader::attributed))]
    fn attributed(self, c: &mut Tokens<'_>) -> Result<Decl, ParseFault>
        ensures { Reads (r.attributed self.depth c.old) result c.new }
    {
        match c.third() {
            Some(What::Word(Word::Parameter)) => self.parameters(c),
            Some(What::Word(Word::Copointer)) => self.copointers(c),
            Some(What::Word(Word::Intent)) => self.dummies(c),
            _ => Err(ParseFault::Syntax(c.fault_line())),
        }
    }

    #[tactic(auto, unfolding(crate::specs::Reader::of_kind))]
    fn of_kind(self, c: &mut Tokens<'_>) -> Result<Decl, ParseFault>
        ensures { Reads (r.of_kind self.depth c.old) result c.new }
    {
        if second_is_sign(c, Sign::Comma) {
            return self.attributed(c);
        }
        self.variables(c)
    }

    #[tactic(auto, unfolding(crate::specs::Reader::declaration))]
    fn declaration(self, c: &mut Tokens<'_>) -> Result<Decl, ParseFault>
        ensures { Reads (r.declaration self.depth c.old) result c.new }
    {
        match c.next() {
            Some(What::Word(Word::Integer | Word::Logical)) => self.of_kind(c),
            Some(What::Word(Word::Event)) => self.events(c),
            Some(What::Word(Word::Team)) => self.teams(c),
            _ => Err(ParseFault::Syntax(c.fault_line())),
        }
    }

    /// Any number of declarations.
    pub fn declarations(self, c: &mut Tokens<'_>) -> Result<Items<Decl>, ParseFault>
        ensures { Reads (reading.many ((r.declaration self.depth)) c.old) result c.new }
    {
        let mut found = Items::new(self.alloc);
        for _turn in 0..c.left() {
            let before = c.mark();
            match self.declaration(c) {
                Ok(item) => found.push(item)?,
                Err(ParseFault::Syntax(_)) => {
                    c.back(before);
                    return Ok(found);
                }
                Err(fault) => return Err(fault),
            }
        }
        Ok(found)
    }
}
