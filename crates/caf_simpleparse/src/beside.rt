//! What is read beside an item that stands already: it comes back with the item, or the item is given up.

ghost use Rattle.caf_lexer.specs.declared.token.Sign.TheVariants as sign;
ghost use Rattle.caf_tree.specs.Statements.{no_two, same_key as same_key_of};
ghost use Rattle.caf_exprparse.specs.Reader as e;
ghost use Rattle.caf_exprparse.specs.Reading as reading;
ghost use Rattle.caf_exprparse.specs.Reads.{Reads};
ghost use Rattle.caf_exprparse.specs.Told as token;
ghost use Rattle.caf_simpleparse.specs.Choices as choices;
ghost use Rattle.caf_simpleparse.specs.Reader as r;

use crate::parts::{Parts, each_key_once};
use caf_base::Text;
use caf_exprparse::{ParseFault, Tokens};
use caf_lexer::Sign;
use caf_tree::expr::{Expr, Place};
use caf_tree::stmt::{Key, Range, Section};
use sqlite_items::Items;

/// The item, where its right parenthesis follows.
pub fn closed<T: Drop>(item: T, c: &mut Tokens<'_>) -> Result<T, ParseFault>
    ensures { Reads (reading.make (λ _. item) (token.sign' sign.RightParenthesis) c.old) result c.new }
{
    c.sign(Sign::RightParenthesis)?;
    Ok(item)
}

/// What is given with keys, where no two of them are the same.
pub fn with_keys_once<T: Drop>(
    given: (T, Items<Key>),
    c: &mut Tokens<'_>,
) -> Result<(T, Items<Key>), ParseFault>
    ensures { Reads (choices.kept (no_two same_key_of given.1) given c.old) result c.new }
{
    if !each_key_once(given.1.as_slice()) {
        return Err(ParseFault::Syntax(c.fault_line()));
    }
    Ok(given)
}

impl Parts {
    pub fn beside_name<T: Drop>(self, item: T, c: &mut Tokens<'_>) -> Result<(T, Text), ParseFault>
        ensures { Reads (reading.make (λ name. (item, name)) e.name c.old) result c.new }
    {
        let name = c.name(self.alloc)?;
        Ok((item, name))
    }

    pub fn beside_next_name<T: Drop>(
        self,
        item: T,
        c: &mut Tokens<'_>,
    ) -> Result<(T, Text), ParseFault>
        ensures { Reads (reading.make (λ name. (item, name)) (choices.next_behind e.name) c.old) result c.new }
    {
        c.sign(Sign::Comma)?;
        let name = c.name(self.alloc)?;
        Ok((item, name))
    }

    pub fn beside_next_value<T: Drop>(
        self,
        item: T,
        c: &mut Tokens<'_>,
    ) -> Result<(T, Expr), ParseFault>
        ensures { Reads (reading.make (λ value. (item, value)) (choices.next_behind (e.expression self.depth)) c.old) result c.new }
    {
        let value = self.next_value(c)?;
        Ok((item, value))
    }

    pub fn beside_range_end<T: Drop>(
        self,
        item: T,
        c: &mut Tokens<'_>,
    ) -> Result<(T, Option<Option<Expr>>), ParseFault>
        ensures { Reads (reading.make (λ end. (item, end)) (reading.optional (r.range_end self.depth)) c.old) result c.new }
    {
        let end = self.perhaps_range_end(c)?;
        Ok((item, end))
    }

    pub fn beside_range<T: Drop>(
        self,
        item: T,
        c: &mut Tokens<'_>,
    ) -> Result<(T, Option<Range>), ParseFault>
        ensures { Reads (reading.make (λ range. (item, range)) (reading.optional (token.in_parentheses (reading.inside r.range self.depth))) c.old) result c.new }
    {
        let range = self.perhaps_range(c)?;
        Ok((item, range))
    }

    pub fn beside_perhaps_place<T: Drop>(
        self,
        item: T,
        c: &mut Tokens<'_>,
    ) -> Result<(T, Option<Place<Expr>>), ParseFault>
        ensures { Reads (reading.make (λ place. (item, place)) (reading.optional (e.place (e.inner self.depth))) c.old) result c.new }
    {
        let place = self.perhaps_place(c)?;
        Ok((item, place))
    }

    pub fn beside_place<T: Drop>(
        self,
        item: T,
        c: &mut Tokens<'_>,
    ) -> Result<(T, Place<Expr>), ParseFault>
        ensures { Reads (reading.make (λ place. (item, place)) (e.place (e.inner self.depth)) c.old) result c.new }
    {
        let place = self.place(c)?;
        Ok((item, place))
    }

    pub fn beside_next_section<T: Drop>(
        self,
        item: T,
        c: &mut Tokens<'_>,
    ) -> Result<(T, Section), ParseFault>
        ensures { Reads (reading.make (λ section. (item, section)) (choices.next_behind (r.section self.depth)) c.old) result c.new }
    {
        let section = self.next_section(c)?;
        Ok((item, section))
    }

    pub fn beside_arguments<T: Drop>(
        self,
        item: T,
        c: &mut Tokens<'_>,
    ) -> Result<(T, Items<Expr>), ParseFault>
        ensures { Reads (reading.make (λ arguments. (item, arguments)) (choices.list_in r.arguments self.depth) c.old) result c.new }
    {
        let arguments = self.argument_list(c)?;
        Ok((item, arguments))
    }

    pub fn beside_keys<T: Drop>(
        self,
        item: T,
        c: &mut Tokens<'_>,
    ) -> Result<(T, Items<Key>), ParseFault>
        ensures { Reads (reading.make (λ keys. (item, keys)) (reading.many (choices.next_behind (r.key self.depth))) c.old) result c.new }
    {
        let keys = self.more_keys(c)?;
        Ok((item, keys))
    }
}
