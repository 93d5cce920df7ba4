//! Parts of statements, at a level of blocks, parentheses and brackets.

ghost use Rattle.std.specs.Prelude.{◌≡◌, ◌<◌, suc, ◌∷◌, IfOk};
ghost use Rattle.caf_tree.specs.Forms.{or_none};
ghost use Rattle.caf_tree.specs.Statements.{none_of, no_two, same_key as same_key_of, same_way as same_way_of};
ghost use Rattle.caf_exprparse.specs.Reader as e;
ghost use Rattle.caf_exprparse.specs.Reading as reading;
ghost use Rattle.caf_exprparse.specs.Reads.{Reads};
ghost use Rattle.caf_exprparse.specs.Told as token;
ghost use Rattle.caf_simpleparse.specs.Choices as choices;
ghost use Rattle.caf_simpleparse.specs.Reader as r;

use crate::beside::closed;
use caf_base::Text;
use caf_exprparse::grammar::{expression, place, subscript, variable};
use caf_exprparse::{ParseFault, Tokens};
use caf_lexer::{Sign, What, Word};
use caf_tree::expr::{Expr, Place, Team, Variable};
use caf_tree::stmt::{Fence, FenceClass, Key, OwnEvent, Printed, Range, Section};
use sqlite_items::{Boxed, Items};
use std::alloc::{AllocError, Global};

/// The readers of the parts of statements.
#[derive(Clone, Copy)]
pub struct Parts {
    pub alloc: Global,
    /// How many levels of blocks, parentheses and brackets may be opened.
    pub depth: u32,
}

impl Parts {
    /// The parts that stand within parentheses or brackets that are opened here.
    fn within(self) -> Parts
        requires { 0 < self.depth }
        ensures alloc { result.alloc ≡ self.alloc }
        ensures depth { self.depth ≡ suc result.depth }
    {
        Parts {
            alloc: self.alloc,
            depth: self.depth - 1,
        }
    }

    /// An expression.
    pub fn value(self, c: &mut Tokens<'_>) -> Result<Expr, ParseFault>
        ensures { Reads (e.expression self.depth c.old) result c.new }
    {
        expression(self.alloc, c, self.depth)
    }

    /// `[rank @ team]`
    pub fn place(self, c: &mut Tokens<'_>) -> Result<Place<Expr>, ParseFault>
        ensures { Reads (e.place (e.inner self.depth) c.old) result c.new }
    {
        place(self.alloc, c, self.depth)
    }

    /// `(expr)`
    pub fn condition(self, c: &mut Tokens<'_>) -> Result<Expr, ParseFault>
        ensures { Reads (e.subscript (e.inner self.depth) c.old) result c.new }
    {
        subscript(self.alloc, c, self.depth)
    }

    /// `name(subscript)[place]`
    #[tactic(auto, unfolding(crate::specs::Reader::event))]
    pub fn event(self, c: &mut Tokens<'_>) -> Result<Variable<Boxed<Expr>>, ParseFault>
        ensures { Reads (r.event self.depth c.old) result c.new }
    {
        variable(self.alloc, c, self.depth)
    }

    fn perhaps_value(self, c: &mut Tokens<'_>) -> Result<Option<Expr>, ParseFault>
        ensures { Reads (reading.optional (e.expression self.depth) c.old) result c.new }
    {
        let before = c.mark();
        match self.value(c) {
            Ok(item) => Ok(Some(item)),
            Err(ParseFault::Syntax(_)) => {
                c.back(before);
                Ok(None)
            }
            Err(fault) => Err(fault),
        }
    }

    fn range_end(self, c: &mut Tokens<'_>) -> Result<Option<Expr>, ParseFault>
        ensures { Reads (r.range_end self.depth c.old) result c.new }
    {
        c.sign(Sign::Colon)?;
        self.perhaps_value(c)
    }

    pub fn perhaps_range_end(self, c: &mut Tokens<'_>) -> Result<Option<Option<Expr>>, ParseFault>
        ensures { Reads (reading.optional (r.range_end self.depth) c.old) result c.new }
    {
        let before = c.mark();
        match self.range_end(c) {
            Ok(item) => Ok(Some(item)),
            Err(ParseFault::Syntax(_)) => {
                c.back(before);
                Ok(None)
            }
            Err(fault) => Err(fault),
        }
    }

    #[tactic(auto, unfolding(crate::specs::Reader::range))]
    fn range(self, c: &mut Tokens<'_>) -> Result<Range, ParseFault>
        ensures { Reads (r.range self.depth c.old) result c.new }
    {
        if c.sees_sign(Sign::Colon) {
            return Ok(Range::Between(None, self.range_end(c)?));
        }
        let first = self.value(c)?;
        match self.beside_range_end(first, c)? {
            (first, None) => Ok(Range::Element(first)),
            (first, Some(last)) => Ok(Range::Between(Some(first), last)),
        }
    }

    fn range_inside(self, c: &mut Tokens<'_>) -> Result<Range, ParseFault>
        ensures { Reads (reading.inside r.range self.depth c.old) result c.new }
    {
        if self.depth == 0 {
            return Err(ParseFault::Deep(c.line()));
        }
        self.within().range(c)
    }

    fn range_in(self, c: &mut Tokens<'_>) -> Result<Range, ParseFault>
        ensures { Reads (token.in_parentheses (reading.inside r.range self.depth) c.old) result c.new }
    {
        c.sign(Sign::LeftParenthesis)?;
        let range = self.range_inside(c)?;
        closed(range, c)
    }

    pub fn perhaps_range(self, c: &mut Tokens<'_>) -> Result<Option<Range>, ParseFault>
        ensures { Reads (reading.optional (token.in_parentheses (reading.inside r.range self.depth)) c.old) result c.new }
    {
        let before = c.mark();
        match self.range_in(c) {
            Ok(item) => Ok(Some(item)),
            Err(ParseFault::Syntax(_)) => {
                c.back(before);
                Ok(None)
            }
            Err(fault) => Err(fault),
        }
    }

    pub fn perhaps_place(self, c: &mut Tokens<'_>) -> Result<Option<Place<Expr>>, ParseFault>
        ensures { Reads (reading.optional (e.place (e.inner self.depth)) c.old) result c.new }
    {
        let before = c.mark();
        match self.place(c) {
            Ok(item) => Ok(Some(item)),
            Err(ParseFault::Syntax(_)) => {
                c.back(before);
                Ok(None)
            }
            Err(fault) => Err(fault),
        }
    }

    fn perhaps_subscript(self, c: &mut Tokens<'_>) -> Result<Option<Expr>, ParseFault>
        ensures { Reads (reading.optional (e.subscript (e.inner self.depth)) c.old) result c.new }
    {
        let before = c.mark();
        match self.condition(c) {
            Ok(item) => Ok(Some(item)),
            Err(ParseFault::Syntax(_)) => {
                c.back(before);
                Ok(None)
            }
            Err(fault) => Err(fault),
        }
    }

    /// `name(range)[place]`
    #[tactic(auto, unfolding(crate::specs::Reader::section))]
    pub fn section(self, c: &mut Tokens<'_>) -> Result<Section, ParseFault>
        ensures { Reads (r.section self.depth c.old) result c.new }
    {
        let name = c.name(self.alloc)?;
        let ranged = self.beside_range(name, c)?;
        let ((name, range), place) = self.beside_perhaps_place(ranged, c)?;
        let range = match range {
            None => Range::Whole,
            Some(range) => range,
        };
        Ok(Section { name, range, place })
    }

    #[tactic(auto, unfolding(crate::specs::Reader::own))]
    fn own_event(self, c: &mut Tokens<'_>) -> Result<OwnEvent, ParseFault>
        ensures { Reads (r.own self.depth c.old) result c.new }
    {
        let name = c.name(self.alloc)?;
        let subscript = self.perhaps_subscript(c)?;
        Ok(OwnEvent { name, subscript })
    }

    pub fn next_section(self, c: &mut Tokens<'_>) -> Result<Section, ParseFault>
        ensures { Reads (choices.next_behind (r.section self.depth) c.old) result c.new }
    {
        c.sign(Sign::Comma)?;
        self.section(c)
    }

    /// An expression behind a comma.
    pub fn next_value(self, c: &mut Tokens<'_>) -> Result<Expr, ParseFault>
        ensures { Reads (choices.next_behind (e.expression self.depth) c.old) result c.new }
    {
        c.sign(Sign::Comma)?;
        self.value(c)
    }

    fn more_values(self, c: &mut Tokens<'_>) -> Result<Items<Expr>, ParseFault>
        ensures { Reads (reading.many (choices.next_behind (e.expression self.depth)) c.old) result c.new }
    {
        let mut found = Items::new(self.alloc);
        for _turn in 0..c.left() {
            let before = c.mark();
            match self.next_value(c) {
                Ok(item) => found.push(item)?,
                Err(ParseFault::Syntax(_)) => {
                    c.back(before);
                    return Ok(found);
                }
                Err(fault) => return Err(fault),
            }
        }
        Ok(found)
    }

    fn arguments(self, c: &mut Tokens<'_>) -> Result<Items<Expr>, ParseFault>
        ensures { Reads (r.arguments self.depth c.old) result c.new }
    {
        let first = self.value(c)?;
        let more = self.more_values(c)?;
        Ok(all_of(self.alloc, first, more)?)
    }

    fn arguments_inside(self, c: &mut Tokens<'_>) -> Result<Items<Expr>, ParseFault>
        ensures { Reads (reading.inside r.arguments self.depth c.old) result c.new }
    {
        if self.depth == 0 {
            return Err(ParseFault::Deep(c.line()));
        }
        self.within().arguments(c)
    }

    /// `(expr, ..)`, or parentheses around nothing.
    #[tactic(auto, unfolding(crate::specs::Choices::list_in))]
    pub fn argument_list(self, c: &mut Tokens<'_>) -> Result<Items<Expr>, ParseFault>
        ensures { Reads (choices.list_in r.arguments self.depth c.old) result c.new }
    {
        c.sign(Sign::LeftParenthesis)?;
        if c.sees_sign(Sign::RightParenthesis) {
            c.sign(Sign::RightParenthesis)?;
            return Ok(Items::new(self.alloc));
        }
        let arguments = self.arguments_inside(c)?;
        closed(arguments, c)
    }

    /// A list within parentheses, or nothing.
    pub fn perhaps_arguments(self, c: &mut Tokens<'_>) -> Result<Items<Expr>, ParseFault>
        ensures { Reads (choices.perhaps_list r.arguments self.depth c.old) result c.new }
    {
        let before = c.mark();
        match self.argument_list(c) {
            Ok(item) => Ok(item),
            Err(ParseFault::Syntax(_)) => {
                c.back(before);
                Ok(Items::new(self.alloc))
            }
            Err(fault) => Err(fault),
        }
    }

    fn pre_key(self, c: &mut Tokens<'_>) -> Result<Key, ParseFault>
        ensures { Reads (r.key_by self.depth (What.Word Word.Pre) c.old) result c.new }
    {
        c.word(Word::Pre)?;
        c.sign(Sign::Assign)?;
        Ok(Key::Pre(self.own_event(c)?))
    }

    fn srce_key(self, c: &mut Tokens<'_>) -> Result<Key, ParseFault>
        ensures { Reads (r.key_by self.depth (What.Word Word.Srce) c.old) result c.new }
    {
        c.word(Word::Srce)?;
        c.sign(Sign::Assign)?;
        Ok(Key::Srce(self.event(c)?))
    }

    fn deste_key(self, c: &mut Tokens<'_>) -> Result<Key, ParseFault>
        ensures { Reads (r.key_by self.depth (What.Word Word.Deste) c.old) result c.new }
    {
        c.word(Word::Deste)?;
        c.sign(Sign::Assign)?;
        Ok(Key::Deste(self.event(c)?))
    }

    #[tactic(auto, unfolding(crate::specs::Reader::key))]
    fn key(self, c: &mut Tokens<'_>) -> Result<Key, ParseFault>
        ensures { Reads (r.key self.depth c.old) result c.new }
    {
        match c.next() {
            Some(What::Word(Word::Pre)) => self.pre_key(c),
            Some(What::Word(Word::Srce)) => self.srce_key(c),
            Some(What::Word(Word::Deste)) => self.deste_key(c),
            _ => Err(ParseFault::Syntax(c.fault_line())),
        }
    }

    fn next_key(self, c: &mut Tokens<'_>) -> Result<Key, ParseFault>
        ensures { Reads (choices.next_behind (r.key self.depth) c.old) result c.new }
    {
        c.sign(Sign::Comma)?;
        self.key(c)
    }

    pub fn more_keys(self, c: &mut Tokens<'_>) -> Result<Items<Key>, ParseFault>
        ensures { Reads (reading.many (choices.next_behind (r.key self.depth)) c.old) result c.new }
    {
        let mut found = Items::new(self.alloc);
        for _turn in 0..c.left() {
            let before = c.mark();
            match self.next_key(c) {
                Ok(item) => found.push(item)?,
                Err(ParseFault::Syntax(_)) => {
                    c.back(before);
                    return Ok(found);
                }
                Err(fault) => return Err(fault),
            }
        }
        Ok(found)
    }

    fn sections(self, c: &mut Tokens<'_>) -> Result<(Section, Section), ParseFault>
        ensures { Reads (reading.both (r.section self.depth) (choices.next_behind (r.section self.depth)) c.old) result c.new }
    {
        let destination = self.section(c)?;
        self.beside_next_section(destination, c)
    }

    #[tactic(auto, unfolding(crate::specs::Reader::copy_in))]
    fn copied(self, c: &mut Tokens<'_>) -> Result<((Section, Section), Items<Key>), ParseFault>
        ensures { Reads (r.copy_in self.depth c.old) result c.new }
    {
        let sections = self.sections(c)?;
        self.beside_keys(sections, c)
    }

    #[tactic(auto, unfolding(crate::specs::Reader::split_in))]
    fn split(self, c: &mut Tokens<'_>) -> Result<(((Team, Expr), Expr), Text), ParseFault>
        ensures { Reads (r.split_in self.depth c.old) result c.new }
    {
        let team = c.team(self.alloc)?;
        let coloured = self.beside_next_value(team, c)?;
        let keyed = self.beside_next_value(coloured, c)?;
        self.beside_next_name(keyed, c)
    }

    fn event_inside(self, c: &mut Tokens<'_>) -> Result<Variable<Boxed<Expr>>, ParseFault>
        ensures { Reads (reading.inside r.event self.depth c.old) result c.new }
    {
        if self.depth == 0 {
            return Err(ParseFault::Deep(c.line()));
        }
        self.within().event(c)
    }

    fn own_event_inside(self, c: &mut Tokens<'_>) -> Result<OwnEvent, ParseFault>
        ensures { Reads (reading.inside r.own self.depth c.old) result c.new }
    {
        if self.depth == 0 {
            return Err(ParseFault::Deep(c.line()));
        }
        self.within().own_event(c)
    }

    pub fn copied_inside(
        self,
        c: &mut Tokens<'_>,
    ) -> Result<((Section, Section), Items<Key>), ParseFault>
        ensures { Reads (reading.inside r.copy_in self.depth c.old) result c.new }
    {
        if self.depth == 0 {
            return Err(ParseFault::Deep(c.line()));
        }
        self.within().copied(c)
    }

    pub fn split_inside(
        self,
        c: &mut Tokens<'_>,
    ) -> Result<(((Team, Expr), Expr), Text), ParseFault>
        ensures { Reads (reading.inside r.split_in self.depth c.old) result c.new }
    {
        if self.depth == 0 {
            return Err(ParseFault::Deep(c.line()));
        }
        self.within().split(c)
    }

    /// `(event)`
    pub fn event_in(self, c: &mut Tokens<'_>) -> Result<Variable<Boxed<Expr>>, ParseFault>
        ensures { Reads (token.in_parentheses (reading.inside r.event self.depth) c.old) result c.new }
    {
        c.sign(Sign::LeftParenthesis)?;
        let event = self.event_inside(c)?;
        closed(event, c)
    }

    /// `(event)`, of this image.
    pub fn own_event_in(self, c: &mut Tokens<'_>) -> Result<OwnEvent, ParseFault>
        ensures { Reads (token.in_parentheses (reading.inside r.own self.depth) c.old) result c.new }
    {
        c.sign(Sign::LeftParenthesis)?;
        let event = self.own_event_inside(c)?;
        closed(event, c)
    }

    /// `(event)` or nothing.
    pub fn perhaps_event(
        self,
        c: &mut Tokens<'_>,
    ) -> Result<Option<Variable<Boxed<Expr>>>, ParseFault>
        ensures { Reads (reading.optional (token.in_parentheses (reading.inside r.event self.depth)) c.old) result c.new }
    {
        let before = c.mark();
        match self.event_in(c) {
            Ok(item) => Ok(Some(item)),
            Err(ParseFault::Syntax(_)) => {
                c.back(before);
                Ok(None)
            }
            Err(fault) => Err(fault),
        }
    }

    fn fence_behind(self, c: &mut Tokens<'_>) -> Result<FenceClass, ParseFault>
        ensures { Reads (r.fence_class c.old) result c.new }
    {
        c.sign(Sign::Assign)?;
        c.fence_class()
    }

    #[tactic(auto, unfolding(crate::specs::Reader::fence))]
    fn fence(self, c: &mut Tokens<'_>) -> Result<Fence, ParseFault>
        ensures { Reads (r.fence c.old) result c.new }
    {
        if c.sees_name("down") {
            c.named("down")?;
            return Ok(Fence::Down(self.fence_behind(c)?));
        }
        c.named("up")?;
        Ok(Fence::Up(self.fence_behind(c)?))
    }

    fn next_fence(self, c: &mut Tokens<'_>) -> Result<Fence, ParseFault>
        ensures { Reads (choices.next_behind r.fence c.old) result c.new }
    {
        c.sign(Sign::Comma)?;
        self.fence(c)
    }

    fn more_fences(self, c: &mut Tokens<'_>) -> Result<Items<Fence>, ParseFault>
        ensures { Reads (reading.many (choices.next_behind r.fence) c.old) result c.new }
    {
        let mut found = Items::new(self.alloc);
        for _turn in 0..c.left() {
            let before = c.mark();
            match self.next_fence(c) {
                Ok(item) => found.push(item)?,
                Err(ParseFault::Syntax(_)) => {
                    c.back(before);
                    return Ok(found);
                }
                Err(fault) => return Err(fault),
            }
        }
        Ok(found)
    }

    fn fences(self, c: &mut Tokens<'_>) -> Result<Items<Fence>, ParseFault>
        ensures { Reads (r.fences self.depth c.old) result c.new }
    {
        let first = self.fence(c)?;
        let more = self.more_fences(c)?;
        Ok(all_of(self.alloc, first, more)?)
    }

    fn fences_inside(self, c: &mut Tokens<'_>) -> Result<Items<Fence>, ParseFault>
        ensures { Reads (reading.inside r.fences self.depth c.old) result c.new }
    {
        if self.depth == 0 {
            return Err(ParseFault::Deep(c.line()));
        }
        self.within().fences(c)
    }

    #[tactic(auto, unfolding(crate::specs::Choices::list_in))]
    fn fence_list(self, c: &mut Tokens<'_>) -> Result<Items<Fence>, ParseFault>
        ensures { Reads (choices.list_in r.fences self.depth c.old) result c.new }
    {
        c.sign(Sign::LeftParenthesis)?;
        if c.sees_sign(Sign::RightParenthesis) {
            c.sign(Sign::RightParenthesis)?;
            return Ok(Items::new(self.alloc));
        }
        let fences = self.fences_inside(c)?;
        closed(fences, c)
    }

    fn fences_once(self, c: &mut Tokens<'_>) -> Result<Items<Fence>, ParseFault>
        ensures { Reads (r.fences_once self.depth c.old) result c.new }
    {
        let fences = self.fence_list(c)?;
        if !each_way_once(fences.as_slice()) {
            return Err(ParseFault::Syntax(c.fault_line()));
        }
        Ok(fences)
    }

    /// `(down=.., up=..)` with each at most once, or nothing.
    pub fn perhaps_fences(self, c: &mut Tokens<'_>) -> Result<Items<Fence>, ParseFault>
        ensures { Reads (reading.make or_none (reading.optional (r.fences_once self.depth)) c.old) result c.new }
    {
        let before = c.mark();
        match self.fences_once(c) {
            Ok(item) => Ok(item),
            Err(ParseFault::Syntax(_)) => {
                c.back(before);
                Ok(Items::new(self.alloc))
            }
            Err(fault) => Err(fault),
        }
    }

    #[tactic(auto, unfolding(crate::specs::Reader::printed))]
    fn printed(self, c: &mut Tokens<'_>) -> Result<Printed, ParseFault>
        ensures { Reads (r.printed self.depth c.old) result c.new }
    {
        if c.sees_text() {
            return Ok(Printed::Text(c.text(self.alloc)?));
        }
        Ok(Printed::Value(self.value(c)?))
    }

    fn next_printed(self, c: &mut Tokens<'_>) -> Result<Printed, ParseFault>
        ensures { Reads (choices.next_behind (r.printed self.depth) c.old) result c.new }
    {
        c.sign(Sign::Comma)?;
        self.printed(c)
    }

    /// Any number of printed items, each behind a comma.
    pub fn more_printed(self, c: &mut Tokens<'_>) -> Result<Items<Printed>, ParseFault>
        ensures { Reads (reading.many (choices.next_behind (r.printed self.depth)) c.old) result c.new }
    {
        let mut found = Items::new(self.alloc);
        for _turn in 0..c.left() {
            let before = c.mark();
            match self.next_printed(c) {
                Ok(item) => found.push(item)?,
                Err(ParseFault::Syntax(_)) => {
                    c.back(before);
                    return Ok(found);
                }
                Err(fault) => return Err(fault),
            }
        }
        Ok(found)
    }
}

/// One, and those that follow it.
pub fn all_of<T: Drop>(alloc: Global, first: T, more: Items<T>) -> Result<Items<T>, AllocError>
    ensures { IfOk result (λ all. all ≡ first ∷ more) }
{
    let mut all = Items::new(alloc);
    all.push(first)?;
    all.append(more)?;
    Ok(all)
}

fn same_key(a: &Key, b: &Key) -> bool
    ensures { result ≡ same_key_of a.now b.now }
{
    match (a, b) {
        (Key::Pre(_), Key::Pre(_)) => true,
        (Key::Srce(_), Key::Srce(_)) => true,
        (Key::Deste(_), Key::Deste(_)) => true,
        _ => false,
    }
}

fn same_way(a: &Fence, b: &Fence) -> bool
    ensures { result ≡ same_way_of a.now b.now }
{
    match (a, b) {
        (Fence::Down(_), Fence::Down(_)) => true,
        (Fence::Up(_), Fence::Up(_)) => true,
        _ => false,
    }
}

/// Whether no other is of the kind of this key.
fn lacks_key(key: &Key, others: &[Key]) -> bool
    ensures { result ≡ none_of (same_key_of key.now) others.now }
{
    let mut left = others;
    while let Some((other, rest)) = left.split_first() {
        if same_key(key, other) {
            return false;
        }
        left = rest;
    }
    true
}

/// Whether no other goes the way of this fence.
fn lacks_way(fence: &Fence, others: &[Fence]) -> bool
    ensures { result ≡ none_of (same_way_of fence.now) others.now }
{
    let mut left = others;
    while let Some((other, rest)) = left.split_first() {
        if same_way(fence, other) {
            return false;
        }
        left = rest;
    }
    true
}

/// Whether no key stands twice.
pub fn each_key_once(keys: &[Key]) -> bool
    ensures { result ≡ no_two same_key_of keys.now }
{
    let mut left = keys;
    while let Some((key, rest)) = left.split_first() {
        if !lacks_key(key, rest) {
            return false;
        }
        left = rest;
    }
    true
}

fn each_way_once(fences: &[Fence]) -> bool
    ensures { result ≡ no_two same_way_of fences.now }
{
    let mut left = fences;
    while let Some((fence, rest)) = left.split_first() {
        if !lacks_way(fence, rest) {
            return false;
        }
        left = rest;
    }
    true
}
