//! The rules of expressions. They take the reader of what stands within parentheses and brackets as a parameter, so
//! that each is proved by itself.

ghost use Rattle.std.specs.Prelude.{◌≡◌, IfOk};
ghost use Rattle.caf_tree.specs.Expressions.{or_world, chain_of as chain};
ghost use Rattle.caf_tree.specs.declared.expr.Expr.TheVariants as e;
ghost use Rattle.caf_exprparse.specs.Nests.{Nests};
ghost use Rattle.caf_exprparse.specs.Reader as r;
ghost use Rattle.caf_exprparse.specs.Reading as reading;
ghost use Rattle.caf_exprparse.specs.Reads.{Reads};
ghost use Rattle.caf_exprparse.specs.Told as token;

use crate::fault::ParseFault;
use crate::tokens::Tokens;
use caf_lexer::{Sign, What, Word};
use caf_tree::expr::{Expr, Level, Operator, Place, Relation, Team, Variable};
use sqlite_items::{Boxed, Items};
use std::alloc::{AllocError, Global};

/// The rules of one level of parentheses and brackets.
#[derive(Clone, Copy)]
pub struct Rules<F> {
    pub alloc: Global,
    /// How many levels of parentheses and brackets may be opened.
    pub depth: u32,
    /// Reads an expression within parentheses or brackets, of which so many levels may stand open there.
    pub inner: F,
}

impl<F: Fn(Global, &mut Tokens<'_>, u32) -> Result<Expr, ParseFault>> Rules<F> {
    fn inner(&self, c: &mut Tokens<'_>) -> Result<Expr, ParseFault>
        requires { Nests self.now.depth (F.pre self.now.inner) (F.post self.now.inner) }
        ensures { Reads (r.inner self.now.depth c.old) result c.new }
    {
        (self.inner)(self.alloc, c, self.depth)
    }

    /// `(expr)`
    #[tactic(auto, unfolding(crate::specs::Reader::subscript))]
    pub fn subscript(&self, c: &mut Tokens<'_>) -> Result<Expr, ParseFault>
        requires { Nests self.now.depth (F.pre self.now.inner) (F.post self.now.inner) }
        ensures { Reads (r.subscript (r.inner self.now.depth) c.old) result c.new }
    {
        c.sign(Sign::LeftParenthesis)?;
        let index = self.inner(c)?;
        c.sign(Sign::RightParenthesis)?;
        Ok(index)
    }

    fn perhaps_subscript(&self, c: &mut Tokens<'_>) -> Result<Option<Boxed<Expr>>, ParseFault>
        requires { Nests self.now.depth (F.pre self.now.inner) (F.post self.now.inner) }
        ensures { Reads (reading.optional (r.subscript (r.inner self.now.depth)) c.old) result c.new }
    {
        let before = c.mark();
        match self.subscript(c) {
            Ok(item) => Ok(Some(Boxed::new(self.alloc, item)?)),
            Err(ParseFault::Syntax(_)) => {
                c.back(before);
                Ok(None)
            }
            Err(fault) => Err(fault),
        }
    }

    fn at_team(&self, c: &mut Tokens<'_>) -> Result<Team, ParseFault>
        ensures { Reads (r.at_team c.old) result c.new }
    {
        c.sign(Sign::At)?;
        c.team(self.alloc)
    }

    fn perhaps_at_team(&self, c: &mut Tokens<'_>) -> Result<Team, ParseFault>
        ensures { Reads (reading.make or_world (reading.optional r.at_team) c.old) result c.new }
    {
        let before = c.mark();
        match self.at_team(c) {
            Ok(item) => Ok(item),
            Err(ParseFault::Syntax(_)) => {
                c.back(before);
                Ok(Team::World)
            }
            Err(fault) => Err(fault),
        }
    }

    fn perhaps_team(&self, c: &mut Tokens<'_>) -> Result<Team, ParseFault>
        ensures { Reads (r.perhaps_team c.old) result c.new }
    {
        let before = c.mark();
        match c.team(self.alloc) {
            Ok(item) => Ok(item),
            Err(ParseFault::Syntax(_)) => {
                c.back(before);
                Ok(Team::World)
            }
            Err(fault) => Err(fault),
        }
    }

    fn team_inside(&self, c: &mut Tokens<'_>) -> Result<Team, ParseFault>
        ensures { Reads (reading.inside (λ _. r.perhaps_team) self.now.depth c.old) result c.new }
    {
        if self.depth == 0 {
            return Err(ParseFault::Deep(c.line()));
        }
        self.perhaps_team(c)
    }

    #[tactic(auto, unfolding(crate::specs::Reader::team_in))]
    fn team_in(&self, c: &mut Tokens<'_>) -> Result<Team, ParseFault>
        ensures { Reads (r.team_in (r.inner self.now.depth) self.now.depth c.old) result c.new }
    {
        c.sign(Sign::LeftParenthesis)?;
        let team = self.team_inside(c)?;
        c.sign(Sign::RightParenthesis)?;
        Ok(team)
    }

    /// `[rank @ team]`, where the team may be missing.
    #[tactic(auto, unfolding(crate::specs::Reader::place))]
    pub fn place(&self, c: &mut Tokens<'_>) -> Result<Place<Expr>, ParseFault>
        requires { Nests self.now.depth (F.pre self.now.inner) (F.post self.now.inner) }
        ensures { Reads (r.place (r.inner self.now.depth) c.old) result c.new }
    {
        c.sign(Sign::LeftBracket)?;
        let rank = self.inner(c)?;
        let team = self.perhaps_at_team(c)?;
        c.sign(Sign::RightBracket)?;
        Ok(Place { rank, team })
    }

    fn perhaps_place(&self, c: &mut Tokens<'_>) -> Result<Option<Place<Boxed<Expr>>>, ParseFault>
        requires { Nests self.now.depth (F.pre self.now.inner) (F.post self.now.inner) }
        ensures { Reads (reading.optional (r.place (r.inner self.now.depth)) c.old) result c.new }
    {
        let before = c.mark();
        match self.place(c) {
            Ok(Place { rank, team }) => {
                let rank = Boxed::new(self.alloc, rank)?;
                Ok(Some(Place { rank, team }))
            }
            Err(ParseFault::Syntax(_)) => {
                c.back(before);
                Ok(None)
            }
            Err(fault) => Err(fault),
        }
    }

    /// `name(subscript)[place]`, where subscript and place may be missing.
    #[tactic(auto, unfolding(crate::specs::Reader::variable))]
    pub fn variable(&self, c: &mut Tokens<'_>) -> Result<Variable<Boxed<Expr>>, ParseFault>
        requires { Nests self.now.depth (F.pre self.now.inner) (F.post self.now.inner) }
        ensures { Reads (r.variable (r.inner self.now.depth) c.old) result c.new }
    {
        let name = c.name(self.alloc)?;
        let subscript = self.perhaps_subscript(c)?;
        let place = self.perhaps_place(c)?;
        Ok(Variable {
            name,
            subscript,
            place,
        })
    }

    fn next_one(&self, c: &mut Tokens<'_>) -> Result<Expr, ParseFault>
        requires { Nests self.now.depth (F.pre self.now.inner) (F.post self.now.inner) }
        ensures { Reads (r.next_one (r.inner self.now.depth) c.old) result c.new }
    {
        c.sign(Sign::Comma)?;
        self.inner(c)
    }

    fn others(&self, c: &mut Tokens<'_>) -> Result<Items<Expr>, ParseFault>
        requires { Nests self.now.depth (F.pre self.now.inner) (F.post self.now.inner) }
        ensures { Reads (reading.many (r.next_one (r.inner self.now.depth)) c.old) result c.new }
    {
        let mut found = Items::new(self.alloc);
        for _turn in 0..c.left() {
            let before = c.mark();
            match self.next_one(c) {
                Ok(item) => found.push(item)?,
                Err(ParseFault::Syntax(_)) => {
                    c.back(before);
                    return Ok(found);
                }
                Err(fault) => return Err(fault),
            }
        }
        Ok(found)
    }

    #[tactic(auto, unfolding(crate::specs::Reader::two))]
    fn two(&self, c: &mut Tokens<'_>) -> Result<(Expr, Expr), ParseFault>
        requires { Nests self.now.depth (F.pre self.now.inner) (F.post self.now.inner) }
        ensures { Reads (r.two (r.inner self.now.depth) c.old) result c.new }
    {
        let first = self.inner(c)?;
        let second = self.next_one(c)?;
        Ok((first, second))
    }

    #[tactic(auto, unfolding(crate::specs::Reader::two_or_more))]
    fn two_or_more(&self, c: &mut Tokens<'_>) -> Result<(Expr, Expr, Items<Expr>), ParseFault>
        requires { Nests self.now.depth (F.pre self.now.inner) (F.post self.now.inner) }
        ensures { Reads (reading.make (λ p. (p.0.0, p.0.1, p.1)) (r.two_or_more (r.inner self.now.depth)) c.old) result c.new }
    {
        let (first, second) = self.two(c)?;
        let others = self.others(c)?;
        Ok((first, second, others))
    }

    #[tactic(auto, unfolding(crate::specs::Reader::prim))]
    fn prim(&self, c: &mut Tokens<'_>) -> Result<Expr, ParseFault>
        requires { Nests self.now.depth (F.pre self.now.inner) (F.post self.now.inner) }
        ensures { Reads (r.prim (r.inner self.now.depth) self.now.depth c.old) result c.new }
    {
        match c.next() {
            Some(What::Number(_)) => Ok(Expr::Number(c.number()?)),
            Some(What::Name(_)) => Ok(Expr::Variable(self.variable(c)?)),
            Some(What::Sign(Sign::True | Sign::False)) => Ok(Expr::Truth(c.truth()?)),
            Some(What::Sign(Sign::LeftParenthesis)) => self.parenthesized(c),
            Some(What::Word(word)) => self.call(c, *word),
            _ => Err(ParseFault::Syntax(c.fault_line())),
        }
    }

    fn parenthesized(&self, c: &mut Tokens<'_>) -> Result<Expr, ParseFault>
        requires { Nests self.now.depth (F.pre self.now.inner) (F.post self.now.inner) }
        ensures { Reads (reading.make e.Parenthesized (r.subscript (r.inner self.now.depth)) c.old) result c.new }
    {
        let e = self.subscript(c)?;
        Ok(Expr::Parenthesized(Boxed::new(self.alloc, e)?))
    }

    fn remainder(&self, c: &mut Tokens<'_>) -> Result<Expr, ParseFault>
        requires { Nests self.now.depth (F.pre self.now.inner) (F.post self.now.inner) }
        ensures { Reads (r.prim_by (r.inner self.now.depth) self.now.depth (What.Word Word.Mod) c.old) result c.new }
    {
        c.word(Word::Mod)?;
        c.sign(Sign::LeftParenthesis)?;
        let (first, second) = self.two(c)?;
        c.sign(Sign::RightParenthesis)?;
        Ok(Expr::Mod(
            Boxed::new(self.alloc, first)?,
            Boxed::new(self.alloc, second)?,
        ))
    }

    fn absolute(&self, c: &mut Tokens<'_>) -> Result<Expr, ParseFault>
        requires { Nests self.now.depth (F.pre self.now.inner) (F.post self.now.inner) }
        ensures { Reads (r.prim_by (r.inner self.now.depth) self.now.depth (What.Word Word.Abs) c.old) result c.new }
    {
        c.word(Word::Abs)?;
        let e = self.subscript(c)?;
        Ok(Expr::Abs(Boxed::new(self.alloc, e)?))
    }

    fn least(&self, c: &mut Tokens<'_>) -> Result<Expr, ParseFault>
        requires { Nests self.now.depth (F.pre self.now.inner) (F.post self.now.inner) }
        ensures { Reads (r.prim_by (r.inner self.now.depth) self.now.depth (What.Word Word.Min) c.old) result c.new }
    {
        c.word(Word::Min)?;
        c.sign(Sign::LeftParenthesis)?;
        let (first, second, others) = self.two_or_more(c)?;
        c.sign(Sign::RightParenthesis)?;
        let first = Boxed::new(self.alloc, first)?;
        let second = Boxed::new(self.alloc, second)?;
        Ok(Expr::Min(first, second, others))
    }

    fn greatest(&self, c: &mut Tokens<'_>) -> Result<Expr, ParseFault>
        requires { Nests self.now.depth (F.pre self.now.inner) (F.post self.now.inner) }
        ensures { Reads (r.prim_by (r.inner self.now.depth) self.now.depth (What.Word Word.Max) c.old) result c.new }
    {
        c.word(Word::Max)?;
        c.sign(Sign::LeftParenthesis)?;
        let (first, second, others) = self.two_or_more(c)?;
        c.sign(Sign::RightParenthesis)?;
        let first = Boxed::new(self.alloc, first)?;
        let second = Boxed::new(self.alloc, second)?;
        Ok(Expr::Max(first, second, others))
    }

    fn rank(&self, c: &mut Tokens<'_>) -> Result<Expr, ParseFault>
        requires { Nests self.now.depth (F.pre self.now.inner) (F.post self.now.inner) }
        ensures { Reads (r.prim_by (r.inner self.now.depth) self.now.depth (What.Word Word.TeamRank) c.old) result c.new }
    {
        c.word(Word::TeamRank)?;
        Ok(Expr::TeamRank(self.team_in(c)?))
    }

    fn size(&self, c: &mut Tokens<'_>) -> Result<Expr, ParseFault>
        requires { Nests self.now.depth (F.pre self.now.inner) (F.post self.now.inner) }
        ensures { Reads (r.prim_by (r.inner self.now.depth) self.now.depth (What.Word Word.TeamSize) c.old) result c.new }
    {
        c.word(Word::TeamSize)?;
        Ok(Expr::TeamSize(self.team_in(c)?))
    }

    fn call(&self, c: &mut Tokens<'_>, word: Word) -> Result<Expr, ParseFault>
        requires { Nests self.now.depth (F.pre self.now.inner) (F.post self.now.inner) }
        ensures { Reads (r.prim_by (r.inner self.now.depth) self.now.depth (What.Word word) c.old) result c.new }
    {
        match word {
            Word::Mod => self.remainder(c),
            Word::Abs => self.absolute(c),
            Word::Min => self.least(c),
            Word::Max => self.greatest(c),
            Word::TeamRank => self.rank(c),
            Word::TeamSize => self.size(c),
            _ => Err(ParseFault::Syntax(c.fault_line())),
        }
    }

    fn factor(&self, c: &mut Tokens<'_>) -> Result<(Operator, Expr), ParseFault>
        requires { Nests self.now.depth (F.pre self.now.inner) (F.post self.now.inner) }
        ensures { Reads (r.operand (r.inner self.now.depth) self.now.depth Level.Products (r.prim (r.inner self.now.depth) self.now.depth) c.old) result c.new }
    {
        let operator = c.operator(Level::Products)?;
        let next = self.prim(c)?;
        Ok((operator, next))
    }

    fn factors(&self, c: &mut Tokens<'_>) -> Result<Items<(Operator, Expr)>, ParseFault>
        requires { Nests self.now.depth (F.pre self.now.inner) (F.post self.now.inner) }
        ensures { Reads (reading.many (r.operand (r.inner self.now.depth) self.now.depth Level.Products (r.prim (r.inner self.now.depth) self.now.depth)) c.old) result c.new }
    {
        let mut found = Items::new(self.alloc);
        for _turn in 0..c.left() {
            let before = c.mark();
            match self.factor(c) {
                Ok(item) => found.push(item)?,
                Err(ParseFault::Syntax(_)) => {
                    c.back(before);
                    return Ok(found);
                }
                Err(fault) => return Err(fault),
            }
        }
        Ok(found)
    }

    #[tactic(auto, unfolding(crate::specs::Reader::term, crate::specs::Reader::chained))]
    fn term(&self, c: &mut Tokens<'_>) -> Result<Expr, ParseFault>
        requires { Nests self.now.depth (F.pre self.now.inner) (F.post self.now.inner) }
        ensures { Reads (r.term (r.inner self.now.depth) self.now.depth c.old) result c.new }
    {
        let first = self.prim(c)?;
        let more = self.factors(c)?;
        Ok(chain_of(self.alloc, first, more)?)
    }

    #[tactic(auto, unfolding(crate::specs::Reader::first_term))]
    fn first_term(&self, c: &mut Tokens<'_>) -> Result<Expr, ParseFault>
        requires { Nests self.now.depth (F.pre self.now.inner) (F.post self.now.inner) }
        ensures { Reads (r.first_term (r.inner self.now.depth) self.now.depth c.old) result c.new }
    {
        if !c.sees_front_sign() {
            return self.term(c);
        }
        let sign = c.front_sign()?;
        let term = self.term(c)?;
        Ok(Expr::Signed(sign, Boxed::new(self.alloc, term)?))
    }

    fn summand(&self, c: &mut Tokens<'_>) -> Result<(Operator, Expr), ParseFault>
        requires { Nests self.now.depth (F.pre self.now.inner) (F.post self.now.inner) }
        ensures { Reads (r.operand (r.inner self.now.depth) self.now.depth Level.Sums (r.term (r.inner self.now.depth) self.now.depth) c.old) result c.new }
    {
        let operator = c.operator(Level::Sums)?;
        let next = self.term(c)?;
        Ok((operator, next))
    }

    fn summands(&self, c: &mut Tokens<'_>) -> Result<Items<(Operator, Expr)>, ParseFault>
        requires { Nests self.now.depth (F.pre self.now.inner) (F.post self.now.inner) }
        ensures { Reads (reading.many (r.operand (r.inner self.now.depth) self.now.depth Level.Sums (r.term (r.inner self.now.depth) self.now.depth)) c.old) result c.new }
    {
        let mut found = Items::new(self.alloc);
        for _turn in 0..c.left() {
            let before = c.mark();
            match self.summand(c) {
                Ok(item) => found.push(item)?,
                Err(ParseFault::Syntax(_)) => {
                    c.back(before);
                    return Ok(found);
                }
                Err(fault) => return Err(fault),
            }
        }
        Ok(found)
    }

    #[tactic(auto, unfolding(crate::specs::Reader::sum, crate::specs::Reader::chained))]
    fn sum(&self, c: &mut Tokens<'_>) -> Result<Expr, ParseFault>
        requires { Nests self.now.depth (F.pre self.now.inner) (F.post self.now.inner) }
        ensures { Reads (r.sum (r.inner self.now.depth) self.now.depth c.old) result c.new }
    {
        let first = self.first_term(c)?;
        let more = self.summands(c)?;
        Ok(chain_of(self.alloc, first, more)?)
    }

    fn compared(&self, c: &mut Tokens<'_>) -> Result<(Relation, Expr), ParseFault>
        requires { Nests self.now.depth (F.pre self.now.inner) (F.post self.now.inner) }
        ensures { Reads (reading.both (reading.one token.a_relation) (r.sum (r.inner self.now.depth) self.now.depth) c.old) result c.new }
    {
        let relation = c.relation()?;
        let sum = self.sum(c)?;
        Ok((relation, sum))
    }

    fn perhaps_compared(&self, c: &mut Tokens<'_>) -> Result<Option<(Relation, Expr)>, ParseFault>
        requires { Nests self.now.depth (F.pre self.now.inner) (F.post self.now.inner) }
        ensures { Reads (reading.optional (reading.both (reading.one token.a_relation) (r.sum (r.inner self.now.depth) self.now.depth)) c.old) result c.new }
    {
        let before = c.mark();
        match self.compared(c) {
            Ok(item) => Ok(Some(item)),
            Err(ParseFault::Syntax(_)) => {
                c.back(before);
                Ok(None)
            }
            Err(fault) => Err(fault),
        }
    }

    #[tactic(auto, unfolding(crate::specs::Reader::rel))]
    fn rel(&self, c: &mut Tokens<'_>) -> Result<Expr, ParseFault>
        requires { Nests self.now.depth (F.pre self.now.inner) (F.post self.now.inner) }
        ensures { Reads (r.rel (r.inner self.now.depth) self.now.depth c.old) result c.new }
    {
        let first = self.sum(c)?;
        match self.perhaps_compared(c)? {
            None => Ok(first),
            Some((relation, second)) => {
                let first = Boxed::new(self.alloc, first)?;
                Ok(Expr::Compare(first, relation, Boxed::new(self.alloc, second)?))
            }
        }
    }

    #[tactic(auto, unfolding(crate::specs::Reader::and_op))]
    fn and_op(&self, c: &mut Tokens<'_>) -> Result<Expr, ParseFault>
        requires { Nests self.now.depth (F.pre self.now.inner) (F.post self.now.inner) }
        ensures { Reads (r.and_op (r.inner self.now.depth) self.now.depth c.old) result c.new }
    {
        if !c.sees_sign(Sign::Not) {
            return self.rel(c);
        }
        c.sign(Sign::Not)?;
        let rel = self.rel(c)?;
        Ok(Expr::Not(Boxed::new(self.alloc, rel)?))
    }

    fn conjunct(&self, c: &mut Tokens<'_>) -> Result<(Operator, Expr), ParseFault>
        requires { Nests self.now.depth (F.pre self.now.inner) (F.post self.now.inner) }
        ensures { Reads (r.operand (r.inner self.now.depth) self.now.depth Level.Conjunctions (r.and_op (r.inner self.now.depth) self.now.depth) c.old) result c.new }
    {
        let operator = c.operator(Level::Conjunctions)?;
        let next = self.and_op(c)?;
        Ok((operator, next))
    }

    fn conjuncts(&self, c: &mut Tokens<'_>) -> Result<Items<(Operator, Expr)>, ParseFault>
        requires { Nests self.now.depth (F.pre self.now.inner) (F.post self.now.inner) }
        ensures { Reads (reading.many (r.operand (r.inner self.now.depth) self.now.depth Level.Conjunctions (r.and_op (r.inner self.now.depth) self.now.depth)) c.old) result c.new }
    {
        let mut found = Items::new(self.alloc);
        for _turn in 0..c.left() {
            let before = c.mark();
            match self.conjunct(c) {
                Ok(item) => found.push(item)?,
                Err(ParseFault::Syntax(_)) => {
                    c.back(before);
                    return Ok(found);
                }
                Err(fault) => return Err(fault),
            }
        }
        Ok(found)
    }

    #[tactic(auto, unfolding(crate::specs::Reader::or_op, crate::specs::Reader::chained))]
    fn or_op(&self, c: &mut Tokens<'_>) -> Result<Expr, ParseFault>
        requires { Nests self.now.depth (F.pre self.now.inner) (F.post self.now.inner) }
        ensures { Reads (r.or_op (r.inner self.now.depth) self.now.depth c.old) result c.new }
    {
        let first = self.and_op(c)?;
        let more = self.conjuncts(c)?;
        Ok(chain_of(self.alloc, first, more)?)
    }

    fn disjunct(&self, c: &mut Tokens<'_>) -> Result<(Operator, Expr), ParseFault>
        requires { Nests self.now.depth (F.pre self.now.inner) (F.post self.now.inner) }
        ensures { Reads (r.operand (r.inner self.now.depth) self.now.depth Level.Disjunctions (r.or_op (r.inner self.now.depth) self.now.depth) c.old) result c.new }
    {
        let operator = c.operator(Level::Disjunctions)?;
        let next = self.or_op(c)?;
        Ok((operator, next))
    }

    fn disjuncts(&self, c: &mut Tokens<'_>) -> Result<Items<(Operator, Expr)>, ParseFault>
        requires { Nests self.now.depth (F.pre self.now.inner) (F.post self.now.inner) }
        ensures { Reads (reading.many (r.operand (r.inner self.now.depth) self.now.depth Level.Disjunctions (r.or_op (r.inner self.now.depth) self.now.depth)) c.old) result c.new }
    {
        let mut found = Items::new(self.alloc);
        for _turn in 0..c.left() {
            let before = c.mark();
            match self.disjunct(c) {
                Ok(item) => found.push(item)?,
                Err(ParseFault::Syntax(_)) => {
                    c.back(before);
                    return Ok(found);
                }
                Err(fault) => return Err(fault),
            }
        }
        Ok(found)
    }

    #[tactic(auto, unfolding(crate::specs::Reader::equ, crate::specs::Reader::chained))]
    fn equ(&self, c: &mut Tokens<'_>) -> Result<Expr, ParseFault>
        requires { Nests self.now.depth (F.pre self.now.inner) (F.post self.now.inner) }
        ensures { Reads (r.equ (r.inner self.now.depth) self.now.depth c.old) result c.new }
    {
        let first = self.or_op(c)?;
        let more = self.disjuncts(c)?;
        Ok(chain_of(self.alloc, first, more)?)
    }

    fn equivalent(&self, c: &mut Tokens<'_>) -> Result<(Operator, Expr), ParseFault>
        requires { Nests self.now.depth (F.pre self.now.inner) (F.post self.now.inner) }
        ensures { Reads (r.operand (r.inner self.now.depth) self.now.depth Level.Equivalences (r.equ (r.inner self.now.depth) self.now.depth) c.old) result c.new }
    {
        let operator = c.operator(Level::Equivalences)?;
        let next = self.equ(c)?;
        Ok((operator, next))
    }

    fn equivalents(&self, c: &mut Tokens<'_>) -> Result<Items<(Operator, Expr)>, ParseFault>
        requires { Nests self.now.depth (F.pre self.now.inner) (F.post self.now.inner) }
        ensures { Reads (reading.many (r.operand (r.inner self.now.depth) self.now.depth Level.Equivalences (r.equ (r.inner self.now.depth) self.now.depth)) c.old) result c.new }
    {
        let mut found = Items::new(self.alloc);
        for _turn in 0..c.left() {
            let before = c.mark();
            match self.equivalent(c) {
                Ok(item) => found.push(item)?,
                Err(ParseFault::Syntax(_)) => {
                    c.back(before);
                    return Ok(found);
                }
                Err(fault) => return Err(fault),
            }
        }
        Ok(found)
    }

    /// An expression.
    #[tactic(auto, unfolding(crate::specs::Reader::expression_in, crate::specs::Reader::chained))]
    pub fn expression_in(&self, c: &mut Tokens<'_>) -> Result<Expr, ParseFault>
        requires { Nests self.now.depth (F.pre self.now.inner) (F.post self.now.inner) }
        ensures { Reads (r.expression_in (r.inner self.now.depth) self.now.depth c.old) result c.new }
    {
        let first = self.equ(c)?;
        let more = self.equivalents(c)?;
        Ok(chain_of(self.alloc, first, more)?)
    }
}

fn chain_of(alloc: Global, first: Expr, more: Items<(Operator, Expr)>) -> Result<Expr, AllocError>
    ensures { IfOk result (λ whole. whole ≡ chain (first, more)) }
{
    if more.is_empty() {
        return Ok(first);
    }
    Ok(Expr::Chain(Boxed::new(alloc, first)?, more))
}

/// An expression within parentheses or brackets, of which so many levels may stand open there, these among them.
pub fn inner(alloc: Global, c: &mut Tokens<'_>, depth: u32) -> Result<Expr, ParseFault>
    ensures { Reads (r.inner depth c.old) result c.new }
{
    if depth == 0 {
        return Err(ParseFault::Deep(c.line()));
    }
    Rules {
        alloc,
        depth: depth - 1,
        inner,
    }
    .expression_in(c)
}

/// An expression whose parentheses and brackets nest at most so deep.
pub fn expression(alloc: Global, c: &mut Tokens<'_>, depth: u32) -> Result<Expr, ParseFault>
    ensures { Reads (r.expression depth c.old) result c.new }
{
    Rules {
        alloc,
        depth,
        inner,
    }
    .expression_in(c)
}

/// `(expr)`, where so many levels may be opened.
pub fn subscript(alloc: Global, c: &mut Tokens<'_>, depth: u32) -> Result<Expr, ParseFault>
    ensures { Reads (r.subscript (r.inner depth) c.old) result c.new }
{
    Rules {
        alloc,
        depth,
        inner,
    }
    .subscript(c)
}

/// `[rank @ team]`, where so many levels may be opened.
pub fn place(alloc: Global, c: &mut Tokens<'_>, depth: u32) -> Result<Place<Expr>, ParseFault>
    ensures { Reads (r.place (r.inner depth) c.old) result c.new }
{
    Rules {
        alloc,
        depth,
        inner,
    }
    .place(c)
}

/// `name(subscript)[place]`, where so many levels may be opened.
pub fn variable(
    alloc: Global,
    c: &mut Tokens<'_>,
    depth: u32,
) -> Result<Variable<Boxed<Expr>>, ParseFault>
    ensures { Reads (r.variable (r.inner depth) c.old) result c.new }
{
    Rules {
        alloc,
        depth,
        inner,
    }
    .variable(c)
}
