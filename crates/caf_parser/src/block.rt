//! Statements with blocks. They take the readers of a block inside and of what follows an `else if` as parameters, so
//! that each rule is proved by itself.

ghost use Rattle.std.specs.Prelude.{◌≡◌};
ghost use Rattle.caf_tree.specs.Expressions.{or_world};
ghost use Rattle.caf_tree.specs.Forms.{or_none};
ghost use Rattle.caf_exprparse.specs.Reader as e;
ghost use Rattle.caf_exprparse.specs.Reading as reading;
ghost use Rattle.caf_exprparse.specs.Reads.{Reads};
ghost use Rattle.caf_exprparse.specs.Told as token;
ghost use Rattle.caf_simpleparse.specs.Choices as choices;
ghost use Rattle.caf_parser.specs.Nests.{BlockNests, BranchesNest};
ghost use Rattle.caf_parser.specs.Reader as r;

use caf_base::Text;
use caf_exprparse::{ParseFault, Tokens};
use caf_lexer::{Sign, What, Word};
use caf_simpleparse::ahead::{joined, second_is_word, sees_else_if};
use caf_simpleparse::{Parts, all_of, simple};
use caf_tree::expr::{Expr, Team};
use caf_tree::stmt::Stmt;
use sqlite_items::Items;
use std::alloc::Global;

/// A condition, the statements of its block, and those of the else part.
pub type Branches = (Expr, (Items<Stmt>, Items<Stmt>));

/// The variable and the first value of a loop, the last value and the step.
type Counts = ((Text, Expr), (Expr, Option<Expr>));

/// The rules of one level of blocks.
#[derive(Clone, Copy)]
pub struct Blocks<F, H> {
    pub alloc: Global,
    /// How many levels of blocks, parentheses and brackets may be opened.
    pub depth: u32,
    /// Reads a block, of which so many levels may stand open there, it among them.
    pub block: F,
    /// The same of what follows an `else if`.
    pub branches: H,
}

impl<F, H> Blocks<F, H>
where
    F: Fn(Global, &mut Tokens<'_>, u32) -> Result<Items<Stmt>, ParseFault>,
    H: Fn(Global, &mut Tokens<'_>, u32) -> Result<Branches, ParseFault>,
{
    fn inner(&self, c: &mut Tokens<'_>) -> Result<Items<Stmt>, ParseFault>
        requires block { BlockNests self.now.depth (F.pre self.now.block) (F.post self.now.block) }
        requires branches { BranchesNest self.now.depth (H.pre self.now.branches) (H.post self.now.branches) }
        ensures { Reads (r.inner_block self.now.depth c.old) result c.new }
    {
        (self.block)(self.alloc, c, self.depth)
    }

    fn inner_branches(&self, c: &mut Tokens<'_>) -> Result<Branches, ParseFault>
        requires block { BlockNests self.now.depth (F.pre self.now.block) (F.post self.now.block) }
        requires branches { BranchesNest self.now.depth (H.pre self.now.branches) (H.post self.now.branches) }
        ensures { Reads (r.inner_branches self.now.depth c.old) result c.new }
    {
        (self.branches)(self.alloc, c, self.depth)
    }

    fn parts(&self) -> Parts
        ensures { result.depth ≡ self.now.depth }
    {
        Parts {
            alloc: self.alloc,
            depth: self.depth,
        }
    }

    fn else_block(&self, c: &mut Tokens<'_>) -> Result<Items<Stmt>, ParseFault>
        requires block { BlockNests self.now.depth (F.pre self.now.block) (F.post self.now.block) }
        requires branches { BranchesNest self.now.depth (H.pre self.now.branches) (H.post self.now.branches) }
        ensures { Reads (r.else_block self.now.depth (r.inner_block self.now.depth) (r.inner_branches self.now.depth) c.old) result c.new }
    {
        c.word(Word::Else)?;
        c.end()?;
        self.inner(c)
    }

    fn perhaps_else(&self, c: &mut Tokens<'_>) -> Result<Items<Stmt>, ParseFault>
        requires block { BlockNests self.now.depth (F.pre self.now.block) (F.post self.now.block) }
        requires branches { BranchesNest self.now.depth (H.pre self.now.branches) (H.post self.now.branches) }
        ensures { Reads (reading.make or_none (reading.optional (r.else_block self.now.depth (r.inner_block self.now.depth) (r.inner_branches self.now.depth))) c.old) result c.new }
    {
        let before = c.mark();
        match self.else_block(c) {
            Ok(item) => Ok(item),
            Err(ParseFault::Syntax(_)) => {
                c.back(before);
                Ok(Items::new(self.alloc))
            }
            Err(fault) => Err(fault),
        }
    }

    #[tactic(auto, unfolding(crate::specs::Reader::last_part))]
    fn last_part(&self, c: &mut Tokens<'_>) -> Result<Items<Stmt>, ParseFault>
        requires block { BlockNests self.now.depth (F.pre self.now.block) (F.post self.now.block) }
        requires branches { BranchesNest self.now.depth (H.pre self.now.branches) (H.post self.now.branches) }
        ensures { Reads (r.last_part self.now.depth (r.inner_block self.now.depth) (r.inner_branches self.now.depth) c.old) result c.new }
    {
        let otherwise = self.perhaps_else(c)?;
        joined(c, Word::End, Word::If, Word::EndIf)?;
        c.end()?;
        Ok(otherwise)
    }

    #[tactic(auto, unfolding(crate::specs::Reader::else_if))]
    fn else_if(&self, c: &mut Tokens<'_>) -> Result<Items<Stmt>, ParseFault>
        requires block { BlockNests self.now.depth (F.pre self.now.block) (F.post self.now.block) }
        requires branches { BranchesNest self.now.depth (H.pre self.now.branches) (H.post self.now.branches) }
        ensures { Reads (r.else_if self.now.depth (r.inner_block self.now.depth) (r.inner_branches self.now.depth) c.old) result c.new }
    {
        let line = c.first_line();
        joined(c, Word::Else, Word::If, Word::ElseIf)?;
        let (condition, (block, otherwise)) = self.inner_branches(c)?;
        let part = Stmt::If {
            line,
            condition,
            block,
            otherwise,
        };
        Ok(all_of(self.alloc, part, Items::new(self.alloc))?)
    }

    #[tactic(auto, unfolding(crate::specs::Reader::rest))]
    fn rest(&self, c: &mut Tokens<'_>) -> Result<Items<Stmt>, ParseFault>
        requires block { BlockNests self.now.depth (F.pre self.now.block) (F.post self.now.block) }
        requires branches { BranchesNest self.now.depth (H.pre self.now.branches) (H.post self.now.branches) }
        ensures { Reads (r.rest self.now.depth (r.inner_block self.now.depth) (r.inner_branches self.now.depth) c.old) result c.new }
    {
        if sees_else_if(c) {
            return self.else_if(c);
        }
        self.last_part(c)
    }

    #[tactic(auto, unfolding(crate::specs::Reader::then_block))]
    fn then_block(&self, c: &mut Tokens<'_>) -> Result<(Items<Stmt>, Items<Stmt>), ParseFault>
        requires block { BlockNests self.now.depth (F.pre self.now.block) (F.post self.now.block) }
        requires branches { BranchesNest self.now.depth (H.pre self.now.branches) (H.post self.now.branches) }
        ensures { Reads (r.then_block self.now.depth (r.inner_block self.now.depth) (r.inner_branches self.now.depth) c.old) result c.new }
    {
        c.word(Word::Then)?;
        c.end()?;
        let block = self.inner(c)?;
        let otherwise = self.rest(c)?;
        Ok((block, otherwise))
    }

    /// What follows `if` or `else if`, where the statement has a block.
    #[tactic(auto, unfolding(crate::specs::Reader::branches))]
    pub fn branches(&self, c: &mut Tokens<'_>) -> Result<Branches, ParseFault>
        requires block { BlockNests self.now.depth (F.pre self.now.block) (F.post self.now.block) }
        requires branches { BranchesNest self.now.depth (H.pre self.now.branches) (H.post self.now.branches) }
        ensures { Reads (r.branches self.now.depth (r.inner_block self.now.depth) (r.inner_branches self.now.depth) c.old) result c.new }
    {
        let condition = self.parts().condition(c)?;
        let blocks = self.then_block(c)?;
        Ok((condition, blocks))
    }

    #[tactic(auto, unfolding(crate::specs::Reader::if_tail))]
    fn if_tail(&self, c: &mut Tokens<'_>, line: u32, condition: Expr) -> Result<Stmt, ParseFault>
        requires block { BlockNests self.now.depth (F.pre self.now.block) (F.post self.now.block) }
        requires branches { BranchesNest self.now.depth (H.pre self.now.branches) (H.post self.now.branches) }
        ensures { Reads (reading.make (λ f. f condition line) (r.if_tail self.now.depth (r.inner_block self.now.depth) (r.inner_branches self.now.depth)) c.old) result c.new }
    {
        if c.sees_word(Word::Then) {
            let (block, otherwise) = self.then_block(c)?;
            return Ok(Stmt::If {
                line,
                condition,
                block,
                otherwise,
            });
        }
        let action_line = c.first_line();
        let action = simple(self.parts(), c)?;
        c.end()?;
        Ok(Stmt::IfLine {
            line,
            condition,
            action_line,
            action,
        })
    }

    #[tactic(auto, unfolding(crate::specs::Reader::if_statement))]
    fn if_statement(&self, c: &mut Tokens<'_>) -> Result<Stmt, ParseFault>
        requires block { BlockNests self.now.depth (F.pre self.now.block) (F.post self.now.block) }
        requires branches { BranchesNest self.now.depth (H.pre self.now.branches) (H.post self.now.branches) }
        ensures { Reads (r.if_statement self.now.depth (r.inner_block self.now.depth) (r.inner_branches self.now.depth) c.old) result c.new }
    {
        let line = c.first_line();
        c.word(Word::If)?;
        let condition = self.parts().condition(c)?;
        self.if_tail(c, line, condition)
    }

    fn perhaps_step(&self, c: &mut Tokens<'_>) -> Result<Option<Expr>, ParseFault>
        requires block { BlockNests self.now.depth (F.pre self.now.block) (F.post self.now.block) }
        requires branches { BranchesNest self.now.depth (H.pre self.now.branches) (H.post self.now.branches) }
        ensures { Reads (reading.optional (choices.next_behind (e.expression self.now.depth)) c.old) result c.new }
    {
        let before = c.mark();
        match self.parts().next_value(c) {
            Ok(item) => Ok(Some(item)),
            Err(ParseFault::Syntax(_)) => {
                c.back(before);
                Ok(None)
            }
            Err(fault) => Err(fault),
        }
    }

    fn counts(&self, c: &mut Tokens<'_>) -> Result<Counts, ParseFault>
        requires block { BlockNests self.now.depth (F.pre self.now.block) (F.post self.now.block) }
        requires branches { BranchesNest self.now.depth (H.pre self.now.branches) (H.post self.now.branches) }
        ensures { Reads (reading.both (reading.both e.name (reading.lead (token.sign' Sign.Assign) (e.expression self.now.depth))) (choices.next_behind (reading.both (e.expression self.now.depth) (reading.optional (choices.next_behind (e.expression self.now.depth))))) c.old) result c.new }
    {
        let variable = c.name(self.alloc)?;
        c.sign(Sign::Assign)?;
        let first = self.parts().value(c)?;
        c.sign(Sign::Comma)?;
        let last = self.parts().value(c)?;
        let step = self.perhaps_step(c)?;
        Ok(((variable, first), (last, step)))
    }

    fn do_body(&self, c: &mut Tokens<'_>) -> Result<Items<Stmt>, ParseFault>
        requires block { BlockNests self.now.depth (F.pre self.now.block) (F.post self.now.block) }
        requires branches { BranchesNest self.now.depth (H.pre self.now.branches) (H.post self.now.branches) }
        ensures { Reads (r.do_body self.now.depth (r.inner_block self.now.depth) (r.inner_branches self.now.depth) c.old) result c.new }
    {
        c.end()?;
        let body = self.inner(c)?;
        joined(c, Word::End, Word::Do, Word::EndDo)?;
        c.end()?;
        Ok(body)
    }

    #[tactic(auto, unfolding(crate::specs::Reader::counted))]
    fn counted(&self, c: &mut Tokens<'_>) -> Result<Stmt, ParseFault>
        requires block { BlockNests self.now.depth (F.pre self.now.block) (F.post self.now.block) }
        requires branches { BranchesNest self.now.depth (H.pre self.now.branches) (H.post self.now.branches) }
        ensures { Reads (r.counted self.now.depth (r.inner_block self.now.depth) (r.inner_branches self.now.depth) c.old) result c.new }
    {
        let line = c.first_line();
        c.word(Word::Do)?;
        let counts = self.counts(c)?;
        let body = self.do_body(c)?;
        Ok(loop_of(line, counts, body))
    }

    #[tactic(auto, unfolding(crate::specs::Reader::while_true))]
    fn while_true(&self, c: &mut Tokens<'_>) -> Result<Stmt, ParseFault>
        requires block { BlockNests self.now.depth (F.pre self.now.block) (F.post self.now.block) }
        requires branches { BranchesNest self.now.depth (H.pre self.now.branches) (H.post self.now.branches) }
        ensures { Reads (r.while_true self.now.depth (r.inner_block self.now.depth) (r.inner_branches self.now.depth) c.old) result c.new }
    {
        let line = c.first_line();
        c.word(Word::Do)?;
        c.word(Word::While)?;
        let condition = self.parts().condition(c)?;
        c.end()?;
        let body = self.inner(c)?;
        joined(c, Word::End, Word::Do, Word::EndDo)?;
        c.end()?;
        Ok(Stmt::While {
            line,
            condition,
            body,
        })
    }

    fn team_in(&self, c: &mut Tokens<'_>) -> Result<Team, ParseFault>
        requires block { BlockNests self.now.depth (F.pre self.now.block) (F.post self.now.block) }
        requires branches { BranchesNest self.now.depth (H.pre self.now.branches) (H.post self.now.branches) }
        ensures { Reads (token.in_parentheses e.team c.old) result c.new }
    {
        c.sign(Sign::LeftParenthesis)?;
        let team = c.team(self.alloc)?;
        c.sign(Sign::RightParenthesis)?;
        Ok(team)
    }

    fn perhaps_team_in(&self, c: &mut Tokens<'_>) -> Result<Team, ParseFault>
        requires block { BlockNests self.now.depth (F.pre self.now.block) (F.post self.now.block) }
        requires branches { BranchesNest self.now.depth (H.pre self.now.branches) (H.post self.now.branches) }
        ensures { Reads (reading.make or_world (reading.optional (token.in_parentheses e.team)) c.old) result c.new }
    {
        let before = c.mark();
        match self.team_in(c) {
            Ok(item) => Ok(item),
            Err(ParseFault::Syntax(_)) => {
                c.back(before);
                Ok(Team::World)
            }
            Err(fault) => Err(fault),
        }
    }

    #[tactic(auto, unfolding(crate::specs::Reader::finish))]
    fn finish(&self, c: &mut Tokens<'_>) -> Result<Stmt, ParseFault>
        requires block { BlockNests self.now.depth (F.pre self.now.block) (F.post self.now.block) }
        requires branches { BranchesNest self.now.depth (H.pre self.now.branches) (H.post self.now.branches) }
        ensures { Reads (r.finish self.now.depth (r.inner_block self.now.depth) (r.inner_branches self.now.depth) c.old) result c.new }
    {
        let line = c.first_line();
        c.word(Word::Finish)?;
        let team = self.perhaps_team_in(c)?;
        c.end()?;
        let body = self.inner(c)?;
        joined(c, Word::End, Word::Finish, Word::EndFinish)?;
        c.end()?;
        Ok(Stmt::Finish { line, team, body })
    }

    #[tactic(auto, unfolding(crate::specs::Reader::line))]
    fn line(&self, c: &mut Tokens<'_>) -> Result<Stmt, ParseFault>
        requires block { BlockNests self.now.depth (F.pre self.now.block) (F.post self.now.block) }
        requires branches { BranchesNest self.now.depth (H.pre self.now.branches) (H.post self.now.branches) }
        ensures { Reads (r.line self.now.depth (r.inner_block self.now.depth) (r.inner_branches self.now.depth) c.old) result c.new }
    {
        let line = c.first_line();
        let action = simple(self.parts(), c)?;
        c.end()?;
        Ok(Stmt::Simple { line, action })
    }

    fn do_statement(&self, c: &mut Tokens<'_>) -> Result<Stmt, ParseFault>
        requires block { BlockNests self.now.depth (F.pre self.now.block) (F.post self.now.block) }
        requires branches { BranchesNest self.now.depth (H.pre self.now.branches) (H.post self.now.branches) }
        ensures { Reads (r.statement_by self.now.depth (r.inner_block self.now.depth) (r.inner_branches self.now.depth) (What.Word Word.Do) c.old) result c.new }
    {
        if second_is_word(c, Word::While) {
            return self.while_true(c);
        }
        self.counted(c)
    }

    #[tactic(auto, unfolding(crate::specs::Reader::statement))]
    fn statement(&self, c: &mut Tokens<'_>) -> Result<Stmt, ParseFault>
        requires block { BlockNests self.now.depth (F.pre self.now.block) (F.post self.now.block) }
        requires branches { BranchesNest self.now.depth (H.pre self.now.branches) (H.post self.now.branches) }
        ensures { Reads (r.statement self.now.depth (r.inner_block self.now.depth) (r.inner_branches self.now.depth) c.old) result c.new }
    {
        match c.next() {
            Some(What::Word(Word::If)) => self.if_statement(c),
            Some(What::Word(Word::Do)) => self.do_statement(c),
            Some(What::Word(Word::Finish)) => self.finish(c),
            Some(_) => self.line(c),
            None => Err(ParseFault::Syntax(c.fault_line())),
        }
    }

    /// Any number of statements.
    pub fn statements(&self, c: &mut Tokens<'_>) -> Result<Items<Stmt>, ParseFault>
        requires block { BlockNests self.now.depth (F.pre self.now.block) (F.post self.now.block) }
        requires branches { BranchesNest self.now.depth (H.pre self.now.branches) (H.post self.now.branches) }
        ensures { Reads (reading.many (r.statement self.now.depth (r.inner_block self.now.depth) (r.inner_branches self.now.depth)) c.old) result c.new }
    {
        let mut found = Items::new(self.alloc);
        for _turn in 0..c.left() {
            let before = c.mark();
            match self.statement(c) {
                Ok(item) => found.push(item)?,
                Err(ParseFault::Syntax(_)) => {
                    c.back(before);
                    return Ok(found);
                }
                Err(fault) => return Err(fault),
            }
        }
        Ok(found)
    }
}

fn loop_of(line: u32, counts: Counts, body: Items<Stmt>) -> Stmt
    ensures { result ≡ r.counted_made (line, (counts, body)) }
{
    let ((variable, first), (last, step)) = counts;
    Stmt::Do {
        line,
        variable,
        first,
        last,
        step,
        body,
    }
}

/// A block inside, of which so many levels may stand open there, it among them.
#[cycle(nested)]
pub fn inner_block(alloc: Global, c: &mut Tokens<'_>, depth: u32) -> Result<Items<Stmt>, ParseFault>
    ensures { Reads (r.inner_block depth c.old) result c.new }
{
    if depth == 0 {
        return Err(ParseFault::Deep(c.line()));
    }
    Blocks {
        alloc,
        depth: depth - 1,
        block: inner_block,
        branches: inner_branches,
    }
    .statements(c)
}

/// What follows an `else if`, which is one level deeper.
#[cycle(nested)]
pub fn inner_branches(alloc: Global, c: &mut Tokens<'_>, depth: u32) -> Result<Branches, ParseFault>
    ensures { Reads (r.inner_branches depth c.old) result c.new }
{
    if depth == 0 {
        return Err(ParseFault::Deep(c.line()));
    }
    Blocks {
        alloc,
        depth: depth - 1,
        block: inner_block,
        branches: inner_branches,
    }
    .branches(c)
}

/// Any number of statements, where so many levels may be opened.
pub fn statements(alloc: Global, c: &mut Tokens<'_>, depth: u32) -> Result<Items<Stmt>, ParseFault>
    ensures { Reads (r.statements depth c.old) result c.new }
{
    Blocks {
        alloc,
        depth,
        block: inner_block,
        branches: inner_branches,
    }
    .statements(c)
}
