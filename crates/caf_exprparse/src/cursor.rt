ghost use Rattle.std.specs.Prelude.{◌≡◌, ◌≤◌, ◌-◌, List, length, drop, IfOk, IfErr};
ghost use Rattle.caf_lexer.specs.declared.token.Token.{Token};
ghost use Rattle.caf_tree.specs.declared.expr.Expr.{Expr as Tree};
ghost use Rattle.caf_tree.specs.Expressions.{Expression};
ghost use Rattle.caf_exprparse.specs.Cursor.{Begins, IsLongest, WhyRefused};
ghost use Rattle.caf_exprparse.specs.Ends.{Stops, ends_expression};

use crate::fault::ParseFault;
use crate::grammar::expression;
use crate::tokens::Tokens;
use caf_lexer::Token;
use caf_tree::expr::Expr;
use std::alloc::Global;

/// How many blocks, parentheses and brackets may stand open at one place.
pub const MOST_LEVELS: u32 = 100;

/// A place among tokens.
#[derive(Clone, Copy)]
pub struct Cursor<'a> {
    pub tokens: &'a [Token],
    /// How many of the tokens stand before it.
    pub at: usize,
    /// How many blocks, parentheses and brackets stand open there.
    pub depth: u32,
}

/// Takes the longest expression at the cursor. With those that stand open there, its parentheses and brackets nest at
/// most 100 deep. After a refusal the cursor stands as before.
pub fn expr(alloc: Global, cursor: &mut Cursor<'_>) -> Result<Expr, ParseFault>
    requires within { cursor.old.at ≤ length cursor.old.tokens.now }
    requires allowed { cursor.old.depth ≤ 100 }
    ensures tokens { cursor.new.tokens.now ≡ cursor.old.tokens.now }
    ensures depth { cursor.new.depth ≡ cursor.old.depth }
    ensures at { cursor.new.at ≤ length cursor.new.tokens.now }
    // What is taken is spelled so.
    ensures spelled { IfOk result (λ e. Expression (100 - cursor.old.depth) e (drop cursor.old.at cursor.old.tokens.now) (drop cursor.new.at cursor.old.tokens.now)) }
    // Nothing longer is.
    ensures longest { IfOk result (λ e. IsLongest (drop cursor.old.at cursor.old.tokens.now) (drop cursor.new.at cursor.old.tokens.now)) }
    // What is spelled, up to a token that an expression can't go on with, is what is taken.
    ensures only { (x : Tree) (rest : List Token) → Begins x (drop cursor.old.at cursor.old.tokens.now) rest → Stops ends_expression rest
        → IfOk result (λ e. (e ≡ x) × (drop cursor.new.at cursor.old.tokens.now ≡ rest)) }
    ensures refused { IfErr result (WhyRefused (100 - cursor.old.depth) (drop cursor.old.at cursor.old.tokens.now)) }
    ensures unmoved { IfErr result (λ fault. cursor.new.at ≡ cursor.old.at) }
{
    let (_, left) = cursor.tokens.split_at(cursor.at);
    let mut tokens = Tokens::new(left);
    match expression(alloc, &mut tokens, MOST_LEVELS - cursor.depth) {
        Ok(expression) => {
            cursor.at = cursor.tokens.len() - tokens.left();
            Ok(expression)
        }
        Err(fault) => Err(fault),
    }
}
