ghost use Rattle.std.specs.Prelude.{◌<◌, ◌≤◌, ◌^◌, length};

use caf_exprparse::{Cursor, expr};
use caf_lexer::{Sign, Token, What, tokens};
use caf_tree::expr::{Expr, FrontSign};
use std::alloc::Global;
use std::process::Abort;
use std::test::Fail;

/// A text, and how many of its tokens the longest expression takes, or why there is none.
type Row = (&'static [u8], &'static str);

const ROWS: [Row; 38] = [
    (b"1", "1"),
    (b"x = 1", "1"),
    (b"-a*b", "4"),
    (b"- a + b", "4"),
    (b"a - -b", "1"),
    (b"- -a", "line 1: syntax"),
    (b"a * -b", "1"),
    (b"a < b < c", "3"),
    (b"a == b .and. c /= d", "7"),
    (b".not. a .eqv. b", "4"),
    (b".not. .not. a", "line 1: syntax"),
    (b"a .and. .not. b", "4"),
    (b"a .eqv. .not. b .neqv. c", "6"),
    (b"a + )", "1"),
    (b"a + &\n )", "1"),
    (b"(a + &\n )", "line 2: syntax"),
    (b"a(1)[2 @ t]", "9"),
    (b"a(1)[2 @ team_world]", "9"),
    (b"a[1](2)", "4"),
    (b"a(1)(2)", "4"),
    (b"a()", "1"),
    (b"a(1:2)", "1"),
    (b"a(1", "1"),
    (b"(a)[1]", "3"),
    (b"mod(7, 2)", "6"),
    (b"mod(7)", "line 1: syntax"),
    (b"mod(7, 2, 1)", "line 1: syntax"),
    (b"abs(-7)", "5"),
    (b"min(1, 2, 3)", "8"),
    (b"max(1)", "line 1: syntax"),
    (b"team_rank()", "3"),
    (b"team_rank(t) + 1", "6"),
    (b"team_size(team_world)", "4"),
    (b"team_size(1)", "line 1: syntax"),
    (b".true. .or. .false.", "3"),
    (b"end", "line 1: syntax"),
    (b"'text'", "line 1: syntax"),
    (b"", "line 1: syntax"),
];

fn shown(alloc: Global, tokens: &[Token], depth: u32) -> Result<String, Fail>
    requires { depth ≤ 100 }
{
    let mut cursor = Cursor {
        tokens,
        at: 0,
        depth,
    };
    match expr(alloc, &mut cursor) {
        Ok(_) => {
            let at = cursor.at;
            Ok(format!(in alloc; "{at}")?)
        }
        Err(fault) => Ok(format!(in alloc; "{fault}")?),
    }
}

#[test]
fn the_longest_expression_takes_so_many_tokens(rt: HostRuntime) -> Result<(), Fail> {
    let alloc = rt.alloc();
    for (text, expected) in &ROWS {
        assert!(rt; text.len() < 1000);
        let tokens = tokens(alloc, text)?;
        let shown = shown(alloc, tokens.as_slice(), 0)?;
        assert_eq!(rt; shown.as_str(), *expected, "at {text:?}");
    }
    Ok(())
}

fn nested(alloc: Global, levels: u32) -> Result<Vec<Token>, Fail> {
    let mut tokens = Vec::new(alloc);
    for _ in 0..levels {
        tokens.push(Token {
            what: What::Sign(Sign::LeftParenthesis),
            line: 1,
        })?;
    }
    tokens.push(Token {
        what: What::Number(1),
        line: 1,
    })?;
    for _ in 0..levels {
        tokens.push(Token {
            what: What::Sign(Sign::RightParenthesis),
            line: 2,
        })?;
    }
    Ok(tokens)
}

#[test]
fn a_hundred_levels_are_open_at_most(rt: HostRuntime) -> Result<(), Fail> {
    let alloc = rt.alloc();
    for (levels, depth, expected) in [
        (100, 0, "201"),
        (101, 0, "line 1: deep"),
        (1, 99, "3"),
        (1, 100, "line 1: deep"),
        (0, 100, "1"),
    ] {
        let tokens = nested(alloc, levels)?;
        let shown = shown(alloc, tokens.as_slice(), depth)?;
        assert_eq!(rt; shown.as_str(), expected, "at {levels} behind {depth}");
    }
    Ok(())
}

#[test]
fn a_front_sign_applies_to_the_first_term(rt: HostRuntime) -> Result<(), Fail> {
    let alloc = rt.alloc();
    let tokens = tokens(alloc, b"-a*b")?;
    let mut cursor = Cursor {
        tokens: tokens.as_slice(),
        at: 0,
        depth: 0,
    };
    let expression = expr(alloc, &mut cursor)?;
    let Expr::Signed(FrontSign::Minus, term) = expression else {
        panic!(rt; "no sign in front");
    };
    assert!(rt; matches!(term.get(), Expr::Chain(_, _)));
    Ok(())
}
