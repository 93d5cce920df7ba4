ghost use Rattle.std.specs.Prelude.{◌<◌, ◌^◌, length};

use caf_base::Text;
use caf_lexer::{Sign, What, Word, tokens};
use std::alloc::Global;
use std::process::Abort;
use std::test::Fail;

/// A text and what it gives: a fault, or its tokens. `@` and a number stand before the first token of a line, names and
/// numbers are shown as they are, words and signs by their variants, texts between `'`, and `End` as `;`.
type Row = (&'static [u8], &'static str);

const STATEMENT_ENDS: [Row; 14] = [
    (b"", ""),
    (b"\n", ""),
    (b"\n\n  \t\n", ""),
    (b"! only a comment", ""),
    (b";;;", ""),
    (b"; ; ;\n;", ""),
    (b"x", "@1 x ;"),
    (b"x\n", "@1 x ;"),
    (b"x;", "@1 x ;"),
    (b"x;;y", "@1 x ; y ;"),
    (b";x; ;\n;;\ny\n", "@1 x ; @3 y ;"),
    (b"x\n\n! c\ny", "@1 x ; @4 y ;"),
    (b"x = 1 ! set\n", "@1 x Assign 1 ;"),
    (b"x\ty", "@1 x y ;"),
];

const NAMES_AND_WORDS: [Row; 13] = [
    (b"PROGRAM Halo", "@1 Program halo ;"),
    (b"eNd IF", "@1 End If ;"),
    (b"ENDIF EndIf endif", "@1 EndIf EndIf EndIf ;"),
    (b"Endif_ endif2 end_if", "@1 endif_ endif2 end_if ;"),
    (
        b"program end contains subroutine implicit none integer logical event team",
        "@1 Program End Contains Subroutine Implicit None Integer Logical Event Team ;",
    ),
    (
        b"parameter copointer intent in out inout if then else elseif endif do while enddo",
        "@1 Parameter Copointer Intent In Out InOut If Then Else ElseIf EndIf Do While EndDo ;",
    ),
    (
        b"finish endfinish endprogram endsubroutine print call spawn EVENT_NOTIFY event_wait",
        "@1 Finish EndFinish EndProgram EndSubroutine Print Call Spawn EventNotify EventWait ;",
    ),
    (
        b"copy_async pre srce deste cofence team_split team_world team_rank team_size",
        "@1 CopyAsync Pre Srce Deste Cofence TeamSplit TeamWorld TeamRank TeamSize ;",
    ),
    (b"mod abs min max done", "@1 Mod Abs Min Max done ;"),
    (b"a1_b A1_B x_", "@1 a1_b a1_b x_ ;"),
    (b"_x", "line 1: bad token"),
    (b"2x", "@1 2 x ;"),
    (b"x 2_", "line 1: bad token"),
];

const NUMBERS: [Row; 8] = [
    (b"0 007", "@1 0 7 ;"),
    (b"9223372036854775807", "@1 9223372036854775807 ;"),
    (b"9223372036854775808", "line 1: bad number"),
    (b"-9223372036854775808", "line 1: bad number"),
    (b"00000000000000000000000000009", "@1 9 ;"),
    (b"18446744073709551617", "line 1: bad number"),
    (b"1.5", "line 1: bad token"),
    (b"1 2", "@1 1 2 ;"),
];

const DOTTED_WORDS: [Row; 12] = [
    (b"1.eq.2", "@1 1 Equal 2 ;"),
    (b"a.and.b", "@1 a And b ;"),
    (b".NOT..True.", "@1 Not True ;"),
    (b".true..or..false.", "@1 True Or False ;"),
    (b".eqv. .neqv.", "@1 Equivalent NotEquivalent ;"),
    (
        b".eq. .ne. .lt. .le. .gt. .ge.",
        "@1 Equal NotEqual Less LessEqual Greater GreaterEqual ;",
    ),
    (
        b"== /= < <= > >=",
        "@1 Equal NotEqual Less LessEqual Greater GreaterEqual ;",
    ),
    (b".eq", "line 1: bad token"),
    (b". eq .", "line 1: bad token"),
    (b".xor.", "line 1: bad token"),
    (b"a.b", "line 1: bad token"),
    (b".e\nq.", "line 1: bad token"),
];

const SIGNS: [Row; 13] = [
    (
        b"( ) [ ] , = + - * /",
        "@1 LeftParenthesis RightParenthesis LeftBracket RightBracket Comma Assign Plus Minus Asterisk Slash ;",
    ),
    (b": :: @ =>", "@1 Colon DoubleColon At Arrow ;"),
    (b"p=>q", "@1 p Arrow q ;"),
    (b"a==b=c", "@1 a Equal b Assign c ;"),
    (b"===>", "@1 Equal Arrow ;"),
    (b"=>=", "@1 Arrow Assign ;"),
    (b"<=>", "@1 LessEqual Greater ;"),
    (b"<==", "@1 LessEqual Assign ;"),
    (b"/==", "@1 NotEqual Assign ;"),
    (b"/=>", "@1 NotEqual Greater ;"),
    (b":::", "@1 DoubleColon Colon ;"),
    (b"**//", "@1 Asterisk Asterisk Slash Slash ;"),
    (b"= =", "@1 Assign Assign ;"),
];

const OTHER_BYTES: [Row; 13] = [
    (b"x # y", "line 1: bad token"),
    (b"\x00", "line 1: bad token"),
    (b"x\x0b", "line 1: bad token"),
    (b"x\x7f", "line 1: bad token"),
    (b"\x80", "line 1: not ascii"),
    (b"caf\xc3\xa9", "line 1: not ascii"),
    (b"! caf\xc3\xa9 \x00 \x7f", ""),
    (b"x ! \xff\ny", "@1 x ; @2 y ;"),
    (b"\n\n\xff", "line 3: not ascii"),
    (b"# \xff", "line 1: bad token"),
    (b"\xff #", "line 1: not ascii"),
    (b"9223372036854775808 \xff", "line 1: bad number"),
    (b"x #\n\xff", "line 1: bad token"),
];

const LINE_ENDS: [Row; 11] = [
    (b"x\r\ny\r\n", "@1 x ; @2 y ;"),
    (b"\r\n", ""),
    (b"x\r", "line 1: bad token"),
    (b"x\ry\n", "line 1: bad token"),
    (b"x\r\r\n", "line 1: bad token"),
    (b"\n\r", "line 2: bad token"),
    (b"! c\rc\r\n", ""),
    (b"! c\r", ""),
    (b"x ! c\r\r\ny", "@1 x ; @2 y ;"),
    (b"'a\r'", "line 1: bad token"),
    (b"'a\r\n'", "line 1: bad token"),
];

const QUOTED: [Row; 21] = [
    (b"'it''s'", "@1 'it's' ;"),
    (b"\"it's\"", "@1 'it's' ;"),
    (b"'Say \"Hi\"'", "@1 'Say \"Hi\"' ;"),
    (b"\"a\"\"b\"", "@1 'a\"b' ;"),
    (b"''", "@1 '' ;"),
    (b"''''", "@1 ''' ;"),
    (b"''''''", "@1 '''' ;"),
    (b"'a' 'b'", "@1 'a' 'b' ;"),
    (b"'a''", "line 1: bad token"),
    (b"'a", "line 1: bad token"),
    (b"'", "line 1: bad token"),
    (b"'A! & ; B'", "@1 'A! & ; B' ;"),
    (b"'a\tb'\t!\tc", "@1 'a\tb' ;"),
    (b"'a\xff'", "line 1: not ascii"),
    (b"'a\x1f'", "line 1: bad token"),
    (b"'a\x7f'", "line 1: bad token"),
    (b"'a ! \xff", "line 1: not ascii"),
    (b"'a ! b\nc'", "line 1: bad token"),
    (b"'a''b\xff", "line 1: not ascii"),
    (b"x'y'z", "@1 x 'y' z ;"),
    (
        b"print *, 'x', \"y\"",
        "@1 Print Asterisk Comma 'x' Comma 'y' ;",
    ),
];

const CONTINUED: [Row; 16] = [
    (b"x &\ny", "@1 x @2 y ;"),
    (b"x & ! go on\ny", "@1 x @2 y ;"),
    (b"x &\n& y", "@1 x @2 y ;"),
    (b"x&\n&y", "@1 x @2 y ;"),
    (b"x &\r\n&y\r\n", "@1 x @2 y ;"),
    (b"x &\n\n  \t\n! c\n  & y", "@1 x @5 y ;"),
    (b"x &\n& &\ny", "@1 x @3 y ;"),
    (b"x &\n&&\ny", "@1 x @3 y ;"),
    (b"x &\n& y &\n& z", "@1 x @2 y @3 z ;"),
    (
        b"x = 1 + &\n  2 ; y = 3",
        "@1 x Assign 1 Plus @2 2 ; y Assign 3 ;",
    ),
    (b"en&\nd", "@1 en @2 d ;"),
    (b"=&\n>", "@1 Assign @2 Greater ;"),
    (b"'a&\nb'", "line 1: bad token"),
    (b"x ; &\ny", "@1 x ; @2 y ;"),
    (b"; &\n; y", "@2 y ;"),
    (b"x &\n;", "@1 x @2 ;"),
];

const WRONGLY_CONTINUED: [Row; 23] = [
    (b"&", "line 1: bad token"),
    (b"& ! c", "line 1: bad token"),
    (b"& x", "line 1: bad token"),
    (b"& &\nx", "line 1: bad token"),
    (b"x\n& y", "line 2: bad token"),
    (b"x &\n&\ny", "line 2: bad token"),
    (b"x &\n& ! c\ny", "line 2: bad token"),
    (b"x & y", "line 1: bad token"),
    (b"x & & ", "line 1: bad token"),
    (b"x & ; y", "line 1: bad token"),
    (b"x &\n& & y", "line 2: bad token"),
    (b"x & \xff", "line 1: bad token"),
    (b"x & 9223372036854775808", "line 1: bad token"),
    (b"9223372036854775808 & y", "line 1: bad number"),
    (b"x &\n& \xff", "line 2: not ascii"),
    (b"x &\n& 9223372036854775808", "line 2: bad number"),
    (b"x &\n#", "line 2: bad token"),
    (b"x &", "line 1: open continuation"),
    (b"x &\n", "line 1: open continuation"),
    (b"x &\n\n", "line 2: open continuation"),
    (b"x &\n! c\n  ", "line 3: open continuation"),
    (b"x &\ny &\n", "line 2: open continuation"),
    (b"x &\n#\ny &", "line 2: bad token"),
];

/// Texts with a byte many times between a front and a back, and what they give. A name or a text of more than 40
/// bytes is shown by its length.
type LongRow = (&'static [u8], u8, usize, &'static [u8], &'static str);

const LONG: [LongRow; 33] = [
    (b"", b'a', 63, b"", "@1 name of 63 ;"),
    (b"", b'A', 64, b"", "line 1: bad token"),
    (b"x", b'_', 63, b"", "line 1: bad token"),
    (b"", b'a', 64, b" \xff", "line 1: bad token"),
    (b"", b'0', 131, b"7", "@1 7 ;"),
    (b"", b'9', 132, b"", "line 1: bad number"),
    (b"'", b'a', 120, b"'", "@1 text of 120 ;"),
    (b"'", b'a', 121, b"'", "line 1: bad token"),
    (b"'", b'a', 118, b"'''", "@1 text of 119 ;"),
    (b"'", b'a', 119, b"'''", "line 1: bad token"),
    (b"'", b'a', 119, b"''\xff", "line 1: bad token"),
    (b"'", b'a', 119, b"\xff", "line 1: not ascii"),
    (b"'", b'a', 120, b"\xff", "line 1: not ascii"),
    (b"'", b'a', 121, b"\xff", "line 1: bad token"),
    (b"'", b'a', 120, b"", "line 1: bad token"),
    (b"'", b'\'', 120, b"'", "@1 text of 60 ;"),
    (b"'", b'\'', 122, b"'", "line 1: bad token"),
    (b"\"", b'\'', 120, b"\"", "@1 text of 120 ;"),
    (b"!", b'c', 131, b"", ""),
    (b"!", b'c', 132, b"", "line 1: long line"),
    (b"!", b'c', 131, b"\r\n", ""),
    (b"!", b'c', 132, b"\r\n", "line 1: long line"),
    (b"!", b'c', 131, b"\r", "line 1: long line"),
    (b"x\n", b' ', 132, b"\n", "@1 x ;"),
    (b"x\n", b' ', 133, b"\n", "line 2: long line"),
    (b"\xff", b' ', 132, b"", "line 1: long line"),
    (b"#", b' ', 132, b"", "line 1: long line"),
    (b"&", b' ', 132, b"", "line 1: long line"),
    (b"\xff\n", b' ', 133, b"", "line 1: not ascii"),
    (b"x &\n", b' ', 132, b"\ny", "@1 x @3 y ;"),
    (b"x &\n", b' ', 133, b"\ny", "line 2: long line"),
    (b"x &\n!", b'c', 132, b"\n", "line 2: long line"),
    (b"x &\n", b'\n', 131, b"y", "@1 x @133 y ;"),
];

fn show_text(alloc: Global, kind: &str, quote: &str, text: &Text) -> Result<String, Fail> {
    let text = text.as_str();
    if text.len() > 40 {
        let length = text.len();
        return Ok(format!(in alloc; "{kind} of {length}")?);
    }
    Ok(format!(in alloc; "{quote}{text}{quote}")?)
}

fn show_what(alloc: Global, what: &What) -> Result<String, Fail> {
    match what {
        What::Name(name) => show_text(alloc, "name", "", name),
        What::Word(word) => Ok(format!(in alloc; "{word:?}")?),
        What::Number(number) => Ok(format!(in alloc; "{number}")?),
        What::Text(text) => show_text(alloc, "text", "'", text),
        What::Sign(sign) => Ok(format!(in alloc; "{sign:?}")?),
        What::End => Ok(format!(in alloc; ";")?),
    }
}

/// What a text gives, as the tables write it.
fn show(alloc: Global, bytes: &[u8]) -> Result<String, Fail>
    requires { length bytes.now < 2 ^ 32 }
{
    let tokens = match tokens(alloc, bytes) {
        Ok(tokens) => tokens,
        Err(fault) => return Ok(format!(in alloc; "{fault}")?),
    };
    let mut shown = String::new(alloc);
    let mut line = 0;
    for token in tokens.as_slice() {
        if !shown.is_empty() {
            shown.push(' ')?;
        }
        if token.line != line {
            line = token.line;
            let number = format!(in alloc; "@{line} ")?;
            shown.push_str(number.as_str())?;
        }
        let what = show_what(alloc, &token.what)?;
        shown.push_str(what.as_str())?;
    }
    Ok(shown)
}

fn give(rt: &impl Abort, alloc: Global, rows: &[Row]) -> Result<(), Fail> {
    for (text, expected) in rows {
        assert!(rt; text.len() < 1000);
        let shown = show(alloc, text)?;
        assert_eq!(rt; shown.as_str(), *expected, "at {text:?}");
    }
    Ok(())
}

fn give_long(rt: &impl Abort, alloc: Global, rows: &[LongRow]) -> Result<(), Fail> {
    for (front, byte, times, back, expected) in rows {
        let mut text = Vec::from_slice(alloc, front)?;
        for _ in 0..*times {
            text.push(*byte)?;
        }
        text.extend_from_slice(back)?;
        assert!(rt; text.len() < 1000);
        let shown = show(alloc, text.as_slice())?;
        assert_eq!(rt; shown.as_str(), *expected, "at {text:?}");
    }
    Ok(())
}

#[test]
fn texts_give_these_tokens_or_this_first_fault(rt: HostRuntime) -> Result<(), Fail> {
    let alloc = rt.alloc();
    give(&rt, alloc, &STATEMENT_ENDS)?;
    give(&rt, alloc, &NAMES_AND_WORDS)?;
    give(&rt, alloc, &NUMBERS)?;
    give(&rt, alloc, &DOTTED_WORDS)?;
    give(&rt, alloc, &SIGNS)?;
    give(&rt, alloc, &OTHER_BYTES)?;
    give(&rt, alloc, &LINE_ENDS)?;
    give(&rt, alloc, &QUOTED)?;
    give(&rt, alloc, &CONTINUED)?;
    give(&rt, alloc, &WRONGLY_CONTINUED)?;
    give_long(&rt, alloc, &LONG)
}
