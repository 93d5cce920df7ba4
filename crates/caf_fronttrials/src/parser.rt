ghost use Rattle.std.specs.Prelude.{◌<◌, ◌^◌, length};

use caf_lexer::tokens;
use caf_parser::unit;
use caf_tree::stmt::Stmt;
use std::alloc::Global;
use std::process::Abort;
use std::test::Fail;

/// A text, and the name of its unit with the numbers of its declarations, statements and subroutines, or why it is
/// refused.
type Row = (&'static [u8], &'static str);

const PROGRAMS: [Row; 29] = [
    (
        b"program halo
  implicit none
  integer, parameter :: n = 4
  integer :: u(0:n+1)[*], total[*]
  integer :: i, me, np, s
  event :: left[*], right[*]
  me = team_rank()
  np = team_size()
  do i = 1, n
    u(i) = me * n + i
  end do
  finish
    if (me > 0) copy_async(u(n+1:n+1)[me-1], u(1:1), deste=right[me-1])
    if (me < np-1) copy_async(u(0:0)[me+1], u(n:n), deste=left[me+1])
    if (me > 0) event_wait(left)
    if (me < np-1) event_wait(right)
    s = 0
    do i = 1, n
      s = s + u(i-1) + u(i+1)
    end do
    spawn add(s)[0]
  end finish
  if (me == 0) print *, 'total', total
contains
  subroutine add(k)
    integer, intent(in) :: k
    total = total + k
  end subroutine
end program
",
        "halo 4 5 1",
    ),
    (b"program x\nend", "x 0 0 0"),
    (b"program x; end program", "x 0 0 0"),
    (b"program x; end program x", "x 0 0 0"),
    (b"program x; endprogram", "x 0 0 0"),
    (b"program x; endprogram X", "x 0 0 0"),
    (b"program x; implicit none; contains; end", "x 0 0 0"),
    (
        b"program x; integer a; logical b, c(2)[*]; integer :: d; end",
        "x 3 0 0",
    ),
    (
        b"program x; integer, parameter :: f = 1, g = f + 1; end",
        "x 1 0 0",
    ),
    (
        b"program x; logical, copointer :: p(:), q(:); end",
        "x 1 0 0",
    ),
    (
        b"program x; integer, intent(in) :: a; integer, intent(inout) :: b\nlogical, intent(in out) :: c, d; end",
        "x 3 0 0",
    ),
    (
        b"program x; integer :: a(3), b(-1:n)[*]; event :: e, f(2)[*]\nteam :: t, u; end",
        "x 3 0 0",
    ),
    (
        b"program x; a = 1; a(i) = b(1)[2 @ t]; a[0] = 1; a(1)[2] = a; end",
        "x 0 4 0",
    ),
    (
        b"program x; p => q; p => q(1)[2]; p => q(:); p => q(1:); p => q(:2)\np => q(1:2)[0 @ team_world]; end",
        "x 0 6 0",
    ),
    (
        b"program x; print *; print *, 1, 'a', .true. .eqv. a; end",
        "x 0 2 0",
    ),
    (
        b"program x; call f; call f(); call f(1); call f(a, b + 1); end",
        "x 0 4 0",
    ),
    (
        b"program x; spawn f()[0]; spawn f(1, 2)[3 @ t]; spawn(d) f()[0]\nspawn(d(1)[2]) f(1)[0]; end",
        "x 0 4 0",
    ),
    (
        b"program x; event_notify(e); call event_notify(e(1)[2]); event_wait(e)\ncall event_wait(e(1)); end",
        "x 0 4 0",
    ),
    (
        b"program x; copy_async(a, b); call copy_async(a(:)[1], b(:n), pre=e)\ncopy_async(a(n:), b(1), srce=e[1], deste=f(1), pre=g(2)); end",
        "x 0 3 0",
    ),
    (
        b"program x; cofence; cofence(); cofence(down=read)\ncofence(up=any, down=write); end",
        "x 0 4 0",
    ),
    (
        b"program x; team_split(team_world, 1, 2, t)\ncall team_split(t, i, j, u); end",
        "x 0 2 0",
    ),
    (
        b"program x; if (a) then; end if; if (a) then; b = 1; else; b = 2; endif\nif (a) b = 1; end",
        "x 0 3 0",
    ),
    (
        b"program x; if (a) then; else if (b) then; elseif (c) then; else; endif\nend",
        "x 0 1 0",
    ),
    (
        b"program x; do i = 1, 2; end do; do i = n, 1, -1; do while (a); enddo\nenddo; end",
        "x 0 2 0",
    ),
    (
        b"program x; finish; end finish; finish (t); finish (team_world)\nendfinish; endfinish; end",
        "x 0 2 0",
    ),
    (
        b"program x; contains; subroutine f; end; subroutine g(); end subroutine\nsubroutine h(a, b); implicit none; integer, intent(in) :: a, b\nprint *; endsubroutine h; end",
        "x 0 0 3",
    ),
    (
        b"program x; endif2 = 1; do_ = 2; end_ = iff; down = up; end",
        "x 0 4 0",
    ),
    (
        b"program x\nx = mod(7, 2) + abs(-a) - min(1, 2, 3) * max(a, b) / team_size(t) + team_rank()\nend",
        "x 0 1 0",
    ),
    (
        b"program x; x = (a < b) .or. .not. c .and. d == e .neqv. f; end",
        "x 0 1 0",
    ),
];

const REFUSED: [Row; 34] = [
    (b"", "line 1: syntax"),
    (b"\n! nothing\n", "line 1: syntax"),
    (b"print *, 1", "line 1: syntax"),
    (b"program", "line 1: syntax"),
    (b"program print\nend", "line 1: syntax"),
    (b"program x y\nend", "line 1: syntax"),
    (b"program x", "line 1: syntax"),
    (b"program x\n\nprint *\n", "line 3: syntax"),
    (b"program x\nend x", "line 2: syntax"),
    (b"program x\nend program y", "line 2: syntax"),
    (b"program x\nend program x x", "line 2: syntax"),
    (b"program x\nendprogram y", "line 2: syntax"),
    (b"program x\nend subroutine", "line 2: syntax"),
    (b"program x\nendsubroutine x", "line 2: syntax"),
    (b"program x\nend\nx = 1", "line 3: syntax"),
    (b"program x\nend\nend", "line 3: syntax"),
    (b"program x\nimplicit\nend", "line 2: syntax"),
    (
        b"program x\nimplicit none\nimplicit none\nend",
        "line 3: syntax",
    ),
    (
        b"program x\ninteger :: i\nimplicit none\nend",
        "line 3: syntax",
    ),
    (b"program x\ny = 1\ninteger :: y\nend", "line 3: syntax"),
    (b"program x\nsubroutine f\nend\nend", "line 2: syntax"),
    (b"program x\ncontains\ny = 1\nend", "line 3: syntax"),
    (b"program x\ncontains x\nend", "line 2: syntax"),
    (
        b"program x\ncontains\nsubroutine\nend\nend",
        "line 3: syntax",
    ),
    (
        b"program x\ncontains\nsubroutine f(\nend\nend",
        "line 3: syntax",
    ),
    (
        b"program x\ncontains\nsubroutine f(a,)\nend\nend",
        "line 3: syntax",
    ),
    (
        b"program x\ncontains\nsubroutine f(1)\nend\nend",
        "line 3: syntax",
    ),
    (
        b"program x\ncontains\nsubroutine f\nend subroutine g\nend",
        "line 4: syntax",
    ),
    (
        b"program x\ncontains\nsubroutine f\nend program\nend",
        "line 4: syntax",
    ),
    (
        b"program x\ncontains\nsubroutine f\ncontains\nend\nend",
        "line 4: syntax",
    ),
    (b"program x\ncontains\nsubroutine f\nend", "line 4: syntax"),
    (
        b"program x\ncontains\nsubroutine f\nend\ncontains\nend",
        "line 5: syntax",
    ),
    (b"program x\nif (a) then\ny = 1\nend", "line 4: syntax"),
    (b"program x\ndo i = 1, 2\nend", "line 3: syntax"),
];

/// What is refused behind the first line of a program and before its last, with the line of the first token that
/// doesn't fit.
const MISFITS: [Row; 96] = [
    (b"integer", "line 2: syntax"),
    (b"integer ::", "line 2: syntax"),
    (b"integer :: end", "line 2: syntax"),
    (b"integer :: a,", "line 2: syntax"),
    (b"integer :: a()", "line 2: syntax"),
    (b"integer :: a(:)", "line 2: syntax"),
    (b"integer :: a(1:)", "line 2: syntax"),
    (b"integer :: a(1, 2)", "line 2: syntax"),
    (b"integer :: a[1]", "line 2: syntax"),
    (b"integer :: a[*](2)", "line 2: syntax"),
    (b"integer :: a = 1", "line 2: syntax"),
    (b"integer, parameter :: n", "line 2: syntax"),
    (b"integer, parameter n = 1", "line 2: syntax"),
    (b"integer, copointer :: p", "line 2: syntax"),
    (b"integer, copointer :: p(1)", "line 2: syntax"),
    (b"integer, intent(out) :: n", "line 2: syntax"),
    (b"integer, intent(inout out) :: n", "line 2: syntax"),
    (b"integer, intent :: n", "line 2: syntax"),
    (b"integer, intent(in) :: n(2)", "line 2: syntax"),
    (b"integer, team :: n", "line 2: syntax"),
    (b"integer, :: n", "line 2: syntax"),
    (b"event e", "line 2: syntax"),
    (b"event ::", "line 2: syntax"),
    (b"team t", "line 2: syntax"),
    (b"team :: t(1)", "line 2: syntax"),
    (b"end = 1", "line 2: syntax"),
    (b"a() = 1", "line 2: syntax"),
    (b"a(:) = 1", "line 2: syntax"),
    (b"a(1)(2) = 1", "line 2: syntax"),
    (b"a[1](2) = 1", "line 2: syntax"),
    (b"a =", "line 2: syntax"),
    (b"a == 1", "line 2: syntax"),
    (b"a = 'text'", "line 2: syntax"),
    (b"a = b < c < d", "line 2: syntax"),
    (b"a = b + * c", "line 2: syntax"),
    (b"a = - - b", "line 2: syntax"),
    (b"a = b .not. c", "line 2: syntax"),
    (b"a = b + &\n )", "line 3: syntax"),
    (b"a = mod(1)", "line 2: syntax"),
    (b"a = abs(1, 2)", "line 2: syntax"),
    (b"a = min(1)", "line 2: syntax"),
    (b"a = team_rank(1)", "line 2: syntax"),
    (b"p(1) => q", "line 2: syntax"),
    (b"p => 1", "line 2: syntax"),
    (b"p => q(1:2:3)", "line 2: syntax"),
    (b"p => q()", "line 2: syntax"),
    (b"print 1", "line 2: syntax"),
    (b"print *, 1,", "line 2: syntax"),
    (b"print * 1", "line 2: syntax"),
    (b"call", "line 2: syntax"),
    (b"call print", "line 2: syntax"),
    (b"call cofence", "line 2: syntax"),
    (b"call f(", "line 2: syntax"),
    (b"call f(1,)", "line 2: syntax"),
    (b"call f(1)[2]", "line 2: syntax"),
    (b"spawn f(1)", "line 2: syntax"),
    (b"spawn f[1]", "line 2: syntax"),
    (b"spawn f(1)[]", "line 2: syntax"),
    (b"spawn f(1)[2 @ 3]", "line 2: syntax"),
    (b"spawn() f(1)[2]", "line 2: syntax"),
    (b"spawn(d)(1)[2]", "line 2: syntax"),
    (b"event_notify e", "line 2: syntax"),
    (b"event_notify()", "line 2: syntax"),
    (b"event_wait(e[1])", "line 2: syntax"),
    (b"copy_async(a)", "line 2: syntax"),
    (b"copy_async(a, b, c)", "line 2: syntax"),
    (b"copy_async(a, 1)", "line 2: syntax"),
    (b"copy_async(a, b, pre=e[1])", "line 2: syntax"),
    (b"copy_async(a, b, pre=e, &\n pre=f)", "line 3: syntax"),
    (b"cofence(down)", "line 2: syntax"),
    (b"cofence(down=all)", "line 2: syntax"),
    (b"cofence(read)", "line 2: syntax"),
    (b"cofence(down=read, down=any)", "line 2: syntax"),
    (b"team_split(t, 1, 2)", "line 2: syntax"),
    (b"team_split(t, 1, 2, team_world)", "line 2: syntax"),
    (b"team_split(1, 1, 2, t)", "line 2: syntax"),
    (b"if (a) finish", "line 2: syntax"),
    (b"if (a) if (b) c = 1", "line 2: syntax"),
    (b"if a then", "line 2: syntax"),
    (b"if (a) then b = 1\nend if", "line 2: syntax"),
    (b"if (a) then\nend do", "line 3: syntax"),
    (b"if (a) then\nelse\nelse\nend if", "line 4: syntax"),
    (
        b"if (a) then\nelse\nelse if (b) then\nend if",
        "line 4: syntax",
    ),
    (b"if (a) then\nelse if (b)\nend if", "line 3: syntax"),
    (b"if (a) then\nb = 1\nend if if", "line 4: syntax"),
    (b"else", "line 2: syntax"),
    (b"end if", "line 2: syntax"),
    (b"do i = 1\nend do", "line 2: syntax"),
    (b"do i = 1, 2, 3, 4\nend do", "line 2: syntax"),
    (b"do i(1) = 1, 2\nend do", "line 2: syntax"),
    (b"do\nend do", "line 2: syntax"),
    (b"do while a\nend do", "line 2: syntax"),
    (b"do i = 1, 2\n\nend if", "line 4: syntax"),
    (b"finish ()\nend finish", "line 2: syntax"),
    (b"finish (1)\nend finish", "line 2: syntax"),
    (b"finish\nend do", "line 3: syntax"),
];

fn shown(alloc: Global, text: &[u8]) -> Result<String, Fail>
    requires { length text.now < 2 ^ 32 }
{
    let tokens = tokens(alloc, text)?;
    match unit(alloc, tokens.as_slice()) {
        Ok(unit) => {
            let name = unit.name.as_str();
            let declarations = unit.declarations.len();
            let statements = unit.body.len();
            let subs = unit.subs.len();
            Ok(format!(in alloc; "{name} {declarations} {statements} {subs}")?)
        }
        Err(fault) => Ok(format!(in alloc; "{fault}")?),
    }
}

/// These rows, each behind these bytes and before those.
fn give(
    rt: &impl Abort,
    alloc: Global,
    front: &[u8],
    rows: &[Row],
    back: &[u8],
) -> Result<(), Fail> {
    for (text, expected) in rows {
        let mut whole = Vec::from_slice(alloc, front)?;
        whole.extend_from_slice(text)?;
        whole.extend_from_slice(back)?;
        assert!(rt; whole.len() < 2000);
        let shown = shown(alloc, whole.as_slice())?;
        assert_eq!(rt; shown.as_str(), *expected, "at {text:?}");
    }
    Ok(())
}

#[test]
fn programs_are_read_or_refused_at_the_first_token_that_does_not_fit(
    rt: HostRuntime,
) -> Result<(), Fail> {
    let alloc = rt.alloc();
    give(&rt, alloc, b"", &PROGRAMS, b"")?;
    give(&rt, alloc, b"", &REFUSED, b"")?;
    give(&rt, alloc, b"program x\n", &MISFITS, b"\nend\n")
}

/// What is opened over and over, what stands inside, and what closes it.
type Levels = (&'static [u8], &'static [u8], &'static [u8]);

const PARENTHESES: Levels = (b"(&\n", b"1&\n", b")&\n");

const BRACKETS: Levels = (b"a[&\n", b"1&\n", b"]&\n");

const SUBSCRIPTS: Levels = (b"a(&\n", b"1&\n", b")&\n");

const ARGUMENTS: Levels = (b"mod(1,&\n", b"1&\n", b")&\n");

const IFS: Levels = (b"if (a) then\n", b"", b"end if\n");

const ELSE_IFS: Levels = (b"else if (a) then\n", b"", b"");

const LOOPS: Levels = (b"do i = 1, 2\n", b"", b"end do\n");

const WHILES: Levels = (b"do while (a)\n", b"", b"enddo\n");

const FINISHES: Levels = (b"finish\n", b"", b"endfinish\n");

const INNER: Levels = (b"if (a) then\n", b"x = ((1))\n", b"end if\n");

const LINES: Levels = (b"finish\n", b"if ((a)) x = b(1)\n", b"end finish\n");

/// The text in front, the levels, how many of them, the text behind, and what is shown.
type Nest = (&'static [u8], Levels, u32, &'static [u8], &'static str);

const NESTS: [Nest; 22] = [
    (b"x = ", PARENTHESES, 100, b"+ 1\n", "x 0 1 0"),
    (b"x = ", PARENTHESES, 101, b"+ 1\n", "line 103: deep"),
    (b"x = ", BRACKETS, 100, b"+ 1\n", "x 0 1 0"),
    (b"x = ", BRACKETS, 101, b"+ 1\n", "line 103: deep"),
    (b"x = ", SUBSCRIPTS, 100, b"+ 1\n", "x 0 1 0"),
    (b"x = ", SUBSCRIPTS, 101, b"+ 1\n", "line 103: deep"),
    (b"x = ", ARGUMENTS, 100, b"+ 1\n", "x 0 1 0"),
    (b"x = ", ARGUMENTS, 101, b"+ 1\n", "line 102: deep"),
    (b"", IFS, 100, b"", "x 0 1 0"),
    (b"", IFS, 101, b"", "line 102: deep"),
    (b"if (a) then\n", ELSE_IFS, 99, b"end if\n", "x 0 1 0"),
    (
        b"if (a) then\n",
        ELSE_IFS,
        100,
        b"end if\n",
        "line 102: deep",
    ),
    (b"", LOOPS, 100, b"", "x 0 1 0"),
    (b"", LOOPS, 101, b"", "line 103: deep"),
    (b"", WHILES, 100, b"", "x 0 1 0"),
    (b"", WHILES, 101, b"", "line 102: deep"),
    (b"", FINISHES, 100, b"", "x 0 1 0"),
    (b"", FINISHES, 101, b"", "line 103: deep"),
    (b"", INNER, 98, b"", "x 0 1 0"),
    (b"", INNER, 99, b"", "line 101: deep"),
    (b"", LINES, 98, b"", "x 0 1 0"),
    (b"", LINES, 99, b"", "line 101: deep"),
];

fn nested(alloc: Global, levels: Levels, count: u32) -> Result<Vec<u8>, Fail> {
    let (opens, inside, closes) = levels;
    let mut text = Vec::new(alloc);
    for _ in 0..count {
        text.extend_from_slice(opens)?;
    }
    text.extend_from_slice(inside)?;
    for _ in 0..count {
        text.extend_from_slice(closes)?;
    }
    Ok(text)
}

/// A program with these levels in it.
fn program(alloc: Global, front: &[u8], inside: &[u8], back: &[u8]) -> Result<Vec<u8>, Fail> {
    let mut text = Vec::from_slice(alloc, b"program x\n")?;
    text.extend_from_slice(front)?;
    text.extend_from_slice(inside)?;
    text.extend_from_slice(back)?;
    text.extend_from_slice(b"end\n")?;
    Ok(text)
}

fn try_levels(rt: &impl Abort, alloc: Global, nest: &Nest) -> Result<(), Fail> {
    let (front, levels, count, back, expected) = *nest;
    let inside = nested(alloc, levels, count)?;
    let text = program(alloc, front, inside.as_slice(), back)?;
    assert!(rt; text.len() < 10000);
    let shown = shown(alloc, text.as_slice())?;
    assert_eq!(rt; shown.as_str(), expected, "at {count} behind {front:?}");
    Ok(())
}

#[test]
fn a_hundred_levels_are_open_at_most(rt: HostRuntime) -> Result<(), Fail> {
    let alloc = rt.alloc();
    for nest in &NESTS {
        try_levels(&rt, alloc, nest)?;
    }
    Ok(())
}

#[test]
fn a_statement_has_the_line_of_its_first_token(rt: HostRuntime) -> Result<(), Fail> {
    let alloc = rt.alloc();
    let tokens = tokens(
        alloc,
        b"program x\nif (a) then\n\nelse if (b) then\nend if\nif (a) &\n x = 1\nend",
    )?;
    let unit = unit(alloc, tokens.as_slice())?;
    let [
        Stmt::If { otherwise, .. },
        Stmt::IfLine {
            line,
            action_line,
            ..
        },
    ] = unit.body.as_slice()
    else {
        panic!(rt; "not two `if`");
    };
    assert!(rt; matches!(otherwise.as_slice(), [Stmt::If { line: 4, .. }]));
    assert_eq!(rt; (*line, *action_line), (6, 7));
    Ok(())
}
