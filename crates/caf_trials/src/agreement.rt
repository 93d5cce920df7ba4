//! The code of programs beside their trees, Step by Step: both do the same, and what they do is what was worked out by hand.

mod by_code;
mod by_tree;
mod pair;
mod read;
mod same;
mod story;
mod trail;

use caf_codegen::compile;
use read::accepted;
use std::alloc::Global;
use std::process::Abort;
use std::test::Fail;
use story::story;

/// The image that runs a program, how many there are, the program's statements and subroutines, and what its tasks do.
type Row = (u32, u32, &'static str, &'static str);

/// What the tasks of a program do at an image.
fn told<R: Abort>(
    rt: &R,
    alloc: Global,
    image: u32,
    images: u32,
    body: &str,
) -> Result<String, Fail> {
    assert!(rt; image < images);
    let a = accepted(rt, alloc, body)?;
    let code = compile(alloc, &a)?;
    Ok(story(alloc, &a, &code, image, images)?)
}

fn expect<R: Abort>(rt: &R, alloc: Global, rows: &[Row]) -> Result<(), Fail> {
    for (image, images, body, wanted) in rows {
        let found = told(rt, alloc, *image, *images, body)?;
        assert_eq!(rt; found.as_str(), *wanted, "{body}");
    }
    Ok(())
}

/// Each form of an expression.
const EXPRESSIONS: [Row; 10] = [
    (0, 1, "print *, 2+3*4", "1 x E|14"),
    (
        0,
        1,
        "print *, 1-2-3, -2*3+10, -7/2, mod(-7,2), 7/(-2), abs(-7), min(3,0,2), max(-1,4), +5, 8/4/2",
        "1 x E|-4 4 -3 -1 -3 7 0 4 5 1",
    ),
    (
        0,
        1,
        "print *, 1==2, 1/=2, 1<2, 2<=1, 2>1, 1>=1, 1 .eq. 1, 1 .ne. 1, 1 .lt. 1, 1 .le. 1, 1 .gt. 0, 0 .ge. 1",
        "1 x E|F T T F T T T F F T T F",
    ),
    (
        0,
        1,
        "print *, .true. .and. .false., .true. .or. .false., .not. .true., .true. .eqv. .false., .true. .neqv. .false.
print *, .false. .or. .true. .and. .false., .not. 1 > 2 .and. 3 >= 3, .true. .eqv. .false. .or. .true.",
        "2 x E|F T F F T|F T T",
    ),
    (
        1,
        3,
        "i = 3; b(i) = 10; b(0) = b(3) - two; l = b(0) == 8; m(1) = .not. l; c = team_size()
print *, i, b(0), b(3), l, m(1), c, team_rank()",
        "7 x E|3 8 10 T F 3 1",
    ),
    (
        0,
        1,
        "print *; print *, 'it''s', \"say\", ''; print *, -5, 'a;b', 'c&d!'",
        "3 x E||it's say |-5 a;b c&d!",
    ),
    (
        0,
        1,
        "h(9223372036854775807) = 3; print *, h(9223372036854775806), h(9223372036854775807); j = h(0)",
        "2 T1|0 3",
    ),
    (
        0,
        1,
        "i = 9223372036854775807; j = -i - 1
print *, j, mod(j, -1), mod(j, 7), j / i, mod(-9, 4), max(j, i, 0), min(i, 0, j)",
        "3 x E|-9223372036854775808 0 -1 -1 -1 9223372036854775807 -9223372036854775808",
    ),
    (
        0,
        1,
        "i = 2; print *, abs(mod(-b(i), max(i, 3))) + min(-i * two, i - 9) * (1 - (2 - 3)), -(i + 1) * 4 + 2",
        "2 x E|-14 -10",
    ),
    (
        0,
        1,
        "l = .true.; m(2) = l .neqv. m(1); l = .not. (l .and. .not. m(2)) .or. m(1); print *, l, m(2), m(1) .eqv. l",
        "4 x E|T T F",
    ),
];

#[test]
fn expressions_are_worth_the_same(rt: HostRuntime) -> Result<(), Fail> {
    expect(&rt, rt.alloc(), &EXPRESSIONS)
}

/// Choices and loops.
const FLOW: [Row; 12] = [
    (
        0,
        1,
        "do i = 5, 1; print *, 'never'; end do; print *, i; do i = 1, 5, 2; end do; print *, i",
        "7 x E|5|7",
    ),
    (
        0,
        1,
        "j = 3; do i = 10, 1, -4; j = j + i; end do; print *, i, j",
        "9 x E|-2 21",
    ),
    (
        0,
        1,
        "i = 9; do while (i > 1); i = i / 2; end do; print *, i",
        "9 x E|1",
    ),
    (
        0,
        1,
        "do i = -1, 1; if (i < 0) then; print *, 'less'; else if (i == 0) then; print *, 'none'
else; print *, 'more'; end if; if (i > 0) print *, i; end do",
        "16 x E|less|none|more|1",
    ),
    (
        0,
        1,
        "if (l) then; i = 1; elseif (i > 0) then; i = 2; endif; if (.not. l) then; if (i == 0) i = 3; end if; print *, i",
        "6 x E|3",
    ),
    (
        0,
        1,
        "if (i == 0) then; else; i = 5; end if; do while (i < 0); enddo; do j = 1, 2; enddo; finish; endfinish; print *, i, j",
        "5 f1 x 1 x E|0 3",
    ),
    (
        0,
        1,
        "do i = 1, 2; do j = i, 2; b(j) = b(j) + i; end do; end do; print *, b(1), b(2), i, j",
        "12 x E|1 3 3 3",
    ),
    (
        0,
        1,
        "do i = -9223372036854775807, 9223372036854775807, 9223372036854775807; j = j + 1; end do",
        "6 T2",
    ),
    (
        0,
        1,
        "do i = 9223372036854775806, 9223372036854775807; print *, i; end do",
        "4 T2|9223372036854775806|9223372036854775807",
    ),
    (
        0,
        1,
        "j = 2; do i = 1, j, j - 1; j = 9; end do; print *, i, j",
        "7 x E|3 9",
    ),
    (
        0,
        1,
        "do i = 1, 5, -1; end do; print *, i; do i = 3, 3, -1; end do; print *, i",
        "5 x E|1|2",
    ),
    // A line of 255 bytes and its end: 256 of them fit.
    (
        0,
        1,
        "j = -9223372036854775807; do i = 1, 999; print *, j, j, j, j, j, j, j, j, j, j, j, j, 333; end do",
        "514 T13|+256",
    ),
];

#[test]
fn choices_and_loops_go_the_same_way(rt: HostRuntime) -> Result<(), Fail> {
    expect(&rt, rt.alloc(), &FLOW)
}

/// Calls, and what they copy in and out.
const CALLS: [Row; 9] = [
    (
        0,
        1,
        "i = 1; call add(5, a(i), i); print *, j, a(1), a(2), i
contains
subroutine add(n, el, at)
integer, intent(in) :: n
integer, intent(inout) :: el, at
integer :: w
w = 2 * n; at = 2; el = el + w; j = j + n; print *, a(1), i, el, at
end subroutine add",
        "9 x E|0 1 10 2|5 10 0 2",
    ),
    (
        0,
        1,
        "call f(3, j); print *, j
contains
subroutine f(n, r)
integer, intent(in) :: n
integer, intent(inout) :: r
if (n > 0) then; call f(n - 1, r); r = r + n; end if
end subroutine",
        "16 x E|6",
    ),
    (
        0,
        1,
        "i = 7; call g; print *, i
contains
subroutine g
integer :: i
logical :: ok
integer, parameter :: k = 4
do i = 1, k, 2; ok = i == 3; end do; print *, i, ok
end subroutine",
        "10 x E|5 T|7",
    ),
    (
        0,
        1,
        "call even(3, l); print *, l
contains
subroutine even(n, r)
integer, intent(in) :: n
logical, intent(inout) :: r
if (n == 0) then; r = .true.; else; call odd(n - 1, r); end if
end subroutine
subroutine odd(n, r)
integer, intent(in) :: n
logical, intent(in out) :: r
if (n == 0) then; r = .false.; else; call even(n - 1, r); end if
end subroutine",
        "14 x E|F",
    ),
    (
        0,
        1,
        "call f(i, i, b(i)); print *, i, b(0), b(2)
contains
subroutine f(x, y, z)
integer, intent(inout) :: x, y, z
x = 1; y = 2; z = 7
end subroutine",
        "6 x E|2 7 0",
    ),
    (
        0,
        1,
        "call f(1); print *, b(1), b(2)
contains
subroutine f(k)
integer, intent(in) :: k
integer :: w
w = k; call g(w, b(w)); print *, w
end
subroutine g(x, y)
integer, intent(in out) :: x, y
x = x + 1; y = x
end",
        "9 x E|2|2 0",
    ),
    (
        0,
        1,
        "call f()
contains
subroutine f()
integer :: k
do k = 1, 2; finish; print *, k; end finish; end do
endsubroutine f",
        "2 f1 1 x 1 f1 1 x 2 x E|1|2",
    ),
    (
        0,
        1,
        "call f(1)
contains
subroutine f(n)
integer, intent(in) :: n
if (n < 300) call f(n + 1)
end subroutine",
        "400 T7",
    ),
    (
        1,
        3,
        "call f(c[0], b(c[2])); print *, b(0)
contains
subroutine f(x, y)
integer, intent(in) :: x
integer, intent(inout) :: y
y = x + c[1]
end subroutine",
        "r0:1 r2:1 1 r1:1 3 x E|3",
    ),
];

#[test]
fn calls_copy_the_same_in_and_out(rt: HostRuntime) -> Result<(), Fail> {
    expect(&rt, rt.alloc(), &CALLS)
}

/// Traps of numbers, divisors, subscripts and steps of loops.
const TRAPS: [Row; 29] = [
    (
        0,
        1,
        "i = 9223372036854775807; print *, i; i = i + 1",
        "2 T2|9223372036854775807",
    ),
    (
        0,
        1,
        "i = -9223372036854775807 - 1; print *, i; i = -i",
        "2 T2|-9223372036854775808",
    ),
    (0, 1, "i = -9223372036854775807 - 1; i = abs(i)", "1 T2"),
    (0, 1, "i = -9223372036854775807 - 1; i = i / (-1)", "1 T2"),
    (0, 1, "i = -9223372036854775807 - 2", "T2"),
    (0, 1, "print *, 'a', 4611686018427387904 * 2", "T2"),
    (0, 1, "print *, 1 / i", "T3"),
    (0, 1, "l = .true. .or. mod(1, i) > 0", "T3"),
    (0, 1, "b(4) = 1 / i", "T3"),
    (0, 1, "b(4) = 1", "T1"),
    (0, 1, "b(1 / i) = b(4)", "T3"),
    (0, 1, "m(3) = l", "T1"),
    (0, 1, "if (b(-1) > 0) print *, 1", "T1"),
    (
        0,
        1,
        "if (l) then; else if (1 / j > 0) then; end if",
        "1 T3",
    ),
    (
        0,
        1,
        "i = 1; do while (1 / i > 0); i = i - 1; end do",
        "3 T3",
    ),
    (0, 1, "do i = b(4), 1 / j, 0; end do", "T1"),
    (0, 1, "do i = 1, 1 / j, 0; end do", "T3"),
    (0, 1, "do i = 1, 5, j; end do", "T9"),
    (0, 1, "print *, 1 / i, b(9)", "T3"),
    (0, 1, "print *, b(9), 1 / i", "T1"),
    (0, 1, "print *, min(1 / i, b(9))", "T3"),
    (0, 1, "print *, -(b(9) / i)", "T1"),
    (0, 1, "print *, 1 + b(9) * (2 / i)", "T1"),
    (0, 1, "l = 1 / i > 0 .and. b(9) > 0", "T3"),
    (
        0,
        1,
        "call f(b(4), 1 / j)
contains
subroutine f(x, y)
integer, intent(in) :: x, y
end",
        "T1",
    ),
    (
        0,
        1,
        "call f(1 / j, b(4))
contains
subroutine f(x, y)
integer, intent(in) :: x
integer, intent(inout) :: y
end",
        "T3",
    ),
    (
        0,
        1,
        "call f(j, b(7))
contains
subroutine f(x, y)
integer, intent(inout) :: x, y
end",
        "T1",
    ),
    (
        0,
        1,
        "call f(2)
contains
subroutine f(n)
integer, intent(in) :: n
print *, n, 10 / (n - 2)
end",
        "1 T3",
    ),
    (
        0,
        1,
        "call f
contains
subroutine f
integer :: k
do k = 9223372036854775807, 9223372036854775807; end do
end",
        "2 T2",
    ),
];

#[test]
fn expressions_and_loops_trap_alike(rt: HostRuntime) -> Result<(), Fail> {
    expect(&rt, rt.alloc(), &TRAPS)
}

/// Elements at places, teams, and reads in each statement.
const PLACES: [Row; 17] = [
    (
        1,
        3,
        "i = a(2)[2] + a(3)[0]; print *, i",
        "r2:2 r0:3 2 x E|5",
    ),
    (
        1,
        3,
        "a(2) = 9; print *, a(2)[1], a(2), c[team_rank()]",
        "1 r1:2 r1:1 1 x E|5 9 0",
    ),
    (
        1,
        3,
        "print *, a(a(1)[0] - 3)[c[2] + 1]",
        "r0:1 r2:1 r1:2 1 x E|-2",
    ),
    (
        1,
        3,
        "a(2)[2] = 7; c[0] = a(2) + 3; print *, c",
        "w2:2=7 w0:1=3 1 x E|0",
    ),
    (1, 3, "a(c[0] - 4)[2] = a(3)[0] + 1", "r0:1 r0:3 w2:1=1 x E"),
    (
        1,
        3,
        "c[0] = c[0] + c[2]; c[c[1] + 2] = 4",
        "r0:1 r2:1 w0:1=5 r1:1 w0:1=4 x E",
    ),
    (
        1,
        3,
        "b(c[0] - 5) = b(c[2]) + 1; print *, b(0)",
        "r0:1 r2:1 2 x E|1",
    ),
    (
        1,
        3,
        "l = m(2)[0] .and. m(1)[2]; m(1)[0] = l .or. m(2)[2]; print *, l",
        "r0:2 r2:1 1 r2:2 w0:1=1 1 x E|F",
    ),
    (
        1,
        3,
        "team_split(team_world, 1, 2, t); c[0 @ t] = 4
print *, a(1)[1 @ t], team_rank(t), team_size(t), c[2 @ team_world]",
        "a3:1,2 w2:1=4 r1:1 r2:1 1 x E|5 1 2 0",
    ),
    (
        1,
        3,
        "call team_split(team_world, 1, 2, t); team_split(t, -3, 4, u); print *, team_rank(u), team_size(), team_rank(team_world)",
        "a3:1,2 a2:-3,4 1 x E|1 3 1",
    ),
    (
        1,
        3,
        "team_split(team_world, c[0], -c[2], t); team_split(team_world, 9, 9, t); print *, team_size(t)",
        "r0:1 r2:1 a3:5,0 a3:9,9 1 x E|2",
    ),
    (
        2,
        3,
        "team_split(team_world, 0, 0, t); print *, team_rank(t), team_size(t)",
        "a3:0,0 1 x E|0 1",
    ),
    (
        0,
        1,
        "c[0] = 5; print *, c[0], a(1)[team_size() - 1]; team_split(team_world, 1, 1, t); c[0 @ t] = team_rank(t)",
        "w0:1=5 r0:1 r0:1 1 a1:1,1 w0:1=0 x E|5 0",
    ),
    (1, 3, "do i = c[0], 6; end do; print *, i", "r0:1 4 x E|7"),
    (
        1,
        3,
        "do while (c[0] > 0); i = i + 1; end do",
        "r0:1 2 r0:1 1 x E",
    ),
    (
        1,
        3,
        "if (c[0] == 0) then; else if (c[2] == 0) then; print *, 'second'; end if",
        "r0:1 1 r2:1 2 x E|second",
    ),
    (
        1,
        3,
        "print *, 'x', c[0], b(c[2] + 1), .not. m(1)[0]",
        "r0:1 r2:1 r0:1 1 x E|x 5 0 F",
    ),
];

#[test]
fn elements_at_places_are_read_and_written_alike(rt: HostRuntime) -> Result<(), Fail> {
    expect(&rt, rt.alloc(), &PLACES)
}

/// Traps of places, ranks and teams.
const RANKS: [Row; 21] = [
    (1, 3, "print *, a(4)[9]", "T1"),
    (1, 3, "print *, a(1)[9 @ t]", "T11"),
    (1, 3, "print *, a(1)[3]", "T4"),
    (1, 3, "print *, c[-1]", "T4"),
    (1, 3, "print *, a(4)[1 / i]", "T3"),
    (1, 3, "print *, a(1 / i)[c[0]]", "r0:1 T3"),
    (1, 3, "print *, c[0] / c[2]", "r0:1 r2:1 T3"),
    (1, 3, "print *, b(9), c[0]", "r0:1 T1"),
    (
        1,
        3,
        "i = c[0] + c[1] + c[2] + c[0]",
        "r0:1 r1:1 r2:1 r0:1 T2",
    ),
    (1, 3, "a(4)[9] = 1", "T1"),
    (1, 3, "a(1)[9 @ t] = 1", "T11"),
    (1, 3, "c[3] = 1", "T4"),
    (1, 3, "c[3] = 1 / i", "T3"),
    (1, 3, "print *, team_rank(t)", "T11"),
    (1, 3, "if (team_size(t) > 1 / i) print *", "T11"),
    (1, 3, "team_split(t, 1, 2, u)", "T11"),
    (1, 3, "team_split(t, 1 / i, 2, u)", "T3"),
    (1, 3, "team_split(team_world, 1, b(9), u)", "T1"),
    (1, 3, "i = 1; finish (t); i = 2; end finish", "1 T11"),
    (
        1,
        3,
        "team_split(team_world, 0, 0, t); print *, c[2 @ t]",
        "a3:0,0 T4",
    ),
    (
        1,
        3,
        "team_split(team_world, 0, 0, t); c[-1 @ t] = 1",
        "a3:0,0 T4",
    ),
];

#[test]
fn places_trap_alike(rt: HostRuntime) -> Result<(), Fail> {
    expect(&rt, rt.alloc(), &RANKS)
}

/// Copointers.
const COPOINTERS: [Row; 19] = [
    (
        1,
        3,
        "p => a(2:3)[2]; print *, p(1), p(2); p(2) = 8",
        "1 r2:2 r2:3 1 w2:3=8 x E|5 0",
    ),
    (
        1,
        3,
        "p => a; p(3) = 1; p => a(3); p(1) = 2; p => c[2]; p(1) = 3; p => a(:2)[0]; p(2) = 4; p => a(2:)[0]; p(2) = 5",
        "1 w1:3=1 1 w1:3=2 1 w2:1=3 1 w0:2=4 1 w0:3=5 x E",
    ),
    (
        1,
        3,
        "q => m[2]; l = .not. q(2); q(1) = l; print *, l",
        "1 r2:2 1 w2:1=0 1 x E|F",
    ),
    (
        1,
        3,
        "p => a(c[0] - 4:c[2] + 2)[c[1] + 2]; p(p(1)) = p(2)",
        "r0:1 r2:1 r1:1 1 r0:1 r0:2 T1",
    ),
    (
        1,
        3,
        "p => a(1:3)[2]; p(p(1) - 3) = p(2) + 1",
        "1 r2:1 r2:2 w2:2=1 x E",
    ),
    (
        1,
        3,
        "p => big(1:300)[0]; p(300) = 1; p => h(9223372036854775807:)[0]; p(1) = 2; print *, p(2)",
        "1 w0:300=1 1 w0:9223372036854775807=2 T1",
    ),
    (
        1,
        3,
        "team_split(team_world, 0, 0, t); p => a(1:2)[0 @ t]; p(2) = 1",
        "a3:0,0 1 w2:2=1 x E",
    ),
    (
        1,
        3,
        "p => a[0]; call f
contains
subroutine f
p(2) = p(1)
end",
        "2 r0:1 w0:2=5 1 x E",
    ),
    (1, 3, "p => a(9:1)[0]; print *, p(1)", "1 T1"),
    (1, 3, "p => a(1:2); p(0) = 1", "1 T1"),
    (1, 3, "print *, p(1)", "T12"),
    (1, 3, "print *, p(1 / i)", "T3"),
    (1, 3, "p(1) = 1", "T12"),
    (1, 3, "p(1) = 1 / i", "T3"),
    (1, 3, "p => a(0:1)[9]", "T1"),
    (1, 3, "p => a(1:2)[9]", "T4"),
    (1, 3, "p => a(1:2)[9 @ t]", "T11"),
    (1, 3, "p => a(1:4)", "T1"),
    (1, 3, "p => a(1 / i:)[0]", "T3"),
];

#[test]
fn copointers_reach_the_same(rt: HostRuntime) -> Result<(), Fail> {
    expect(&rt, rt.alloc(), &COPOINTERS)
}

/// Copies.
const COPIES: [Row; 25] = [
    (
        1,
        3,
        "copy_async(a[2], b(1:3)); copy_async(c, c[0]); call copy_async(m(1:1)[0], l)",
        "c2:1+3<1:1+3 c1:1+1<0:1+1 c0:1+1<1:1+1 x E",
    ),
    (
        1,
        3,
        "copy_async(a(2:2)[0], c, pre=e, srce=d(1)[0], deste=d(2))",
        "c0:2+1<1:1+1 p1:1 s0:1 d1:2 x E",
    ),
    (
        1,
        3,
        "copy_async(c, a(3)[2], deste=d(2)[2], pre=d(1), srce=e)",
        "c1:1+1<2:3+1 p1:1 s1:1 d2:2 x E",
    ),
    (
        1,
        3,
        "copy_async(c, c, srce=e, deste=e, pre=e)",
        "c1:1+1<1:1+1 p1:1 s1:1 d1:1 x E",
    ),
    (
        1,
        3,
        "copy_async(a(c[0]-4:)[0], b(:c[2]+2), srce=d(1)[c[0]+4])",
        "r0:1 r2:1 r0:1 c0:1+3<1:0+3 s2:1 x E",
    ),
    (
        1,
        3,
        "p => a(2:3)[0]; copy_async(p, b(0:1)); copy_async(b(2:), p(1:2)); copy_async(p(2), c); copy_async(p(:1), p(2:))",
        "1 c0:2+2<1:0+2 c1:2+2<0:2+2 c0:3+1<1:1+1 c0:2+1<0:3+1 x E",
    ),
    (
        1,
        3,
        "copy_async(a(3:1)[0], b(9:2)); copy_async(b(4:), a(:0)[2])",
        "c0:+0<1:+0 c1:+0<2:+0 x E",
    ),
    (
        1,
        3,
        "copy_async(big(1:256)[0], big(45:300)); copy_async(big, a(1:2)[9])",
        "c0:1+256<1:45+256 T6",
    ),
    (1, 3, "copy_async(a[0], b(0:1))", "T6"),
    (1, 3, "copy_async(a(0:1)[9], big)", "T1"),
    (1, 3, "copy_async(a(1:2)[9], big)", "T4"),
    (1, 3, "copy_async(a(1:2)[9 @ t], big)", "T11"),
    (1, 3, "copy_async(big[9], a)", "T6"),
    (1, 3, "copy_async(a(1:2), a(2:4))", "T1"),
    (1, 3, "copy_async(p, p(2:))", "T12"),
    (1, 3, "copy_async(a(1:2)[7], p)", "T4"),
    (1, 3, "copy_async(a(1:2), p)", "T12"),
    (1, 3, "p => a(1:2)[0]; copy_async(p(2:3), a(1:2))", "1 T1"),
    (1, 3, "p => big[0]; copy_async(p, p)", "1 T6"),
    (1, 3, "copy_async(a(1:2), b(1:3), pre=d(3))", "T6"),
    (
        1,
        3,
        "copy_async(a(1:2), b(1:2), srce=d(1)[9], pre=d(3))",
        "T1",
    ),
    (1, 3, "copy_async(a(1:2), b(1:2), srce=d(1)[9])", "T4"),
    (
        1,
        3,
        "copy_async(a(1:2), b(1:2), deste=d(1)[0 @ t], srce=d(0))",
        "T1",
    ),
    (1, 3, "copy_async(a(1:2), b(1:2), deste=d(1)[0 @ t])", "T11"),
    (1, 3, "copy_async(a(9:10)[0], b, deste=d(1 / i))", "T3"),
];

#[test]
fn copies_begin_alike(rt: HostRuntime) -> Result<(), Fail> {
    expect(&rt, rt.alloc(), &COPIES)
}

/// Events, fences and finishes.
const MESSAGES: [Row; 17] = [
    (
        1,
        3,
        "event_notify(d(2)[0]); event_notify(e); event_wait(e); event_wait(e); call event_wait(d(2))",
        "n0:2 n1:1 e1 2 e2 1 x E",
    ),
    (
        1,
        3,
        "call event_notify(d(c[0] - 3)[c[2]]); event_wait(d(c[0] + 3))",
        "r0:1 r2:1 n0:2 r0:1 e1 1 x E",
    ),
    (
        1,
        3,
        "team_split(team_world, 0, 0, t); event_notify(d(1)[0 @ t]); event_notify(d(1)[0 @ team_world])",
        "a3:0,0 n2:1 n0:1 x E",
    ),
    (
        0,
        1,
        "event_wait(d(1)); cofence; cofence()",
        "e1 1 k k k 2 x E",
    ),
    (
        1,
        3,
        "copy_async(c[0], c); cofence; c = 2; cofence",
        "c0:1+1<1:1+1 k k k 3 x E",
    ),
    (
        1,
        3,
        "finish; i = 1; finish; i = 2; end finish; end finish; print *, i",
        "f3 1 f3 1 x x 1 x E|2",
    ),
    (
        1,
        3,
        "team_split(team_world, 0, 0, t); finish (t); finish (team_world); print *, 1; end finish; end finish",
        "a3:0,0 f2 f3 1 x x x E|1",
    ),
    (
        1,
        3,
        "do i = 1, 2; finish; end finish; end do",
        "1 f3 x 1 f3 x 1 x E",
    ),
    (
        1,
        3,
        "finish; if (i == 0) then; finish; j = 1; end finish; end if; end finish",
        "f3 1 f3 1 x x x E",
    ),
    (1, 3, "finish; i = 1 / i; end finish", "f3 T3"),
    (
        1,
        3,
        "finish; if (team_rank() > 0) copy_async(a(3:3)[team_rank()-1], b(1:1), deste=d(1)[team_rank()-1])
if (team_rank() < team_size()-1) copy_async(a(1:1)[team_rank()+1], b(2:2), deste=d(2)[team_rank()+1])
if (team_rank() > 0) event_wait(d(2)); end finish",
        "f3 1 c0:3+1<1:1+1 d0:1 1 c2:1+1<1:2+1 d2:2 1 e2 1 x x E",
    ),
    (1, 3, "event_notify(d(3)[9])", "T1"),
    (1, 3, "event_notify(d(3)[1 / i])", "T3"),
    (1, 3, "event_notify(d(1)[9])", "T4"),
    (1, 3, "event_notify(d(1)[0 @ t])", "T11"),
    (1, 3, "event_wait(d(0))", "T1"),
    (1, 3, "event_wait(d(1 / i))", "T3"),
];

#[test]
fn events_fences_and_finishes_are_met_alike(rt: HostRuntime) -> Result<(), Fail> {
    expect(&rt, rt.alloc(), &MESSAGES)
}

/// Ships, and the tasks that they become.
const SHIPS: [Row; 10] = [
    (
        1,
        3,
        "spawn f(7, l)[2]; spawn f(c[0], c[2] < 1)[c[0] + 4]
contains
subroutine f(k, ok)
integer, intent(in) :: k
logical, intent(in) :: ok
print *, k, ok, team_rank()
end",
        "s2:0,7,0 r0:1 r2:1 r0:1 s2:0,5,1 x E; 1 E|7 F 2; 1 E|5 T 2",
    ),
    (
        1,
        3,
        "spawn f(1)[1]
contains
subroutine f(n)
integer, intent(in) :: n
if (n < 3) spawn f(n + 1)[n + 1]
print *, n
end",
        "s1:0,1 x E; 1 s2:0,2 1 E|1; 1 T4",
    ),
    (
        1,
        3,
        "spawn f(4)[0]
contains
subroutine f(n)
integer, intent(in) :: n
integer :: k, s
do k = 1, n, 2; call g(k, s); end do; print *, s, j
end
subroutine g(k, s)
integer, intent(in) :: k
integer, intent(inout) :: s
s = s + k; j = j + 1
end",
        "s0:0,4 x E; 12 E|4 2",
    ),
    (
        1,
        3,
        "spawn f()[0]
contains
subroutine f()
c[2] = c[1]; event_notify(d(1)[2]); event_wait(d(1)); copy_async(c[1], c, deste=e); cofence; p => a[2]; p(1) = 3
end",
        "s0:0 x E; r1:1 w2:1=5 n2:1 e1 1 c1:1+1<0:1+1 d0:1 k k k 2 w2:1=3 E",
    ),
    (
        1,
        3,
        "team_split(team_world, 0, 0, t); spawn g()[0 @ t]; spawn g()[1 @ t]
contains
subroutine g()
print *, team_rank(t)
end",
        "a3:0,0 s2:0 s1:0 x E; T11; T11",
    ),
    (
        1,
        3,
        "call g(2)
contains
subroutine g(n)
integer, intent(in) :: n
integer :: k
k = n * 2; if (n > 0) spawn g(k - n - 1)[n]
end",
        "3 s2:0,1 1 x E; 2 s1:0,0 E; 2 E",
    ),
    (
        0,
        1,
        "spawn f(1)[0]
contains
subroutine f(n)
integer, intent(in) :: n
if (n < 300) call f(n + 1)
end",
        "s0:0,1 x E; 401 T7",
    ),
    (
        1,
        3,
        "spawn f(1 / i)[9]
contains
subroutine f(n)
integer, intent(in) :: n
end",
        "T3",
    ),
    (
        1,
        3,
        "finish; spawn g()[2]; spawn g()[3]; end finish
contains
subroutine f()
end
subroutine g()
end",
        "f3 s2:1 T4; E",
    ),
    (
        1,
        3,
        "spawn f()[9 @ t]
contains
subroutine f()
end",
        "T11",
    ),
];

#[test]
fn shipped_tasks_do_the_same(rt: HostRuntime) -> Result<(), Fail> {
    expect(&rt, rt.alloc(), &SHIPS)
}
