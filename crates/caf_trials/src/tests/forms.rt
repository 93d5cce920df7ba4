use super::printed_again;
use std::test::Fail;

/// Programs that together use every form of the language: what each shows, and its text. Each is read as one unit, and so is
/// its print.
const FORMS: [(&str, &[u8]); 75] = [
    (
        "halo",
        b"program halo
  implicit none
  integer, parameter :: n = 4
  integer :: u(0:n+1)[*], total[*]
  integer :: i, me, np, s
  event :: left[*], right[*]
  me = team_rank()
  np = team_size()
  do i = 1, n
    u(i) = me * n + i
  end do
  finish
    if (me > 0) copy_async(u(n+1:n+1)[me-1], u(1:1), deste=right[me-1])
    if (me < np-1) copy_async(u(0:0)[me+1], u(n:n), deste=left[me+1])
    if (me > 0) event_wait(left)
    if (me < np-1) event_wait(right)
    s = 0
    do i = 1, n
      s = s + u(i-1) + u(i+1)
    end do
    spawn add(s)[0]
  end finish
  if (me == 0) print *, 'total', total
contains
  subroutine add(k)
    integer, intent(in) :: k
    total = total + k
  end subroutine
end program
",
    ),
    (
        "a sum",
        b"program x
print *, 2+3*4
end program
",
    ),
    (
        "loops with and without turns",
        b"program x
integer :: i
do i = 5, 1
print *, 'never'
end do
print *, i
do i = 1, 5, 2
end do
print *, i
end program
",
    ),
    (
        "an overflow on one image",
        b"program x
integer :: x
x = 9223372036854775807
print *, x
if (team_rank() == 2) then
x = x + 1
end if
print *, x
end program
",
    ),
    (
        "two reads of another image",
        b"program x
integer :: x, a(2)[*]
if (team_rank() == 0) then
x = a(1)[1] + a(2)[1]
print *, x
else
a(1) = 10
a(2) = 20
end if
end program
",
    ),
    (
        "teams by parity",
        b"program x
team :: t
team_split(team_world, mod(team_rank(), 2), 0, t)
print *, team_rank(t), team_size(t)
end program
",
    ),
    (
        "a chain of ships",
        b"program x
if (team_rank() == 0) then
spawn f(1)[1]
end if
contains
subroutine f(n)
integer, intent(in) :: n
if (n < 3) then
spawn f(n + 1)[n + 1]
end if
print *, n
end subroutine
end program
",
    ),
    (
        "a ship",
        b"program x
if (team_rank() == 0) then
spawn f(7)[1]
end if
contains
subroutine f(k)
integer, intent(in) :: k
print *, k
end subroutine
end program
",
    ),
    (
        "a lagging ship",
        b"program x
if (team_rank() == 0) then
spawn f(2)[2]
end if
contains
subroutine f(n)
integer, intent(in) :: n
if (n == 2) then
spawn f(1)[0]
else if (n == 1) then
spawn f(0)[1]
end if
end subroutine
end program
",
    ),
    (
        "a copy with an event",
        b"program x
integer :: a[*]
event :: d[*]
if (team_rank() == 0) then
a = 1
copy_async(a[1], a, deste=d[1])
a = 2
else
event_wait(d)
print *, a
end if
end program
",
    ),
    (
        "a copy that never starts",
        b"program x
integer :: a[*], b
event :: ev, d
copy_async(a[0], b, pre=ev)
cofence
end program
",
    ),
    (
        "a ship out of the team",
        b"program x
team :: t
team_split(team_world, team_rank(), 0, t)
finish (t)
if (team_rank() == 0) then
spawn f(1)[1]
end if
end finish
contains
subroutine f(k)
integer, intent(in) :: k
print *, k
end subroutine
end program
",
    ),
    (
        "a copointer",
        b"program x
integer :: a(5)[*]
integer, copointer :: p(:)
a(4) = 40 + team_rank()
p => a(2:4)[0]
print *, p(3)
print *, p(4)
end program
",
    ),
    (
        "workload",
        b"program workload
  implicit none
  integer, parameter :: d = 5, k = 2, c = 1
  integer :: a(c)[*], b(c), total, i
  event :: landed[*]
  do i = 1, c
    b(i) = team_rank() + i
  end do
  finish
    copy_async(a[mod(team_rank() + 1, team_size())], b, deste=landed[mod(team_rank() + 1, team_size())])
    spawn work(d)[mod(team_rank() + 1, team_size())]
    event_wait(landed)
  end finish
  do i = 1, c
    total = total + a(i)
  end do
  print *, total
contains
  subroutine work(n)
    integer, intent(in) :: n
    integer :: j
    total = total + n
    if (n > 0) then
      do j = 1, k
        spawn work(n - 1)[mod(team_rank() + j, team_size())]
      end do
    end if
  end subroutine
end program
",
    ),
    (
        "end alone",
        b"program p
end
",
    ),
    (
        "end program without a name",
        b"program p
end program
",
    ),
    (
        "end program with the name",
        b"program p
end program p
",
    ),
    (
        "endprogram",
        b"program p
endprogram
",
    ),
    (
        "endprogram with the name",
        b"PROGRAM Pair
implicit none
ENDPROGRAM pAIR
",
    ),
    (
        "an empty list of subroutines",
        b"program p
implicit none
contains
end program p
",
    ),
    (
        "subroutines without dummies",
        b"program p
call f
call g()
contains
subroutine f
end
subroutine g()
end subroutine
end program
",
    ),
    (
        "ends of subroutines",
        b"program p
contains
subroutine f
end subroutine f
subroutine g
endsubroutine
subroutine h
endsubroutine h
end program
",
    ),
    (
        "a subroutine with all parts",
        b"program p
logical :: l
call f(1, 2, l)
contains
subroutine f(a, b, c)
implicit none
integer, intent(in) :: a, b
logical, intent(inout) :: c
integer, parameter :: two = 2
integer :: local
logical found
local = a + b
found = local > two
c = found
end subroutine f
end program p
",
    ),
    (
        "parameters",
        b"program p
integer, parameter :: a = 1, b = a + 1, c = -b * (a - 3)
logical, parameter :: l = .not. a > b, m = .true.
print *, a, b, c, l, m
end program
",
    ),
    (
        "copointers",
        b"program p
integer, copointer :: p1(:), p2(:)
logical, copointer :: q(:)
end program
",
    ),
    (
        "intents",
        b"program p
contains
subroutine f(a, b, c, d)
integer, intent(in) :: a
integer, intent(inout) :: b
logical, intent(in out) :: c, d
b = a
c = d
end subroutine
end program
",
    ),
    (
        "items",
        b"program p
integer a, b(3), c(0:3), d(-1:1)[*], e[*]
logical :: f, g(2)[*]
integer :: h(2 + 1:2 * 3)
end program
",
    ),
    (
        "events",
        b"program p
event :: e, f(3), g[*], h(0:1)[*]
end program
",
    ),
    (
        "teams",
        b"program p
team :: rows, columns
end program
",
    ),
    (
        "assignments",
        b"program p
integer :: x, a(3), c[*], d(3)[*]
x = 1
a(x) = x
c = a(1)
d(2) = c
c[0] = x
d(x + 1)[team_rank()] = -1
end program
",
    ),
    (
        "places",
        b"program p
integer :: c[*], d(3)[*]
team :: t
team_split(team_world, 0, 0, t)
c[0] = 1
c[0 @ t] = 2
c[0 @ team_world] = 3
d(1)[team_size(t) - 1 @ t] = c[0] + d(2)[0 @ t]
end program
",
    ),
    (
        "prints",
        b"program p
logical :: l
print *
print *, 1
print *, 'a text'
print *, \"another\", 2 + 3, l, .not. l, ''
end program
",
    ),
    (
        "quotes",
        b"program p
print *, 'it''s', \"it's\", 'say \"no\"', \"say \"\"no\"\"\", 'both '' and \"', '''', \"\"\"\"
end program
",
    ),
    (
        "if lines",
        b"program p
integer :: x
logical :: l
if (l) x = 1
if (x > 0) print *, x
if (l .or. x == 0) call f
contains
subroutine f
end subroutine
end program
",
    ),
    (
        "if blocks",
        b"program p
integer :: x
if (x == 0) then
end if
if (x == 0) then
x = 1
endif
if (x == 0) then
x = 1
else
x = 2
end if
end program
",
    ),
    (
        "else ifs",
        b"program p
integer :: x
if (x == 0) then
x = 1
else if (x == 1) then
x = 2
elseif (x == 2) then
x = 3
else
x = 0
endif
if (x < 0) then
else if (x > 0) then
end if
end program
",
    ),
    (
        "an if in an else",
        b"program p
integer :: x
if (x == 0) then
x = 1
else
if (x == 1) then
x = 2
end if
end if
end program
",
    ),
    (
        "loops",
        b"program p
integer :: i, j
do i = 1, 3
end do
do i = 3, 1, -1
do j = i, i + 2, 2
print *, i, j
enddo
enddo
end program
",
    ),
    (
        "whiles",
        b"program p
integer :: x
do while (x < 3)
x = x + 1
end do
do while (.false.)
enddo
end program
",
    ),
    (
        "calls",
        b"program p
integer :: x, a(2)
call f
call f()
call g(1)
call g(x + 1)
call h(x, a(2), .true.)
contains
subroutine f
end subroutine
subroutine g(n)
integer, intent(in) :: n
end subroutine
subroutine h(n, m, l)
integer, intent(inout) :: n, m
logical, intent(in) :: l
end subroutine
end program
",
    ),
    (
        "spawns",
        b"program p
team :: t
team_split(team_world, 0, 0, t)
spawn f()[0]
spawn g(1, .true.)[team_rank() @ t]
spawn g(2, 1 < 2)[0 @ team_world]
contains
subroutine f
end subroutine
subroutine g(n, l)
integer, intent(in) :: n
logical, intent(in) :: l
end subroutine
end program
",
    ),
    (
        "spawns with an event",
        b"program p
event :: d, e(2)[*]
spawn (d) f()[0]
spawn(e(1)) f()[0]
spawn (e(2)[0]) f()[0]
spawn (e(1)[0 @ team_world]) f()[0]
contains
subroutine f
end subroutine
end program
",
    ),
    (
        "notices",
        b"program p
event :: e, f(2), g[*], h(2)[*]
event_notify(e)
event_notify(f(2))
event_notify(g[0])
call event_notify(h(1)[0 @ team_world])
end program
",
    ),
    (
        "waits",
        b"program p
event :: e, f(2)[*]
event_wait(e)
call event_wait(f(1 + 1))
end program
",
    ),
    (
        "copies",
        b"program p
integer :: a(4)[*], b(4), x
logical :: l, m[*]
copy_async(b, a)
copy_async(b(:), a(:)[0])
copy_async(b(2:), a(:3)[0])
copy_async(b(2:3), a(2:3)[0 @ team_world])
copy_async(b(1), x)
copy_async(x, a(1)[0])
call copy_async(l, m[0])
end program
",
    ),
    (
        "copies with events",
        b"program p
integer :: a[*], b
event :: e, f(2), g(2)[*]
copy_async(b, a, pre=e)
copy_async(b, a, srce=g(1)[0])
copy_async(b, a, deste=f(1), pre=f(2))
call copy_async(b, a, deste=g(1)[0 @ team_world], srce=e, pre=g(2))
end program
",
    ),
    (
        "copies of copointers",
        b"program p
integer :: a(4)[*], b(4)
integer, copointer :: p(:)
p => a
copy_async(b, p)
copy_async(b(1:2), p(2:3))
copy_async(p(:2), b(3:))
end program
",
    ),
    (
        "aims",
        b"program p
integer :: a(4)[*], s[*]
logical :: l(2)[*]
integer, copointer :: p(:)
logical, copointer :: q(:)
p => a
p => a(2)
p => a(:)[0]
p => a(2:)[0]
p => a(:3)[0 @ team_world]
p => s[0]
q => l(1:2)
end program
",
    ),
    (
        "copointer elements",
        b"program p
integer :: a(4)[*]
integer, copointer :: p(:)
p => a
p(1) = p(2) + 1
end program
",
    ),
    (
        "fences",
        b"program p
cofence
cofence()
cofence(down=read)
cofence(down=write, up=read)
cofence(up=any)
cofence(up=write, down=any)
end program
",
    ),
    (
        "finishes",
        b"program p
team :: t
team_split(team_world, 0, 0, t)
finish
end finish
finish (t)
finish (team_world)
endfinish
endfinish
end program
",
    ),
    (
        "splits",
        b"program p
team :: t, u
team_split(team_world, mod(team_rank(), 2), -team_rank(), t)
call team_split(t, team_rank(t), 0, u)
end program
",
    ),
    (
        "calls that leave no trace",
        b"program p
event :: e
integer :: a, b
team :: t
call event_notify(e)
call event_wait(e)
call copy_async(a, b)
call team_split(team_world, 1, 2, t)
end program
",
    ),
    (
        "a statement of each kind in an if line",
        b"program p
logical :: l
integer :: a[*], b
integer, copointer :: p(:)
event :: e
team :: t
if (l) b = 1
if (l) p => a
if (l) print *
if (l) call f
if (l) spawn f()[0]
if (l) event_notify(e)
if (l) event_wait(e)
if (l) copy_async(a, b)
if (l) cofence
if (l) team_split(team_world, 0, 0, t)
contains
subroutine f
end subroutine
end program
",
    ),
    (
        "blocks in blocks",
        b"program p
integer :: i
finish
do i = 1, 2
if (i == 1) then
do while (.false.)
finish (team_world)
print *, i
end finish
end do
else
print *, -i
end if
end do
end finish
end program
",
    ),
    (
        "numbers",
        b"program p
print *, 0, 00012, 9223372036854775807
end program
",
    ),
    (
        "truth values",
        b"program p
print *, .true., .FALSE., (.True.)
end program
",
    ),
    (
        "front signs",
        b"program p
integer :: a, b, c
a = -b * c
a = +b - (-1) &
  * 2
end program
",
    ),
    (
        "sums from the left",
        b"program p
integer :: a
a = a - a - a + a - (a - a)
a = -a + a
end program
",
    ),
    (
        "products from the left",
        b"program p
integer :: a
a = a * a / a * (a / a)
end program
",
    ),
    (
        "relations",
        b"program p
logical :: l
integer :: a, b
l = a == b
l = a /= b
l = a < b
l = a <= b
l = a > b
l = a >= b
end program
",
    ),
    (
        "relations as words",
        b"program p
logical :: l
integer :: a, b
l = a .eq. b
l = a .ne. b
l = a .lt. b
l = a .le. b
l = a .GT. b
l = 1.ge.b
end program
",
    ),
    (
        "logical operators",
        b"program p
logical :: a, b, c
a = .not. b
a = b .and. .not. c .and. a
a = b .or. c .and. a .or. b
a = b .eqv. c .neqv. a .or. b
a = .not. b .eqv. (.not. (c))
end program
",
    ),
    (
        "all levels",
        b"program p
logical :: l
integer :: a, b
l = l .eqv. l .or. l .and. .not. -a + b * a < a / b - b .neqv. .not. l
end program
",
    ),
    (
        "functions",
        b"program p
integer :: a
a = mod(a, 2) + abs(-a) + min(a, 1) + max(1, a, 3, a + 1)
a = mod(abs(min(a, 2)), max(1, 2))
end program
",
    ),
    (
        "ranks and sizes",
        b"program p
team :: t
team_split(team_world, 0, 0, t)
print *, team_rank(), team_size(), team_rank(t), team_size(t), team_rank(team_world), team_size(team_world)
end program
",
    ),
    (
        "elements",
        b"program p
integer :: a(3), c(3)[*], s[*]
print *, a(1), a(a(1) + 1), c(1), c(1)[0], c(c(1)[0])[s[0]], s, s[0], s[a(1) @ team_world]
end program
",
    ),
    (
        "parentheses",
        b"program p
integer :: a
a = ((1))
a = (a + (2 - (a))) * ((a))
end program
",
    ),
    (
        "names that begin like words",
        b"program endprogramme
integer :: iff, endif_, do1, printer, integers, down, up, read, write, any
iff = 1
endif_ = 2
do1 = 3
printer = down
integers = up + read + write + any
end program endprogramme
",
    ),
    (
        "capitals",
        b"PROGRAM P
INTEGER :: Abc
ABC = 1
Print *, aBc, 'Abc'
IF (ABC == 1) THEN
End If
EnD PrOgRaM p
",
    ),
    (
        "semicolons",
        b";;program p;;integer :: x; x = 1;; ;print *, x;
;end program;;
",
    ),
    (
        "comments",
        b"! first
program p ! a program

  ! between
print *, 'a ! in a text' ! behind
end program ! last",
    ),
    (
        "continued lines",
        b"program &
p
integer &  ! a comment

! another
 & :: &
 & x
x = 1 &
   &+ 2
print *, x &
, x
end program
",
    ),
    (
        "tabs and returns",
        b"program\tp\r
\tinteger\t::\tx\r
\tx\t=\t1\r
print *, 'a\tb'\r
end program\r
",
    ),
    (
        "no blanks",
        b"program p;integer::x,a(0:1);logical l;x=1;a(0)=x;if(x==1)x=-x;do x=1,2,1;enddo;l=.not.x==1.and.l;end",
    ),
];

#[test]
fn each_form_is_printed_and_read_again(rt: HostRuntime) -> Result<(), Fail> {
    let alloc = rt.alloc();
    for (name, text) in &FORMS {
        let first = printed_again(&rt, alloc, text)?;
        let second = printed_again(&rt, alloc, &first)?;
        assert_eq!(rt; first.as_slice(), second.as_slice(), "{name}");
    }
    Ok(())
}

/// Texts, and their prints: blanks between tokens, the quote that needs fewer doublings, an `else if`, and a token that may end
/// at the 130th byte of its line.
const PRINTS: [(&[u8], &[u8]); 5] = [
    (
        b"program p\nx=-A*B\nend\n",
        b"program p\n  x = - a * b\nend program\n",
    ),
    (
        b"program p; print*,'it''s',\"a\"\"'b\"; end\n",
        b"program p\n  print * , \"it's\" , 'a\"''b'\nend program\n",
    ),
    (
        b"program p\nif(b)then;elseif(b)then;endif\nend\n",
        b"program p\n  if ( b ) then\n  else if ( b ) then\n  end if\nend program\n",
    ),
    (
        b"program p\nprint *, 'aaaaaaaaaaaaaaaaaaaaaaaaaaaaaaaaaaaaaaaaaaaaaaaaaaaaaaaaaaaaaaaaaaaaaaaaaaaaaaaaaaaaaaaaaaaaaaaaaaaaaaaaaaaaaa', 'b'\nend\n",
        b"program p\n  print * , 'aaaaaaaaaaaaaaaaaaaaaaaaaaaaaaaaaaaaaaaaaaaaaaaaaaaaaaaaaaaaaaaaaaaaaaaaaaaaaaaaaaaaaaaaaaaaaaaaaaaaaaaaaaaaaa' , 'b'\nend program\n",
    ),
    (
        b"program p\nprint *, 'aaaaaaaaaaaaaaaaaaaaaaaaaaaaaaaaaaaaaaaaaaaaaaaaaaaaaaaaaaaaaaaaaaaaaaaaaaaaaaaaaaaaaaaaaaaaaaaaaaaaaaaaaaaaaaa', 'b'\nend\n",
        b"program p\n  print * , 'aaaaaaaaaaaaaaaaaaaaaaaaaaaaaaaaaaaaaaaaaaaaaaaaaaaaaaaaaaaaaaaaaaaaaaaaaaaaaaaaaaaaaaaaaaaaaaaaaaaaaaaaaaaaaaa' , &\n'b'\nend program\n",
    ),
];

#[test]
fn a_print_has_one_statement_a_line(rt: HostRuntime) -> Result<(), Fail> {
    let alloc = rt.alloc();
    for (text, print) in &PRINTS {
        let printed = printed_again(&rt, alloc, text)?;
        assert_eq!(rt; printed.as_slice(), *print);
    }
    Ok(())
}
