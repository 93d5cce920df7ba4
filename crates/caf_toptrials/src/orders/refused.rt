use super::{Case, all_come_to};
use std::test::Fail;

const TEXTS: [Case; 21] = [
    ("", 3, "refused: line 1: syntax\n"),
    (
        "program x\nif (1 < 2 < 3) print *, 1\nend program\n",
        3,
        "refused: line 2: syntax\n",
    ),
    (
        "program x\nprint *, 1 &",
        3,
        "refused: line 2: open continuation\n",
    ),
    (
        "program x\nprint *, '\u{e4}'\nend program\n",
        3,
        "refused: line 2: not ascii\n",
    ),
    (
        "program x\nprint *, 9223372036854775808\nend program\n",
        3,
        "refused: line 2: bad number\n",
    ),
    (
        "program x\nprint *, 1 # 2\nend program\n",
        3,
        "refused: line 2: bad token\n",
    ),
    (
        "program x\nn = 1\nend program\n",
        3,
        "refused: line 2: undeclared n\n",
    ),
    (
        "program x\nspawn f()[0]\ncontains\nsubroutine f()\nfinish\nend finish\nend subroutine\nend program\n",
        3,
        "refused: line 5: collective f\n",
    ),
    (
        "program x\ninteger :: k\nspawn f(k)[0]\ncontains\nsubroutine f(k)\ninteger, intent(inout) :: k\nend subroutine\nend program\n",
        3,
        "refused: line 3: inout k\n",
    ),
    (
        "program x\nevent :: e\nprint *, 1\nevent_wait(e)\nprint *, 2\nend program\n",
        3,
        "refused: line 4: not yet\n",
    ),
    (
        "program x\nteam :: t\nif (1 == 2) then\nprint *, 1\nelse if (team_rank(t) == 0) then\nprint *, 2\nend if\nend program\n",
        3,
        "refused: line 5: not yet\n",
    ),
    (
        "program x\nprint *, team_rank(team_world), team_size(team_world)\nend program\n",
        0,
        "0: 0 1\ndone: images 1, lines 1, traps 0\n",
    ),
    (
        "program x\ncall f()\ncontains\nsubroutine f()\ncofence\nend subroutine\nend program\n",
        3,
        "refused: line 5: not yet\n",
    ),
    (
        "program x\ninteger :: a[*]\na = a[0]\nend program\n",
        3,
        "refused: line 3: not yet\n",
    ),
    (
        "program x\ninteger :: a[*], i\nif (i == 0) &\ni = a[0]\nend program\n",
        3,
        "refused: line 4: not yet\n",
    ),
    (
        "program x\ninteger :: a[*]\nprint *, &\na[0]\nend program\n",
        3,
        "refused: line 3: not yet\n",
    ),
    (
        "program x\ninteger :: a[*], i\ndo i = 1, 2, a[0]\nend do\nend program\n",
        3,
        "refused: line 3: not yet\n",
    ),
    (
        "program x\ninteger, copointer :: p(:)\ndo while (p(1) > 0)\nend do\nend program\n",
        3,
        "refused: line 3: not yet\n",
    ),
    (
        "program x\nteam :: t\ninteger :: b(0:1)\nb(team_rank(t)) = 1\nend program\n",
        3,
        "refused: line 4: not yet\n",
    ),
    (
        "program x\nprint *, 1\nfinish (team_world)\nend finish\nend program\n",
        3,
        "refused: line 3: not yet\n",
    ),
    (
        "program x\nteam :: t\ninteger :: b(0:1)\nprint *, 1\ncall g(b(0))\ncall g(b(team_rank(t)))\ncontains\nsubroutine g(k)\ninteger, intent(inout) :: k\ncofence\nend subroutine\nend program\n",
        3,
        "refused: line 6: not yet\n",
    ),
];

#[test]
fn refusals_tell_the_line_and_what_is_wrong(rt: HostRuntime) -> Result<(), Fail> {
    all_come_to(&rt, rt.alloc(), &TEXTS)
}
