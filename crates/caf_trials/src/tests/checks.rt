use super::checked;
use std::test::Fail;

/// How many images, a text, a trace, the status of a check, and what it writes. Entries of the protocol stand in the traces as
/// a run would leave them, and are passed over: so a ship that is taken before its wave is no fault here.
const CHECKS: [(u32, &[u8], &[u8], u8, &str); 18] = [
    (
        3,
        b"program x\ninteger :: x\nx = 9223372036854775807\nprint *, x\nif (team_rank() == 2) then\nx = x + 1\nend if\nprint *, x\nend program\n",
        b"step 2 0\nstep 2 0\nstep 2 0\nstep 2 0\n",
        1,
        "2: 9223372036854775807\ntrap: image 2, 2 number\ntrapped: images 3, lines 1, traps 1\n",
    ),
    (
        3,
        b"program x\ninteger :: x\nx = 9223372036854775807\nprint *, x\nif (team_rank() == 2) then\nx = x + 1\nend if\nprint *, x\nend program\n",
        b"step 2 0\nstep 2 0\nstep 2 0\nstep 2 0\nstep 2 0\n",
        11,
        "trace refused at line 5\n",
    ),
    (
        2,
        b"program x\ninteger :: x, a(2)[*]\nif (team_rank() == 0) then\nx = a(1)[1] + a(2)[1]\nprint *, x\nelse\na(1) = 10\na(2) = 20\nend if\nend program\n",
        b"step 0 0\nstep 1 0\nstep 0 0\ntouch 1 0.1 read\nstep 1 0\nstep 1 0\nreturn 0 0.1\nstep 0 0\ntouch 1 0.2 read\nreturn 0 0.2\nstep 0 0\nstep 0 0\n",
        6,
        "0: 20\ngoing: images 2, lines 1, traps 0\n",
    ),
    (
        2,
        b"program x\nif (team_rank() == 0) then\nspawn f(7)[1]\nend if\ncontains\nsubroutine f(k)\ninteger, intent(in) :: k\nprint *, k\nend subroutine\nend program\n",
        b"step 0 0\nstep 0 0\nstep 1 0\ncontribute 1 0 0 0 0\ntouch 1 0.1 ship\nack 0 0.1 ship\ncontribute 0 1 1 0 0\nrelay 0 1\nresult 0 1\nresult 1 1\nstep 1 1\nstep 1 1\ncontribute 0 1 1 0 0\ncontribute 1 0 0 1 1\nrelay 0 1\nresult 0 0\nresult 1 0\nleave 0\nleave 1\n",
        0,
        "1: 7\ndone: images 2, lines 1, traps 0\n",
    ),
    (
        2,
        b"program x\nif (team_rank() == 0) then\nspawn f(7)[1]\nend if\ncontains\nsubroutine f(k)\ninteger, intent(in) :: k\nprint *, k\nend subroutine\nend program\n",
        b"step 0 0\nstep 0 0\nstep 1 0\ncontribute 1 0 0 0 0\ntouch 1 0.1 ship\nack 0 0.1 ship\ncontribute 0 1 1 0 0\nrelay 0 1\nresult 0 1\nleave 0\n",
        11,
        "trace refused at line 10\n",
    ),
    (
        3,
        b"program x\nif (team_rank() == 0) then\nspawn f(2)[2]\nend if\ncontains\nsubroutine f(n)\ninteger, intent(in) :: n\nif (n == 2) then\nspawn f(1)[0]\nelse if (n == 1) then\nspawn f(0)[1]\nend if\nend subroutine\nend program\n",
        b"step 0 0\nstep 0 0\nstep 1 0\nstep 2 0\ncontribute 1 0 0 0 0\ncontribute 2 0 0 0 0\ntouch 2 0.1 ship\nack 0 0.1 ship\ncontribute 0 1 1 0 0\nrelay 0 1\nrelay 0 2\nresult 0 1\nresult 2 1\ncontribute 0 1 1 0 0\nstep 2 1\nstep 2 1\ntouch 0 2.1 ship\nstep 0 1\nstep 0 1\nstep 0 1\ntouch 1 0.2 ship\n",
        6,
        "going: images 3, lines 0, traps 0\n",
    ),
    (
        2,
        b"program x\ninteger :: a[*]\nevent :: d[*]\nif (team_rank() == 0) then\na = 1\ncopy_async(a[1], a, deste=d[1])\na = 2\nelse\nevent_wait(d)\nprint *, a\nend if\nend program\n",
        b"step 0 0\nstep 0 0\nstep 0 0\nstep 0 0\ntouch 0 0.1 start\nack 0 0.1 start\ntouch 1 0.1 store\nack 0 0.1 store\nstep 1 0\ntouch 1 1.1 notice\nack 1 1.1 notice\nstep 1 0\nstep 1 0\n",
        6,
        "1: 2\ngoing: images 2, lines 1, traps 0\n",
    ),
    (
        2,
        b"program x\ninteger :: a[*]\nevent :: d[*]\nif (team_rank() == 0) then\na = 1\ncopy_async(a[1], a, deste=d[1])\na = 2\nelse\nevent_wait(d)\nprint *, a\nend if\nend program\n",
        b"step 0 0\nstep 0 0\nstep 0 0\ntouch 0 0.1 start\nstep 0 0\nack 0 0.1 start\ntouch 1 0.1 store\nack 0 0.1 store\nstep 1 0\ntouch 1 1.1 notice\nack 1 1.1 notice\nstep 1 0\nstep 1 0\n",
        6,
        "1: 1\ngoing: images 2, lines 1, traps 0\n",
    ),
    (
        1,
        b"program x\ninteger :: a[*], b\nevent :: ev, d\ncopy_async(a[0], b, pre=ev)\ncofence\nend program\n",
        b"step 0 0\n",
        4,
        "stuck: images 1, lines 0, traps 0\n",
    ),
    (
        1,
        b"program x\ninteger :: a[*], b\nevent :: ev, d\ncopy_async(a[0], b, pre=ev, deste=d)\ncofence\nprint *, 1\nend program\n",
        b"step 0 0\nstep 0 0\nstep 0 0\n",
        4,
        "0: 1\nstuck: images 1, lines 1, traps 0\n",
    ),
    (
        2,
        b"program x\nteam :: t\nteam_split(team_world, team_rank(), 0, t)\nfinish (t)\nif (team_rank() == 0) then\nspawn f(1)[1]\nend if\nend finish\ncontains\nsubroutine f(k)\ninteger, intent(in) :: k\nprint *, k\nend subroutine\nend program\n",
        b"step 0 0\nstep 1 0\npart 0\nstep 0 0\nstep 0 0\nstep 0 0\n",
        1,
        "trap: image 0, 5 outside\ntrapped: images 2, lines 0, traps 1\n",
    ),
    (
        1,
        b"program x\ninteger :: a(5)[*]\ninteger, copointer :: p(:)\na(4) = 40 + team_rank()\np => a(2:4)[0]\nprint *, p(3)\nprint *, p(4)\nend program\n",
        b"step 0 0\nstep 0 0\nstep 0 0\ntouch 0 0.1 read\nstep 0 0\nstep 0 0\n",
        1,
        "0: 40\ntrap: image 0, 1 index\ntrapped: images 1, lines 1, traps 1\n",
    ),
    (
        1,
        b"program x\ninteger :: a(5)[*]\ninteger, copointer :: p(:)\na(4) = 40 + team_rank()\nprint *, p(3)\nend program\n",
        b"step 0 0\nstep 0 0\n",
        1,
        "trap: image 0, 12 copointer\ntrapped: images 1, lines 0, traps 1\n",
    ),
    (
        2,
        b"program x\nfinish\nend finish\nif (team_rank() == 0) then\nfinish\nend finish\nend if\nprint *, 1\nend program\n",
        b"step 0 0\nstep 1 0\nleave 0\nleave 1\nstep 0 0\nstep 1 0\nstep 0 0\nstep 1 0\n",
        4,
        "1: 1\nstuck: images 2, lines 1, traps 0\n",
    ),
    (
        1,
        b"program x\nprint *, 2+3*4\nend program\n",
        b"step 0 0\ncontribute 0 0 0 0 0\nresult 0 0\nleave 0\n",
        0,
        "0: 14\ndone: images 1, lines 1, traps 0\n",
    ),
    (
        1,
        b"program x\nprint *, 2+3*4\nend program\n",
        b"",
        6,
        "going: images 1, lines 0, traps 0\n",
    ),
    (
        1,
        b"program x\nprint *, 2+3*4\nend program\n",
        b"step 0 0\nstep 0\n",
        11,
        "trace refused at line 2\n",
    ),
    (
        1,
        b"program x\nprint *, n\nend program\n",
        b"step 0 0\n",
        3,
        "refused: line 2: undeclared n\n",
    ),
];

#[test]
fn the_source_machine_follows_a_trace(rt: HostRuntime) -> Result<(), Fail> {
    let alloc = rt.alloc();
    for (images, text, trace, status, wanted) in &CHECKS {
        let (got, written) = checked(&rt, alloc, *images, text, trace)?;
        assert_eq!(rt; written.as_slice(), wanted.as_bytes(), "{text:?}");
        assert_eq!(rt; got, *status);
    }
    Ok(())
}
