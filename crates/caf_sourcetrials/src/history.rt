use caf_base::{FinishRef, Memory, Sequence, Team};
use caf_history::{Arrival, Arrivals, FinishesLeft};
use std::alloc::Global;
use std::test::Fail;

fn team(alloc: Global, path: &[(u32, i64)]) -> Result<Team, Memory> {
    Ok(Team {
        path: Sequence::from_slice(alloc, path)?,
        members: Sequence::from_slice(alloc, &[0, 1])?,
    })
}

fn leave(
    alloc: Global,
    left: &mut FinishesLeft,
    path: &[(u32, i64)],
    number: u32,
) -> Result<(), Memory> {
    let team = team(alloc, path)?;
    left.push(FinishRef { team, number })
}

fn has(
    alloc: Global,
    left: &FinishesLeft,
    path: &[(u32, i64)],
    number: u32,
) -> Result<bool, Memory> {
    let team = team(alloc, path)?;
    Ok(left.has(&FinishRef { team, number }))
}

#[test]
fn finishes_are_found_and_counted_by_their_teams(rt: HostRuntime) -> Result<(), Fail> {
    let alloc = rt.alloc();
    let mut left = FinishesLeft::new(alloc);
    for (path, number) in [(0, 1), (1, 1), (0, 2)] {
        leave(alloc, &mut left, &[(1, -5)][..path], number)?;
    }
    assert!(rt; has(alloc, &left, &[], 2)? && has(alloc, &left, &[(1, -5)], 1)?);
    assert!(rt; !has(alloc, &left, &[(1, -5)], 2)? && !has(alloc, &left, &[(1, 5)], 1)?);
    assert!(rt; !left.has_program());
    leave(alloc, &mut left, &[], 0)?;
    assert!(rt; left.has_program());
    assert!(rt; left.count(&team(alloc, &[])?) == 2);
    assert!(rt; left.count(&team(alloc, &[(1, -5)])?) == 1);
    Ok(())
}

fn arrive(
    alloc: Global,
    arrived: &mut Arrivals,
    path: &[(u32, i64)],
    number: u32,
    colour: i64,
) -> Result<(), Memory> {
    let team = team(alloc, path)?;
    arrived.push(Arrival {
        team,
        number,
        colour,
        key: 0,
    })
}

#[test]
fn the_first_arrival_of_a_name_is_found(rt: HostRuntime) -> Result<(), Fail> {
    let alloc = rt.alloc();
    let mut arrived = Arrivals::new(alloc);
    assert!(rt; arrived.last().is_none());
    for (path, number, colour) in [(0, 1, 4), (1, 1, 7), (0, 2, 9), (0, 1, 8)] {
        arrive(alloc, &mut arrived, &[(1, 4)][..path], number, colour)?;
    }
    let world = team(alloc, &[])?;
    for (number, want) in [(1, Some(4)), (2, Some(9)), (3, None)] {
        let colour = arrived.find(&world, number).map(|a| a.colour);
        assert!(rt; colour == want, "split {number}");
    }
    assert!(rt; arrived.count(&world) == 3);
    assert!(rt; arrived.last().map(|a| a.colour) == Some(8));
    Ok(())
}
