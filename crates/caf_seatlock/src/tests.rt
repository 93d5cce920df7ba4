ghost use Rattle.std.specs.Prelude.{◌≡◌, ◌+◌, ◌<◌, ◌^◌, false, All, length, vec_len, IfOk};
ghost use mathlib.Core.List.{IsPrefix};
ghost use Rattle.caf_seatlock.specs.Passes.{has_turn, seen, seats_of, IsOf};
ghost use Rattle.caf_seatlock.specs.Workers.{IsReady};

use super::*;
use caf_base::Sequence;
use std::alloc::Global;
use std::process::Abort;
use std::sync::Wait;
use std::test::Fail;
use std::thread;
use std::thread::Threads;

// A worker adds the entries `step NUMBER 0`, `step NUMBER 1` and so on, each in a turn of its own.
#[derive(Drop)]
struct Worker {
    number: u32,
    turns: u32,
    pass: Pass<Log>,
}

fn empty_log(alloc: Global) -> Log {
    Log {
        entries: Sequence::new(alloc),
        images: 3,
    }
}

// Takes all turns of the worker.
fn work<R: Wait>(rt: &R, lock: &SeatLock<Log>, mut worker: Worker) -> Worker
    requires own { IsOf lock.now worker.pass }
    requires free { has_turn worker.pass ≡ false }
    ensures own { IsOf lock.now result.pass × (seats_of result.pass ≡ seats_of worker.pass) }
    ensures free { has_turn result.pass ≡ false }
{
    for turn in 0..worker.turns {
        let _ = push_in_turn(rt, lock, &mut worker.pass, Entry::Step(worker.number, turn));
    }
    worker
}

// A worker with a pass of one seat for each number of turns, numbered from 0.
fn deal(
    alloc: Global,
    lock: &SeatLock<Log>,
    pass: &mut Pass<Log>,
    turns: &[u32],
) -> Result<Vec<Worker>, Memory>
    requires own { IsOf lock.now pass.old }
    requires free { has_turn pass.old ≡ false }
    requires few { length turns.now < 2 ^ 32 }
    ensures own { IsOf lock.now pass.new × (has_turn pass.new ≡ false) }
    ensures ready { IfOk result (λ workers. All (λ worker. IsReady lock.now worker.pass) workers.items) }
    ensures seats { IfOk result (λ workers. seats_of pass.new + vec_len workers ≡ seats_of pass.old) }
{
    let mut workers = Vec::new(alloc);
    for number in 0..turns.len() {
        let one = lock.split(pass)?;
        workers.push(Worker {
            number: number as u32,
            turns: turns[number],
            pass: one,
        })?;
    }
    Ok(workers)
}

// Takes all passes in again.
fn gather(lock: &SeatLock<Log>, pass: &mut Pass<Log>, mut workers: Vec<Worker>)
    requires own { IsOf lock.now pass.old }
    requires free { has_turn pass.old ≡ false }
    requires ready { All (λ worker. IsReady lock.now worker.pass) workers.items }
    ensures own { IsOf lock.now pass.new × (has_turn pass.new ≡ false) }
    ensures seats { seats_of pass.new ≡ seats_of pass.old + vec_len workers }
{
    while let Some(worker) = workers.pop() {
        lock.join(pass, worker.pass);
    }
}

// Runs a worker for each number of turns in threads of their own, and gives the log after all. The lock has so many
// seats beyond those of the workers, which one pass keeps that takes no turn.
fn run<R: Threads + Wait + Sync>(
    rt: &R,
    alloc: Global,
    spare: u32,
    turns: &[u32],
) -> Result<Log, Memory>
    requires { (0 < spare) × (spare + length turns.now < 2 ^ 32) }
{
    let seats = spare + turns.len() as u32;
    let (lock, mut pass) = SeatLock::new(alloc, empty_log(alloc), seats)?;
    let workers = deal(alloc, &lock, &mut pass, turns)?;
    let shared = &lock;
    let Ok(done) = thread::map_vec(
        rt,
        workers,
        &|worker: Worker| -> Worker
            requires { IsReady shared.now worker.pass }
            ensures { IsReady shared.entry.now result.pass }
        { work(rt, shared, worker) },
    ) else {
        return Err(Memory);
    };
    gather(&lock, &mut pass, done);
    Ok(lock.close(pass))
}

// The number of the worker and of its turn.
fn step_of(entry: &Entry) -> Option<(u32, u32)> {
    match entry {
        Entry::Step(worker, turn) => Some((*worker, *turn)),
        _ => None,
    }
}

// Whether the log has each entry of each worker once, and those of a worker in the order of its turns.
fn has_all(alloc: Global, log: &Log, turns: &[u32]) -> Result<bool, Memory> {
    let mut next = vec![in alloc; 0u32; turns.len()]?;
    for entry in log.entries.as_slice() {
        let Some((worker, turn)) = step_of(entry) else {
            return Ok(false);
        };
        let Some(due) = next.get_mut(worker as usize) else {
            return Ok(false);
        };
        if *due != turn {
            return Ok(false);
        }
        *due = turn.saturating_add(1);
    }
    Ok(next.as_slice() == turns)
}

// Runs the workers, and looks that the log has all of their entries.
fn runs<R: Abort + Threads + Wait + Sync>(
    rt: &R,
    alloc: Global,
    spare: u32,
    turns: &[u32],
) -> Result<(), Fail>
    requires { (0 < spare) × (spare + length turns.now < 2 ^ 32) }
{
    let log = run(rt, alloc, spare, turns)?;
    assert!(rt; has_all(alloc, &log, turns)?);
    assert_eq!(rt; log.images, 3);
    Ok(())
}

#[test]
fn each_entry_stands_once_and_in_order(rt: HostRuntime) -> Result<(), Fail> {
    let alloc = rt.alloc();
    runs(&rt, alloc, 1, &[40])?;
    runs(&rt, alloc, 1, &[40, 40])?;
    runs(&rt, alloc, 5, &[80, 40, 0, 1])?;
    runs(&rt, alloc, 1, &[20, 20, 20, 20, 20, 20, 20, 20])
}

#[test]
fn a_hundred_thousand_turns_over_four_workers(rt: HostRuntime) -> Result<(), Fail> {
    runs(&rt, rt.alloc(), 1, &[25_000; 4])
}

#[test]
fn two_entries_stand_where_it_was_told(rt: HostRuntime) -> Result<(), Fail> {
    let alloc = rt.alloc();
    let mut log = empty_log(alloc);
    log.entries.push(Entry::Part(9))?;
    let pushed = push_by_two(&rt, alloc, log, Entry::Leave(1), Entry::Leave(2))?;
    let entries = pushed.log.entries.as_slice();
    let (first, second) = (pushed.first?, pushed.second?);
    assert_eq!(rt; entries.len(), 3);
    assert_eq!(rt; entries.get(first), Some(&Entry::Leave(1)));
    assert_eq!(rt; entries.get(second), Some(&Entry::Leave(2)));
    assert_eq!(rt; entries.get(0), Some(&Entry::Part(9)));
    Ok(())
}

#[test]
fn a_pass_of_one_seat_is_not_cut(rt: HostRuntime) -> Result<(), Fail> {
    let alloc = rt.alloc();
    let (lock, mut pass) = SeatLock::new(alloc, empty_log(alloc), 2)?;
    let other = lock.split(&mut pass)?;
    assert!(rt; lock.split(&mut pass).is_err());
    assert_eq!(rt; (pass.seats(), other.seats()), (1, 1));
    lock.join(&mut pass, other);
    assert_eq!(rt; pass.seats(), 2);
    assert_eq!(rt; lock.close(pass).images, 3);
    Ok(())
}
