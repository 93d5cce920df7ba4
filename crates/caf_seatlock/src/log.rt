//! The plainest value for a lock, and two workers that share it.
ghost use Rattle.std.specs.Prelude.{◌≡◌, false, slice_get, Some, IfOk};
ghost use mathlib.Core.List.{IsPrefix};
ghost use Rattle.caf_seatlock.specs.Passes.{has_turn, seen, seats_of, IsOf};

use crate::{Entry, Keeps, Memory, Pass, SeatLock};
use caf_base::Sequence;
use std::alloc::Global;
use std::sync::Wait;
use std::thread;
use std::thread::Threads;

/// The entries of a run so far, and its number of images, which stays.
#[derive(Drop)]
pub struct Log {
    pub entries: Sequence<Entry>,
    pub images: u32,
}

impl Keeps for Log {
    ghost use Rattle.std.specs.Prelude.{ℕ};

    ghost Fixed = { ℕ };

    ghost entries = { λ log. log.entries };

    ghost fixed = { λ log. log.images };
}

/// Adds an entry in a turn of its own, and tells its place. Without memory nothing is added.
pub fn push_in_turn<R: Wait>(
    rt: &R,
    lock: &SeatLock<Log>,
    pass: &mut Pass<Log>,
    entry: Entry,
) -> Result<usize, Memory>
    requires own { IsOf lock.now pass.old }
    requires free { has_turn pass.old ≡ false }
    ensures own { IsOf lock.now pass.new × (seats_of pass.new ≡ seats_of pass.old) }
    ensures free { has_turn pass.new ≡ false }
    ensures longer { IsPrefix (seen pass.old) (seen pass.new) }
    ensures stands { IfOk result (λ place. slice_get (seen pass.new) place ≡ Some entry) }
{
    let mut log = lock.take(rt, pass);
    let place = log.entries.len();
    let pushed = log.entries.push(entry);
    lock.give(pass, log);
    pushed?;
    Ok(place)
}

/// What [`push_by_two`] answers: the log at the end, and the places that the workers were told.
#[derive(Drop)]
pub struct Pushed {
    pub log: Log,
    pub first: Result<usize, Memory>,
    pub second: Result<usize, Memory>,
}

/// Two workers add an entry each, in a thread and a turn of its own. No entry is lost: at the end each stands at the place
/// that its worker was told, behind all that the log had before.
pub fn push_by_two<R: Threads + Wait + Sync>(
    rt: &R,
    alloc: Global,
    log: Log,
    first: Entry,
    second: Entry,
) -> Result<Pushed, Memory>
    ensures longer { IfOk result (λ pushed. IsPrefix log.entries pushed.log.entries) }
    ensures images { IfOk result (λ pushed. pushed.log.images ≡ log.images) }
    ensures first { IfOk result (λ pushed. IfOk pushed.first (λ place. slice_get pushed.log.entries place ≡ Some first)) }
    ensures second { IfOk result (λ pushed. IfOk pushed.second (λ place. slice_get pushed.log.entries place ≡ Some second)) }
{
    let (lock, mut one) = SeatLock::new(alloc, log, 2)?;
    let mut two = lock.split(&mut one)?;
    let shared = &lock;
    let ((mut one, first), (two, second)) = thread::join(
        rt,
        move || -> (Pass<Log>, Result<usize, Memory>)
            requires { IsOf shared.now one × (has_turn one ≡ false) }
        {
            let place = push_in_turn(rt, shared, &mut one, first);
            (one, place)
        },
        move || -> (Pass<Log>, Result<usize, Memory>)
            requires { IsOf shared.now two × (has_turn two ≡ false) }
        {
            let place = push_in_turn(rt, shared, &mut two, second);
            (two, place)
        },
    );
    lock.join(&mut one, two);
    Ok(Pushed {
        log: lock.close(one),
        first,
        second,
    })
}
