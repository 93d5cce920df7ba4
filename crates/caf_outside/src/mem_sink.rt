ghost use Rattle.std.specs.Prelude.{◌≡◌, ◌<◌, ◌≤◌, ◌+◌, ◌^◌, ◌-◌, min, [], length, IfOk, Some, is_err, vec_capacity, if◌then◌else◌};
ghost use Rattle.std.specs.Io.KnownBytes.{WriteAppends};
ghost use Rattle.caf_outside.specs.Causes.{HasCause};

use crate::{Failed, Sink};
use caf_base::Memory;
use std::alloc::Global;

/// A sink in memory, which takes a little at a time and fails at chosen calls.
#[derive(Drop)]
pub struct MemSink {
    // The places, from 0, of the calls that are to fail.
    failing: Vec<u64>,
    calls: u64,
    // The most that a call takes, and all calls together.
    piece: usize,
    room: usize,
    taken: Vec<u8>,
    faults: u64,
    ghost some: { 0 < piece },
    ghost reserved: { room ≤ vec_capacity taken },
}

impl MemSink {
    ghost use Rattle.caf_outside.specs.MemSink.{IsEmptySink};

    /// Takes at most `piece` bytes a call and `room` bytes in all, and fails at the calls with the places `failing`,
    /// from 0.
    pub fn new(alloc: Global, failing: &[u64], piece: usize, room: usize) -> Result<MemSink, Memory>
        requires { 0 < piece }
        ensures { IfOk result (IsEmptySink failing.now piece room) }
    {
        Ok(MemSink {
            failing: Vec::from_slice(alloc, failing)?,
            calls: 0,
            piece,
            room,
            taken: Vec::with_capacity(alloc, room)?,
            faults: 0,
        })
    }

    /// The bytes taken.
    pub fn bytes(&self) -> &[u8]
        ensures { ⟦<MemSink as Sink>⟧.taken self.now ≡ Some result.now }
    {
        self.taken.as_slice()
    }
}

impl Sink for MemSink {
    ghost use Rattle.caf_outside.specs.MemSink.{written, taken_of, faults_of, OnlyGrows};

    ghost taken = { λ sink. Some (taken_of sink) };

    ghost faults = { faults_of };

    // It takes no memory: what it answers is exact.
    fn write(&mut self, piece: &[u8]) -> Result<usize, Failed>
        ensures bytes { WriteAppends (Some (taken_of self.old)) (Some (taken_of self.new)) result piece.now }
        ensures within { IfOk result (λ count. count ≤ length piece.now) }
        ensures some { IfOk result (λ count. 0 < length piece.now → 0 < count) }
        ensures cause { HasCause (faults_of self.old) (faults_of self.new) result }
        ensures exact { result ≡ written self.old (length piece.now) }
        ensures counted { faults_of self.new ≡ (if is_err result then min (faults_of self.old + 1) (2 ^ 64 - 1) else faults_of self.old) }
        ensures plan { OnlyGrows self.old self.new }
    {
        let call = self.calls;
        self.calls = self.calls.saturating_add(1);
        let left = self.room.saturating_sub(self.taken.len());
        let count = piece.len().min(self.piece).min(left);
        if self.failing.contains(&call) || (count == 0 && !piece.is_empty()) {
            self.faults = self.faults.saturating_add(1);
            return Err(Failed);
        }
        self.taken.extend_from_slice(&piece[..count]).unwrap();
        Ok(count)
    }
}
