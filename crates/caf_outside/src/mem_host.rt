ghost use Rattle.std.specs.Prelude.{◌≡◌, ◌<◌, ◌≤◌, ◌+◌, ◌-◌, ◌^◌, ◌++◌, ◌∷◌, [], List, ℕ, min, None, Some, Ok, Err, true, IfOk, IfSome, OnErr, OnOk, IsErrOf, is_ok, length, All, vec_len, vec_capacity, if◌then◌else◌};
ghost use Rattle.std.specs.Option.{option_copied};
ghost use Rattle.caf_outside.specs.Causes.{HasCause, HasLoadCause};
ghost use Rattle.caf_outside.specs.Texts.{times, Has, KeepsOthers};
ghost use Rattle.caf_outside.specs.Spare.{HasRoom};

use crate::file_host::refuse;
use crate::held::{Held, newest};
use crate::spare::{Spare, spares};
use crate::{Failed, Host, LoadFail};
use caf_base::{Memory, Sequence};
use std::alloc::Global;

/// A host in memory, which fails at chosen calls. The newest text of a name stands last.
#[derive(Drop)]
pub struct MemHost {
    held: Vec<Held>,
    spare: Vec<Spare>,
    // The most bytes of a name and a text together that a save takes.
    room: usize,
    // The places, from 0, of the calls that are to fail.
    failing: Vec<u64>,
    calls: u64,
    // The name of each load that failed.
    failed: Vec<Sequence<u8>>,
    save_faults: u64,
    ghost roomy: { All (HasRoom room) spare.items },
    ghost reserved: { vec_len held + vec_len spare ≤ vec_capacity held },
}

impl MemHost {
    ghost use Rattle.caf_outside.specs.MemHost.{IsEmptyHost, ChangesTextsAlone, mem_texts, is_next_to_fail};

    /// An empty host that fails at the calls of `load` and `save` with the places `failing`, from 0. It takes room for
    /// `saves` saves, each with at most `room` bytes of name and text together.
    pub fn new(alloc: Global, failing: &[u64], saves: u32, room: usize) -> Result<MemHost, Memory>
        ensures { IfOk result (IsEmptyHost failing.now saves room) }
    {
        Ok(MemHost {
            held: Vec::with_capacity(alloc, saves as usize)?,
            spare: spares(alloc, saves, room)?,
            room,
            failing: Vec::from_slice(alloc, failing)?,
            calls: 0,
            failed: Vec::new(alloc),
            save_faults: 0,
        })
    }

    /// Puts a text under a name.
    #[tactic(auto, using(crate::proofs::Named::text_of_same, crate::proofs::Named::text_of_other))]
    pub fn hold(&mut self, alloc: Global, name: &str, bytes: &[u8]) -> Result<(), Memory>
        ensures ok { OnOk result (mem_texts self.new name.now ≡ Some bytes.now) }
        ensures others { KeepsOthers (Some (mem_texts self.old)) (Some (mem_texts self.new)) name.now }
        ensures err { OnErr result (mem_texts self.new ≡ mem_texts self.old) }
        ensures same { ChangesTextsAlone self.old self.new }
    {
        let name = Sequence::from_slice(alloc, name.as_bytes())?;
        let bytes = Sequence::from_slice(alloc, bytes)?;
        self.held.reserve(self.spare.len().saturating_add(1))?;
        self.held.push(Held { name, bytes })?;
        Ok(())
    }

    /// The text under a name. None where the name isn't there.
    pub fn text(&self, name: &str) -> Option<&[u8]>
        ensures { option_copied result ≡ mem_texts self.now name.now }
    {
        newest(&self.held, name.as_bytes())
    }

    // Counts a call, and tells whether it is to fail.
    fn next_call_fails(&mut self) -> bool
        ensures fails { result ≡ is_next_to_fail self.old }
        ensures same { self.new ≡ record self.old { calls = min (self.old.calls + 1) (2 ^ 64 - 1) } }
    {
        let fails = self.failing.contains(&self.calls);
        self.calls = self.calls.saturating_add(1);
        fails
    }
}

impl Host for MemHost {
    ghost use Rattle.caf_outside.specs.MemHost.{KeepsPlan, Answers, failed_after, failed_loads, failed_saves, loaded, can_save, saves_left, mem_texts};

    ghost texts = { λ host. Some (mem_texts host) };

    ghost load_faults = { λ host name. times (failed_loads host) name };

    ghost save_faults = { failed_saves };

    // What it answers is exact but for want of memory, and the count of a name rises at each failure and at no other
    // call.
    fn load(&mut self, alloc: Global, name: &str, limit: usize) -> Result<Vec<u8>, LoadFail>
        ensures bytes { IfOk result (λ bytes. Has (Some (mem_texts self.old)) name.now (λ held. bytes.items ≡ held)) }
        ensures within { IfOk result (λ bytes. length bytes.items ≤ limit) }
        ensures too_long { IsErrOf result LoadFail.TooLong → Has (Some (mem_texts self.old)) name.now (λ held. limit < length held) }
        ensures kept { Some (mem_texts self.new) ≡ Some (mem_texts self.old) }
        ensures cause { HasLoadCause (times (failed_loads self.old)) (times (failed_loads self.new)) name.now result }
        ensures saves { failed_saves self.new ≡ failed_saves self.old }
        ensures exact { Answers (loaded self.old name.now limit) result }
        ensures counted { failed_loads self.new ≡ failed_after (failed_loads self.old) name.now result }
        ensures plan { KeepsPlan self.old self.new }
        ensures same_room { saves_left self.new ≡ saves_left self.old }
    {
        let fails = self.next_call_fails();
        let own_name = Sequence::from_slice(alloc, name.as_bytes())?;
        self.failed.reserve(1)?;
        if fails {
            return refuse(&mut self.failed, own_name);
        }
        match self.text(name) {
            None => refuse(&mut self.failed, own_name),
            Some(text) if text.len() > limit => Err(LoadFail::TooLong),
            Some(text) => Ok(Vec::from_slice(alloc, text)?),
        }
    }

    // It takes no memory: what it answers is exact.
    #[tactic(auto, using(crate::proofs::Named::text_of_same, crate::proofs::Named::text_of_other))]
    fn save(&mut self, name: &str, bytes: &[u8]) -> Result<(), Failed>
        ensures held { OnOk result (Has (Some (mem_texts self.new)) name.now (λ held. held ≡ bytes.now)) }
        ensures others { KeepsOthers (Some (mem_texts self.old)) (Some (mem_texts self.new)) name.now }
        ensures cause { HasCause (failed_saves self.old) (failed_saves self.new) result }
        ensures loads { (other : List ℕ) → times (failed_loads self.new) other ≡ times (failed_loads self.old) other }
        ensures exact { is_ok result ≡ can_save self.old name.now bytes.now }
        ensures counted { failed_saves self.new ≡ (if is_ok result then failed_saves self.old else min (failed_saves self.old + 1) (2 ^ 64 - 1)) }
        ensures kept { OnErr result (mem_texts self.new ≡ mem_texts self.old) }
        ensures plan { KeepsPlan self.old self.new }
        ensures taken { saves_left self.new ≡ (if is_ok result then saves_left self.old - 1 else saves_left self.old) }
    {
        let fails = self.next_call_fails();
        let fits = name.len() <= self.room && bytes.len() <= self.room - name.len();
        if !fails && fits {
            if let Some(spare) = self.spare.pop() {
                let entry = spare.holding(name.as_bytes(), bytes);
                self.held.push(entry).unwrap();
                return Ok(());
            }
        }
        self.save_faults = self.save_faults.saturating_add(1);
        Err(Failed)
    }
}
