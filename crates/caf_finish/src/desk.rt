ghost use Rattle.std.specs.Prelude.{◌≡◌, ◌<◌, ◌^◌, true, length, Some, None, IsSome, IsOk, OnOk, OnErr, Contains, unwrap_or, is_some};
ghost use Rattle.std.specs.List.{position};
ghost use Rattle.std.specs.Option.{option_map};
ghost use Rattle.caf_base.specs.declared.team.FinishRef.{FinishRef};
ghost use Rattle.caf_reduce.specs.Sum.{given_of};
ghost use Rattle.caf_finish.specs.Account.{
  epoch_at,
  IsCountable,
  counted,
  may_leave,
  may_contribute,
  CanContribute,
  contributed,
  CanRelay,
  relayed,
  CanTakeResult,
  after_result,
};
ghost use Rattle.caf_finish.specs.Desk.{is_of, account_in, account_at, At, IsPlace, new_account, Puts, Changes};

use crate::known::Known;
use crate::progress::Progress;
use crate::{Counted, Four, Given, Memory};
use caf_base::FinishRef;
use caf_team::rank_of;
use std::alloc::Global;
use std::marker::Model;

/// The finishes that one image knows. A call looks through them one by one: an image knows few at a time, one for each
/// finish that its tasks are in.
#[derive(Drop)]
pub struct FinishDesk {
    alloc: Global,
    image: u32,
    known: Vec<Known>,
}

impl Model for FinishDesk {
    ghost use Rattle.caf_finish.specs.Desk.{Desk};

    ghost Value = { Desk };

    ghost view = { λ desk. record { image = desk.image; known = desk.known.items } };
}

impl FinishDesk {
    /// Of an image that knows no finish. It takes no memory yet.
    pub fn new(alloc: Global, image: u32) -> FinishDesk
        ensures image { result.image ≡ image }
        ensures none { (f : FinishRef) → account_at result f ≡ None }
    {
        FinishDesk {
            alloc,
            image,
            known: Vec::new(alloc),
        }
    }

    /// Makes a finish known, with all numbers 0, if it isn't. On a refusal the desk is as before.
    pub fn know(&mut self, f: &FinishRef) -> Result<(), Memory>
        requires member { Contains f.now.team.members self.old.image }
        requires few { length f.now.team.members < 2 ^ 32 }
        ensures known { OnOk result (Puts self.old self.new f.now (Some (unwrap_or (account_at self.old f.now) (new_account self.old.image f.now)))) }
        ensures err { OnErr result (self.new ≡ self.old) }
        // A finish that is known takes no memory.
        ensures again { IsSome (account_at self.old f.now) → IsOk result }
    {
        if self.knows(f) {
            return Ok(());
        }
        let rank = rank_of(&f.team, self.image).unwrap();
        let progress = Progress::new(self.alloc, f.team.members.len() as u32, rank)?;
        let finish = FinishRef::copy_of(self.alloc, f)?;
        self.known.push(Known { finish, progress })?;
        Ok(())
    }

    /// Whether the finish is known.
    pub fn knows(&self, f: &FinishRef) -> bool
        ensures { result ≡ is_some (account_at self.now f.now) }
    {
        place(self.known.as_slice(), f).is_some()
    }

    /// The number of results that the image has taken.
    pub fn wave(&self, f: &FinishRef) -> u32
        requires { IsSome (account_at self.now f.now) }
        ensures { option_map (λ account. account.wave) (account_at self.now f.now) ≡ Some result }
    {
        self.progress(f).wave()
    }

    /// The stamp of a message that the image sends now.
    pub fn epoch(&self, f: &FinishRef) -> u32
        requires { IsSome (account_at self.now f.now) }
        ensures { option_map epoch_at (account_at self.now f.now) ≡ Some result }
    {
        self.progress(f).epoch()
    }

    /// Counts what happens to a message with this stamp.
    pub fn count(&mut self, f: &FinishRef, what: Counted, epoch: u32)
        requires { At self.old f.now (IsCountable what epoch) }
        ensures { Changes self.old self.new f.now (counted what epoch) }
    {
        let at = place_of(self.known.as_slice(), f);
        self.known[at].progress.count(what, epoch);
    }

    /// Whether the image may contribute to the present wave: it hasn't, its even messages are done, and its last
    /// result isn't 0.
    pub fn may_contribute(&self, f: &FinishRef) -> bool
        requires { IsSome (account_at self.now f.now) }
        ensures { option_map may_contribute (account_at self.now f.now) ≡ Some result }
    {
        self.progress(f).may_contribute()
    }

    /// The numbers of the image's even messages.
    pub fn four(&self, f: &FinishRef) -> Four
        requires { IsSome (account_at self.now f.now) }
        ensures { option_map (λ account. account.counters.even) (account_at self.now f.now) ≡ Some result }
    {
        self.progress(f).four()
    }

    /// Gives the image's part to the present wave, and answers the numbers that it gave.
    pub fn contribute(&mut self, f: &FinishRef) -> (Four, Given)
        requires { At self.old f.now CanContribute }
        ensures account { Changes self.old self.new f.now contributed }
        ensures four { option_map (λ account. account.counters.even) (account_at self.old f.now) ≡ Some result.0 }
        ensures given { option_map (λ account. given_of account.parts) (account_at self.new f.now) ≡ Some result.1 }
    {
        let at = place_of(self.known.as_slice(), f);
        self.known[at].progress.contribute()
    }

    /// Takes the part of a child, by its rank.
    pub fn relay(&mut self, f: &FinishRef, from: u32, sum: i64) -> Given
        requires { At self.old f.now (CanRelay from sum) }
        ensures account { Changes self.old self.new f.now (relayed from sum) }
        ensures given { option_map (λ account. given_of account.parts) (account_at self.new f.now) ≡ Some result }
    {
        let at = place_of(self.known.as_slice(), f);
        self.known[at].progress.relay(from, sum)
    }

    /// Takes the result of the present wave, and begins the next.
    pub fn result(&mut self, f: &FinishRef, sum: i64)
        requires { At self.old f.now CanTakeResult }
        ensures { Changes self.old self.new f.now (after_result sum) }
    {
        let at = place_of(self.known.as_slice(), f);
        self.known[at].progress.result(sum);
    }

    /// Whether the last result is 0.
    pub fn may_leave(&self, f: &FinishRef) -> bool
        requires { IsSome (account_at self.now f.now) }
        ensures { option_map may_leave (account_at self.now f.now) ≡ Some result }
    {
        self.progress(f).may_leave()
    }

    /// Forgets a finish that the image leaves.
    pub fn leave(&mut self, f: &FinishRef)
        requires { At self.old f.now (λ account. may_leave account ≡ true) }
        ensures { Puts self.old self.new f.now None }
    {
        self.known.retain(|known| !known.finish.is_same(f));
    }

    // How far the image has come in a finish that it knows.
    fn progress(&self, f: &FinishRef) -> &Progress
        requires { IsSome (account_at self.now f.now) }
        ensures { account_at self.now f.now ≡ Some result.now }
    {
        &self.known[place_of(self.known.as_slice(), f)].progress
    }
}

// The place of a finish that is known.
fn place_of(known: &[Known], f: &FinishRef) -> usize
    requires { IsSome (account_in known.now f.now) }
    ensures { IsPlace known.now f.now result }
{
    place(known, f).unwrap()
}

// The place of a finish, if it is known.
fn place(known: &[Known], f: &FinishRef) -> Option<usize>
    ensures { result ≡ position (is_of f.now) known.now }
{
    known.iter().position(|known| known.finish.is_same(f))
}
