ghost use Rattle.std.specs.Prelude.{OnOk, IfErr, IsTrue};
ghost use Rattle.std.specs.List.{list_all};
ghost use Rattle.caf_program.specs.Ships.{is_in};
ghost use Rattle.caf_teamcheck.specs.Sites.{MayStand, MayShip, IsWrong, IsWrongShip, IsWrongCollective, IsPlain, BreaksIn, IsInout, HasInoutAt};

use crate::fault::ShipFault;
use crate::site::Site;
use caf_base::Text;
use caf_program::{DummyR, Intent, SubR};
use std::alloc::Global;

/// A part of the program: its name, whether a ship reaches it, and the subroutines that it may ship.
#[derive(Clone, Copy)]
pub struct Part<'a> {
    pub subs: &'a [SubR],
    pub reached: bool,
    pub name: &'a str,
}

/// Whether a dummy is `intent(in)`, as those of a subroutine that is shipped on a line have to be.
fn check_dummy(alloc: Global, line: u32, dummy: &DummyR) -> Result<(), ShipFault>
    ensures ok { OnOk result (IsTrue (is_in dummy.now.intent)) }
    ensures err { IfErr result (λ f. IsInout line dummy.now f) }
{
    match dummy.intent {
        Intent::In => Ok(()),
        Intent::InOut => {
            let name = Text::copy_of(alloc, dummy.name.as_str())?;
            Err(ShipFault::InoutInShip(line, name))
        }
    }
}

/// Whether all dummies are `intent(in)`, as those of a subroutine that is shipped on a line have to be.
fn check_dummies(alloc: Global, line: u32, dummies: &[DummyR]) -> Result<(), ShipFault>
    ensures ok { OnOk result (IsTrue (list_all (λ d. is_in d.intent) dummies.now)) }
    ensures err { IfErr result (λ f. HasInoutAt line dummies.now f) }
{
    for dummy in dummies {
        check_dummy(alloc, line, dummy)?;
    }
    Ok(())
}

impl Part<'_> {
    /// A `spawn` on a line.
    fn check_spawn(&self, alloc: Global, line: u32, sub: u32) -> Result<(), ShipFault>
        ensures ok { OnOk result (MayShip self.now.subs.now sub) }
        ensures err { IfErr result (λ f. IsWrongShip self.now.subs.now line sub f) }
    {
        match self.subs.get(sub as usize) {
            Some(shipped) => {
                check_dummies(alloc, line, shipped.dummies.as_slice())?;
                Ok(())
            }
            None => Ok(()),
        }
    }

    /// A `finish` or `team_split` on a line.
    fn check_collective(&self, alloc: Global, line: u32) -> Result<(), ShipFault>
        ensures ok { OnOk result (IsTrue self.now.reached → ⊥) }
        ensures err { IfErr result (λ f. IsWrongCollective self.now.reached self.now.name.now line f) }
    {
        if !self.reached {
            return Ok(());
        }
        let name = Text::copy_of(alloc, self.name)?;
        Err(ShipFault::CollectiveInShip(line, name))
    }

    /// What stands at one place.
    fn check_site(&self, alloc: Global, site: &Site) -> Result<(), ShipFault>
        ensures ok { OnOk result (MayStand self.now.subs.now self.now.reached site.now) }
        ensures err { IfErr result (λ f. IsWrong self.now.subs.now self.now.reached self.now.name.now site.now f) }
    {
        match site {
            Site::Spawn { line, sub } => {
                self.check_spawn(alloc, *line, *sub)?;
                Ok(())
            }
            Site::Collective { line } => {
                self.check_collective(alloc, *line)?;
                Ok(())
            }
        }
    }

    /// What stands at the places of the part, the first of which that is wrong decides.
    pub fn check(&self, alloc: Global, sites: &[Site]) -> Result<(), ShipFault>
        ensures ok { OnOk result (IsPlain self.now.subs.now self.now.reached sites.now) }
        ensures err { IfErr result (λ f. BreaksIn self.now.subs.now self.now.reached self.now.name.now sites.now f) }
    {
        for site in sites {
            self.check_site(alloc, site)?;
        }
        Ok(())
    }
}
