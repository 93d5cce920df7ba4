ghost use Rattle.std.specs.Prelude.{◌≡◌, ℕ, OnOk, IfOk, IfErr, length, ◌<◌};
ghost use Rattle.caf_program.specs.declared.program.Program.{Program};
ghost use Rattle.caf_program.specs.Accepted.{KeepsKinds};
ghost use Rattle.caf_program.specs.Ships.{KeepsShips, calls_of, shipped_in};
ghost use Rattle.caf_teamcheck.specs.Faults.{Breaks, IsMemory};
ghost use Rattle.caf_teamcheck.specs.Marks.{AreReached};
ghost use Rattle.caf_teamcheck.specs.Whole.{IsMainPlain, IsSubPlain, AreSubsPlain};
ghost use Rattle.caf_teamcheck.specs.declared.fault.ShipFault.{ShipFault};

use crate::calls::calls_of;
use crate::fault::ShipFault;
use crate::marks::reached_from;
use crate::part::Part;
use crate::shipped::shipped_by;
use crate::site::sites_of;
use caf_program::{Accepted, Program};
use std::alloc::Global;

/// Checks the main program, which no ship reaches.
#[tactic(auto, using(crate::proofs::Broken::main_breaks))]
fn check_main(alloc: Global, program: &Program) -> Result<(), ShipFault>
    ensures ok { OnOk result (IsMainPlain program.now) }
    ensures err { IfErr result (λ f. Breaks program.now f) }
{
    let sites = sites_of(alloc, program.body.as_slice())?;
    let part = Part {
        subs: program.subs.as_slice(),
        reached: false,
        name: "",
    };
    part.check(alloc, sites.as_slice())?;
    Ok(())
}

/// Checks the subroutine at a place, which a ship reaches where it is marked.
fn check_sub(alloc: Global, program: &Program, marks: &[bool], at: usize) -> Result<(), ShipFault>
    requires reached { AreReached (calls_of program.now) (shipped_in program.now) marks.now }
    requires within { at < length program.now.subs }
    ensures ok { OnOk result (IsSubPlain program.now marks.now at) }
    ensures err { IfErr result (λ f. Breaks program.now f) }
{
    let subs = program.subs.as_slice();
    let sub = &subs[at];
    let sites = sites_of(alloc, sub.body.as_slice())?;
    let part = Part {
        subs,
        reached: marks[at],
        name: sub.name.as_str(),
    };
    part.check(alloc, sites.as_slice())?;
    Ok(())
}

/// Checks all subroutines, of which a ship reaches those that are marked.
fn check_subs(alloc: Global, program: &Program, marks: &[bool]) -> Result<(), ShipFault>
    requires { AreReached (calls_of program.now) (shipped_in program.now) marks.now }
    ensures ok { OnOk result (AreSubsPlain program.now marks.now (length program.now.subs)) }
    ensures err { IfErr result (λ f. Breaks program.now f) }
{
    for at in 0..program.subs.len() {
        check_sub(alloc, program, marks, at)?;
    }
    Ok(())
}

/// Whether what a program ships is plain, or the first fault in written order.
#[tactic(auto, using(crate::proofs::Broken::keeps_ships))]
fn check_program(alloc: Global, program: &Program) -> Result<(), ShipFault>
    ensures ok { OnOk result (KeepsShips program.now) }
    ensures err { IfErr result (λ f. Breaks program.now f) }
{
    let calls = calls_of(alloc, program.subs.as_slice())?;
    let shipped = shipped_by(alloc, program)?;
    let marks = reached_from(alloc, calls.as_slice(), shipped.as_slice())?;
    check_main(alloc, program)?;
    check_subs(alloc, program, marks.as_slice())?;
    Ok(())
}

/// The accepted program, exactly where a shipped subroutine, and what it reaches by calls, holds no `finish` and no
/// `team_split`, and its dummies are all `intent(in)`; else what breaks this first in written order.
///
/// # Errors
///
/// A fault says which line and name break the rule; [`a_fault_breaks_a_rule`] says that the program then doesn't
/// keep it. The program is given up.
pub fn check_ships(alloc: Global, program: Program) -> Result<Accepted, ShipFault>
    requires { KeepsKinds program }
    ensures same { IfOk result (λ a. a ≡ program) }
    ensures ships { OnOk result (KeepsShips program) }
    ensures broken { IfErr result (λ f. Breaks program f) }
{
    check_program(alloc, &program)?;
    Ok(Accepted::of(program))
}

/// The law that a program with a fault doesn't keep the rule, so that one is answered exactly where it isn't kept.
#[tactic(auto, using(crate::proofs::Broken::fault_breaks))]
pub fn a_fault_breaks_a_rule()
    ensures { (p : Program) (f : ShipFault) → Breaks p f → (IsMemory f → ⊥) → KeepsShips p → ⊥ }
{}
