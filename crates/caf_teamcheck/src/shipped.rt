ghost use Rattle.std.specs.Prelude.{◌≡◌, ◌++◌, OnOk, IfOk, map};
ghost use Rattle.std.specs.List.{flat_map};
ghost use Rattle.caf_program.specs.Ships.{spawns_in, shipped_in};
ghost use Rattle.caf_teamcheck.specs.Spawned.{place, spawns_by};

use caf_base::{Memory, Sequence};
use caf_program::{Program, StmtR, SubR};
use std::alloc::Global;

/// Adds the subroutines that a statement ships.
#[cycle(shipped)]
#[tactic(auto, using(crate::proofs::Flat::places_of_two))]
fn add_shipped(statement: &StmtR, shipped: &mut Sequence<u32>) -> Result<(), Memory>
    ensures { OnOk result (shipped.new ≡ shipped.old ++ map place (spawns_in statement.now)) }
{
    match statement {
        StmtR::Spawn { sub, .. } => shipped.push(*sub),
        StmtR::If {
            block,
            otherwise,
            ..
        } => {
            add_block_shipped(block.as_slice(), shipped)?;
            add_block_shipped(otherwise.as_slice(), shipped)?;
            Ok(())
        }
        StmtR::Do { body, .. } => {
            add_block_shipped(body.as_slice(), shipped)?;
            Ok(())
        }
        StmtR::While { body, .. } => {
            add_block_shipped(body.as_slice(), shipped)?;
            Ok(())
        }
        StmtR::Finish { body, .. } => {
            add_block_shipped(body.as_slice(), shipped)?;
            Ok(())
        }
        _ => Ok(()),
    }
}

/// Adds the subroutines that the statements of a block ship.
#[cycle(shipped)]
#[tactic(auto, using(crate::proofs::Flat::places_of_more))]
fn add_block_shipped(block: &[StmtR], shipped: &mut Sequence<u32>) -> Result<(), Memory>
    ensures { OnOk result (shipped.new ≡ shipped.old ++ map place (flat_map (λ found. found) (map spawns_in block.now))) }
{
    for statement in block {
        add_shipped(statement, shipped)?;
    }
    Ok(())
}

/// Adds the subroutines that a subroutine ships.
#[tactic(auto, using(crate::proofs::Flat::spawn_blocks))]
fn add_shipped_by(sub: &SubR, shipped: &mut Sequence<u32>) -> Result<(), Memory>
    ensures { OnOk result (shipped.new ≡ shipped.old ++ map place (spawns_by sub.now)) }
{
    add_block_shipped(sub.body.as_slice(), shipped)?;
    Ok(())
}

/// Adds the subroutines that subroutines ship.
#[tactic(auto, using(crate::proofs::Flat::places_by_more))]
fn add_all_shipped_by(subs: &[SubR], shipped: &mut Sequence<u32>) -> Result<(), Memory>
    ensures { OnOk result (shipped.new ≡ shipped.old ++ map place (flat_map spawns_by subs.now)) }
{
    for sub in subs {
        add_shipped_by(sub, shipped)?;
    }
    Ok(())
}

/// The subroutines that a program ships.
#[tactic(auto, using(crate::proofs::Flat::shipped_is))]
pub fn shipped_by(alloc: Global, program: &Program) -> Result<Sequence<u32>, Memory>
    ensures { IfOk result (λ shipped. shipped ≡ shipped_in program.now) }
{
    let mut shipped = Sequence::new(alloc);
    add_block_shipped(program.body.as_slice(), &mut shipped)?;
    add_all_shipped_by(program.subs.as_slice(), &mut shipped)?;
    Ok(shipped)
}
