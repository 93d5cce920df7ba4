ghost use Rattle.std.specs.Prelude.{◌≡◌, ◌++◌, OnOk, IfOk, map};
ghost use Rattle.std.specs.List.{flat_map};
ghost use Rattle.caf_program.specs.Ships.{calls_in};

use caf_base::{Memory, Sequence};
use caf_program::{StmtR, SubR};
use std::alloc::Global;

/// Adds the subroutines that a statement calls.
#[cycle(calls)]
fn add_calls(statement: &StmtR, calls: &mut Sequence<u32>) -> Result<(), Memory>
    ensures { OnOk result (calls.new ≡ calls.old ++ calls_in statement.now) }
{
    match statement {
        StmtR::Call { sub, .. } => calls.push(*sub),
        StmtR::If {
            block,
            otherwise,
            ..
        } => {
            add_block_calls(block.as_slice(), calls)?;
            add_block_calls(otherwise.as_slice(), calls)?;
            Ok(())
        }
        StmtR::Do { body, .. } => {
            add_block_calls(body.as_slice(), calls)?;
            Ok(())
        }
        StmtR::While { body, .. } => {
            add_block_calls(body.as_slice(), calls)?;
            Ok(())
        }
        StmtR::Finish { body, .. } => {
            add_block_calls(body.as_slice(), calls)?;
            Ok(())
        }
        _ => Ok(()),
    }
}

/// Adds the subroutines that the statements of a block call.
#[cycle(calls)]
fn add_block_calls(block: &[StmtR], calls: &mut Sequence<u32>) -> Result<(), Memory>
    ensures { OnOk result (calls.new ≡ calls.old ++ flat_map (λ found. found) (map calls_in block.now)) }
{
    for statement in block {
        add_calls(statement, calls)?;
    }
    Ok(())
}

/// The subroutines that a body calls.
#[tactic(auto, using(crate::proofs::Flat::called_blocks))]
fn calls_of_body(alloc: Global, body: &[StmtR]) -> Result<Sequence<u32>, Memory>
    ensures { IfOk result (λ calls. calls ≡ flat_map calls_in body.now) }
{
    let mut calls = Sequence::new(alloc);
    add_block_calls(body, &mut calls)?;
    Ok(calls)
}

/// For each subroutine the subroutines that it calls.
pub fn calls_of(alloc: Global, subs: &[SubR]) -> Result<Sequence<Sequence<u32>>, Memory>
    ensures { IfOk result (λ calls. calls ≡ map (λ f. flat_map calls_in f.body) subs.now) }
{
    let mut calls = Sequence::new(alloc);
    for sub in subs {
        let row = calls_of_body(alloc, sub.body.as_slice())?;
        calls.push(row)?;
    }
    Ok(calls)
}
