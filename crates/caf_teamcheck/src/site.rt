ghost use Rattle.std.specs.Prelude.{◌≡◌, ◌++◌, OnOk, IfOk, map};
ghost use Rattle.std.specs.List.{flat_map};
ghost use Rattle.caf_teamcheck.specs.Sites.{sites_in};

use caf_base::{Memory, Sequence};
use caf_program::StmtR;
use std::alloc::Global;

/// A place of the program that the rule on ships speaks of, with its line.
#[derive(Debug, Drop)]
pub enum Site {
    /// A `spawn`, with the place of its subroutine.
    Spawn { line: u32, sub: u32 },
    /// A `finish` or a `team_split`.
    Collective { line: u32 },
}

/// Adds the places in a statement, in written order.
#[cycle(sites)]
fn add_sites(statement: &StmtR, sites: &mut Sequence<Site>) -> Result<(), Memory>
    ensures { OnOk result (sites.new ≡ sites.old ++ sites_in statement.now) }
{
    match statement {
        StmtR::Spawn { line, sub, .. } => sites.push(Site::Spawn {
            line: *line,
            sub: *sub,
        }),
        StmtR::Split { line, .. } => sites.push(Site::Collective { line: *line }),
        StmtR::Finish { line, body, .. } => {
            sites.push(Site::Collective { line: *line })?;
            add_block_sites(body.as_slice(), sites)?;
            Ok(())
        }
        StmtR::If {
            block,
            otherwise,
            ..
        } => {
            add_block_sites(block.as_slice(), sites)?;
            add_block_sites(otherwise.as_slice(), sites)?;
            Ok(())
        }
        StmtR::Do { body, .. } => {
            add_block_sites(body.as_slice(), sites)?;
            Ok(())
        }
        StmtR::While { body, .. } => {
            add_block_sites(body.as_slice(), sites)?;
            Ok(())
        }
        _ => Ok(()),
    }
}

/// Adds the places in the statements of a block, in written order.
#[cycle(sites)]
fn add_block_sites(block: &[StmtR], sites: &mut Sequence<Site>) -> Result<(), Memory>
    ensures { OnOk result (sites.new ≡ sites.old ++ flat_map (λ found. found) (map sites_in block.now)) }
{
    for statement in block {
        add_sites(statement, sites)?;
    }
    Ok(())
}

/// The places in a body, in written order.
#[tactic(auto, using(crate::proofs::Flat::site_blocks))]
pub fn sites_of(alloc: Global, body: &[StmtR]) -> Result<Sequence<Site>, Memory>
    ensures { IfOk result (λ sites. sites ≡ flat_map sites_in body.now) }
{
    let mut sites = Sequence::new(alloc);
    add_block_sites(body, &mut sites)?;
    Ok(sites)
}
