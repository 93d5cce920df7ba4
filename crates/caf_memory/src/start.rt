ghost use Rattle.std.specs.Prelude.{◌≡◌, IfOk, map, None, replicate, pos};
ghost use Rattle.caf_base.specs.declared.object.Object.{Object};
ghost use Rattle.caf_base.specs.Start.{start_cells, start_posts};

use crate::Memory;
use caf_base::{Kind, Object, Section, Sequence, Team};
use std::alloc::Global;

// Each object's cells, all 0.
pub fn first_cells(alloc: Global, objects: &[Object]) -> Result<Vec<Sequence<i64>>, Memory>
    ensures { IfOk result (λ cells. cells.items ≡ map (λ (o : Object). start_cells o.kind o.extent) objects.now) }
{
    let mut cells = Vec::new(alloc);
    for object in objects {
        cells.push(first_row(alloc, object)?)?;
    }
    Ok(cells)
}

fn first_row(alloc: Global, object: &Object) -> Result<Sequence<i64>, Memory>
    ensures { IfOk result (λ row. row ≡ start_cells object.now.kind object.now.extent) }
{
    match object.kind {
        Kind::Integer => zeros(alloc, object.extent),
        Kind::Logical => zeros(alloc, object.extent),
        _ => Ok(Sequence::new(alloc)),
    }
}

fn zeros(alloc: Global, count: u32) -> Result<Sequence<i64>, Memory>
    ensures { IfOk result (λ row. row ≡ replicate count (pos 0)) }
{
    let row = vec![in alloc; 0_i64; count as usize]?;
    Ok(Sequence::from_vec(row))
}

// Each event's posts, all 0.
pub fn first_posts(alloc: Global, objects: &[Object]) -> Result<Vec<Sequence<u32>>, Memory>
    ensures { IfOk result (λ posts. posts.items ≡ map (λ (o : Object). start_posts o.kind o.extent) objects.now) }
{
    let mut posts = Vec::new(alloc);
    for object in objects {
        posts.push(first_events(alloc, object)?)?;
    }
    Ok(posts)
}

fn first_events(alloc: Global, object: &Object) -> Result<Sequence<u32>, Memory>
    ensures { IfOk result (λ row. row ≡ start_posts object.now.kind object.now.extent) }
{
    match object.kind {
        Kind::Event => {
            let row = vec![in alloc; 0_u32; object.extent as usize]?;
            Ok(Sequence::from_vec(row))
        }
        _ => Ok(Sequence::new(alloc)),
    }
}

// No team is set.
pub fn first_teams(alloc: Global, objects: &[Object]) -> Result<Vec<Option<Team>>, Memory>
    ensures { IfOk result (λ teams. teams.items ≡ map (λ (o : Object). None) objects.now) }
{
    let mut teams = Vec::new(alloc);
    for _object in objects {
        teams.push(None)?;
    }
    Ok(teams)
}

// No copointer is set.
pub fn first_copointers(alloc: Global, objects: &[Object]) -> Result<Vec<Option<Section>>, Memory>
    ensures { IfOk result (λ copointers. copointers.items ≡ map (λ (o : Object). None) objects.now) }
{
    let mut copointers = Vec::new(alloc);
    for _object in objects {
        copointers.push(None)?;
    }
    Ok(copointers)
}
