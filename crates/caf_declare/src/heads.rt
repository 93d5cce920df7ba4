ghost use Rattle.std.specs.Prelude.{◌≡◌, List, Option, None, IfOk, map, bytes_eq, position};
ghost use Rattle.caf_tree.specs.declared.expr.Expr.{Expr};
ghost use Rattle.caf_tree.specs.declared.unit.Item.{Item};
ghost use Rattle.caf_declare.specs.Table.{Name, found};
ghost use Rattle.caf_declare.specs.Names.{Tells, among as is_among};
ghost use Rattle.caf_declare.specs.Frames.{noted, noted_by as noted_by_one, heads_of as heads_meant, or_none as none_or, signature as signature_of, listed_dummy as dummy_listed, listed as all_listed, intent_meant};

use crate::fault::{Rule, Stop, broken};
use crate::operator::kind_meant;
use crate::symbol::{Symbol, Taken};
use crate::table::Table;
use caf_base::{Memory, Text};
use caf_program::Intent;
use caf_tree::expr::Expr;
use caf_tree::unit::{self, Decl, Item};
use sqlite_items::Items;
use std::alloc::Global;

/// Names of one declaration more.
fn note_names(
    alloc: Global,
    taken: Option<Taken>,
    names: &[Text],
    mut heads: Table<Option<Taken>>,
) -> Result<Table<Option<Taken>>, Memory>
    ensures { IfOk result (λ all. all ≡ noted taken names.now heads) }
{
    for name in names {
        heads.add(alloc, name.as_str(), taken)?;
    }
    Ok(heads)
}

/// Names of one declaration of parameters more.
fn note_values(
    alloc: Global,
    values: &[(Text, Expr)],
    mut heads: Table<Option<Taken>>,
) -> Result<Table<Option<Taken>>, Memory>
    ensures { IfOk result (λ all. all ≡ noted None (map (λ (p : Name × Expr). p.0) values.now) heads) }
{
    for (name, _) in values {
        heads.add(alloc, name.as_str(), None)?;
    }
    Ok(heads)
}

/// Names of one declaration of items more.
fn note_items(
    alloc: Global,
    items: &[Item],
    mut heads: Table<Option<Taken>>,
) -> Result<Table<Option<Taken>>, Memory>
    ensures { IfOk result (λ all. all ≡ noted None (map (λ (i : Item). i.name) items.now) heads) }
{
    for item in items {
        heads.add(alloc, item.name.as_str(), None)?;
    }
    Ok(heads)
}

/// An intent as it is written.
pub fn intent(intent: unit::Intent) -> Intent
    ensures { result ≡ intent_meant intent }
{
    match intent {
        unit::Intent::In => Intent::In,
        unit::Intent::InOut => Intent::InOut,
    }
}

/// The names behind one declaration more.
fn note(
    alloc: Global,
    declaration: &Decl,
    heads: Table<Option<Taken>>,
) -> Result<Table<Option<Taken>>, Memory>
    ensures { IfOk result (λ all. all ≡ noted_by_one declaration.now heads) }
{
    match declaration {
        Decl::Parameters { values, .. } => note_values(alloc, values.as_slice(), heads),
        Decl::Copointers { names, .. } => note_names(alloc, None, names.as_slice(), heads),
        Decl::Dummies {
            kind,
            intent: asked,
            names,
            ..
        } => {
            let taken = Taken {
                kind: kind_meant(*kind),
                intent: intent(*asked),
            };
            note_names(alloc, Some(taken), names.as_slice(), heads)
        }
        Decl::Variables { items, .. } => note_items(alloc, items.as_slice(), heads),
        Decl::Events { items, .. } => note_items(alloc, items.as_slice(), heads),
        Decl::Teams { names, .. } => note_names(alloc, None, names.as_slice(), heads),
    }
}

/// The names that declarations declare, each with what its first declaration says of a dummy.
pub fn heads_of(alloc: Global, declarations: &[Decl]) -> Result<Table<Option<Taken>>, Memory>
    ensures { IfOk result (λ heads. heads ≡ heads_meant declarations.now) }
{
    let mut heads = Table::new(alloc);
    for declaration in declarations {
        heads = note(alloc, declaration, heads)?;
    }
    Ok(heads)
}

/// What a subroutine takes for a dummy, if it is declared with an intent.
pub fn taken(heads: &Table<Option<Taken>>, name: &str) -> Option<Taken>
    ensures { result ≡ none_or (found heads.now name.now) }
{
    match heads.look(name) {
        Some(taken) => taken,
        None => None,
    }
}

/// What a subroutine takes for its dummies.
pub fn signature(
    alloc: Global,
    heads: &Table<Option<Taken>>,
    header: &[Text],
) -> Result<Items<Option<Taken>>, Memory>
    ensures { IfOk result (λ all. all ≡ signature_of heads.now header.now) }
{
    let mut all = Items::new(alloc);
    for name in header {
        all.push(taken(heads, name.as_str()))?;
    }
    Ok(all)
}

/// Whether two names are one.
fn is_name(a: &Text, b: &str) -> bool
    ensures { result ≡ bytes_eq b.now a.now }
{
    a.as_str() == b
}

/// Whether a name is among others.
pub fn among(names: &[Text], name: &str) -> bool
    ensures { result ≡ is_among names.now name.now }
{
    names.iter().any(|other| is_name(other, name))
}

/// The place of a name among others.
pub fn place_of(names: &[Text], name: &str) -> Option<usize>
    ensures { result ≡ position (bytes_eq name.now) names.now }
{
    names.iter().position(|other| is_name(other, name))
}

/// A dummy stands once in the list, is declared, and is one of at most 64.
fn check_dummy(
    alloc: Global,
    line: u32,
    heads: &Table<Option<Taken>>,
    before: &[Text],
    name: &str,
) -> Result<(), Stop>
    ensures { Tells (dummy_listed line heads.now before.now name.now) result }
{
    if among(before, name) {
        return Err(broken(alloc, Rule::Twice, line, name));
    }
    if heads.look(name).is_none() {
        return Err(broken(alloc, Rule::Undeclared, line, name));
    }
    if before.len() < 64 {
        Ok(())
    } else {
        Err(broken(alloc, Rule::TooManyCells, line, name))
    }
}

/// The dummies of a subroutine's list stand there once, are declared, and are at most 64.
pub fn check_dummies(
    alloc: Global,
    line: u32,
    heads: &Table<Option<Taken>>,
    header: &[Text],
) -> Result<(), Stop>
    ensures { Tells (all_listed line heads.now header.now) result }
{
    for at in 0..header.len() {
        check_dummy(alloc, line, heads, &header[..at], header[at].as_str())?;
    }
    Ok(())
}
