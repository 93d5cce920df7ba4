ghost use Rattle.std.specs.Prelude.{◌≡◌, ℕ, Option, List, length};
ghost use Rattle.caf_declare.specs.declared.symbol.Taken.{Taken};
ghost use Rattle.caf_declare.specs.Names.{Tells};
ghost use Rattle.caf_declare.specs.Globals.{all_in_turn};
ghost use Rattle.caf_declare.specs.Frames.{is_writable as is_intent_writable, with_name as with_name_meant, refused_items, dummy_meant as meant_dummy, dummies_meant as meant_dummies, declare_dummy as dummy_declared, no_dummy as isnt_dummy, plain as is_plain, with_local as local_placed, declare_local as local_declared, own_parameter as parameter_meant, declare_own_parameter as parameter_declared, declare_in as declared_in, frame_of};

use crate::constant::Declaring;
use crate::fault::{Rule, Stop, broken};
use crate::globals::{parameter, place_behind, refuse_names};
use crate::heads::{among, place_of, taken};
use crate::operator::kind_meant;
use crate::symbol::{Symbol, Taken};
use crate::table::Table;
use caf_base::{Sequence, Text};
use caf_program::{DummyR, Intent, ValueKind};
use caf_tree::expr::Expr;
use caf_tree::unit::{Decl, Item};
use std::alloc::Global;

/// What a subroutine declares so far: its names, and the kinds of its locals. The cells of its dummies come first.
#[derive(Drop)]
pub struct Frame {
    pub names: Table<Symbol>,
    pub locals: Sequence<ValueKind>,
}

/// What a subroutine's declarations stand in: the dummies of its list, all names that it declares, and those of the main
/// program.
#[derive(Clone, Copy)]
pub struct Around<'a> {
    pub header: &'a [Text],
    pub heads: &'a Table<Option<Taken>>,
    pub main: &'a Table<Symbol>,
}

/// A dummy, which has an intent.
fn dummy(alloc: Global, line: u32, name: &str, taken: Option<Taken>) -> Result<DummyR, Stop>
    ensures { Tells (meant_dummy line name.now taken) result }
{
    match taken {
        None => Err(broken(alloc, Rule::WrongKind, line, name)),
        Some(taken) => Ok(DummyR {
            name: Text::copy_of(alloc, name)?,
            kind: taken.kind,
            intent: taken.intent,
        }),
    }
}

/// The dummies of a subroutine.
pub fn dummies(
    alloc: Global,
    line: u32,
    heads: &Table<Option<Taken>>,
    header: &[Text],
) -> Result<Sequence<DummyR>, Stop>
    ensures { Tells (meant_dummies line heads.now header.now) result }
{
    let mut done = Sequence::new(alloc);
    for name in header {
        let dummy = dummy(alloc, line, name.as_str(), taken(heads, name.as_str()))?;
        done.push(dummy)?;
    }
    Ok(done)
}

/// Whether a dummy may be written.
fn is_writable(intent: Intent) -> bool
    ensures { result ≡ is_intent_writable intent }
{
    match intent {
        Intent::In => false,
        Intent::InOut => true,
    }
}

/// One name more.
fn with_name(
    alloc: Global,
    line: u32,
    name: &str,
    symbol: Symbol,
    mut f: Frame,
) -> Result<Frame, Stop>
    ensures { Tells (with_name_meant line name.now symbol f) result }
{
    if f.names.add(alloc, name, symbol)? {
        Ok(f)
    } else {
        Err(broken(alloc, Rule::Twice, line, name))
    }
}

/// What is declared behind the declaration of a dummy, which has the kind and intent that its first declaration says.
fn declare_dummy(
    alloc: Global,
    around: &Around,
    line: u32,
    name: &str,
    f: Frame,
) -> Result<Frame, Stop>
    ensures { Tells (dummy_declared line around.now.header.now around.now.heads.now name.now f) result }
{
    match (place_of(around.header, name), taken(around.heads, name)) {
        (Some(at), Some(taken)) => {
            let symbol = Symbol::Local {
                kind: taken.kind,
                cell: place_behind(at)?,
                writable: is_writable(taken.intent),
            };
            with_name(alloc, line, name, symbol, f)
        }
        _ => Err(broken(alloc, Rule::WrongKind, line, name)),
    }
}

/// A dummy isn't declared without an intent.
fn no_dummy(alloc: Global, line: u32, header: &[Text], name: &str) -> Result<(), Stop>
    ensures { Tells (isnt_dummy line header.now name.now) result }
{
    if among(header, name) {
        Err(broken(alloc, Rule::WrongKind, line, name))
    } else {
        Ok(())
    }
}

/// A local is a scalar.
fn plain(alloc: Global, line: u32, item: &Item) -> Result<(), Stop>
    ensures { Tells (is_plain line item.now) result }
{
    if item.bounds.is_some() || item.shared {
        Err(broken(alloc, Rule::WrongKind, line, item.name.as_str()))
    } else {
        Ok(())
    }
}

/// One local more, whose name is declared.
fn with_local(
    alloc: Global,
    line: u32,
    dummies: usize,
    kind: ValueKind,
    name: &str,
    mut f: Frame,
) -> Result<Frame, Stop>
    ensures { Tells (local_placed line dummies kind name.now f) result }
{
    if dummies < 64 && f.locals.len() < 64 - dummies {
        f.locals.push(kind)?;
        Ok(f)
    } else {
        Err(broken(alloc, Rule::TooManyCells, line, name))
    }
}

/// What is declared behind one local more.
fn declare_local(
    alloc: Global,
    line: u32,
    header: &[Text],
    kind: ValueKind,
    item: &Item,
    f: Frame,
) -> Result<Frame, Stop>
    ensures { Tells (local_declared line header.now kind item.now f) result }
{
    let name = item.name.as_str();
    let symbol = Symbol::Local {
        kind,
        cell: place_behind(header.len() + f.locals.len())?,
        writable: true,
    };
    let f = with_name(alloc, line, name, symbol, f)?;
    no_dummy(alloc, line, header, name)?;
    plain(alloc, line, item)?;
    with_local(alloc, line, header.len(), kind, name, f)
}

/// What a parameter of a subroutine stands for.
fn own_parameter(
    alloc: Global,
    around: &Around,
    line: u32,
    kind: ValueKind,
    name: &str,
    e: &Expr,
    f: &Frame,
) -> Result<Symbol, Stop>
    ensures { Tells (parameter_meant line around.now.header.now around.now.heads.now around.now.main.now kind name.now e.now f.now) result }
{
    no_dummy(alloc, line, around.header, name)?;
    let at = Declaring {
        own: &f.names,
        heads: around.heads,
        main: around.main,
        line,
        item: name,
    };
    parameter(alloc, &at, kind, e)
}

/// What is declared behind one parameter more.
fn declare_parameter(
    alloc: Global,
    around: &Around,
    line: u32,
    kind: ValueKind,
    name: &str,
    e: &Expr,
    f: Frame,
) -> Result<Frame, Stop>
    ensures { Tells (parameter_declared line around.now.header.now around.now.heads.now around.now.main.now kind (name.now, e.now) f) result }
{
    let symbol = own_parameter(alloc, around, line, kind, name, e, &f)?;
    with_name(alloc, line, name, symbol, f)
}

/// What is declared behind some parameters.
fn declare_parameters(
    alloc: Global,
    around: &Around,
    line: u32,
    kind: ValueKind,
    values: &[(Text, Expr)],
    mut f: Frame,
) -> Result<Frame, Stop>
    ensures { Tells (all_in_turn (parameter_declared line around.now.header.now around.now.heads.now around.now.main.now kind) values.now f) result }
{
    for (name, e) in values {
        f = declare_parameter(alloc, around, line, kind, name.as_str(), e, f)?;
    }
    Ok(f)
}

/// What is declared behind the declarations of some dummies.
fn declare_dummies(
    alloc: Global,
    around: &Around,
    line: u32,
    names: &[Text],
    mut f: Frame,
) -> Result<Frame, Stop>
    ensures { Tells (all_in_turn (dummy_declared line around.now.header.now around.now.heads.now) names.now f) result }
{
    for name in names {
        f = declare_dummy(alloc, around, line, name.as_str(), f)?;
    }
    Ok(f)
}

/// What is declared behind some locals.
fn declare_locals(
    alloc: Global,
    line: u32,
    header: &[Text],
    kind: ValueKind,
    items: &[Item],
    mut f: Frame,
) -> Result<Frame, Stop>
    ensures { Tells (all_in_turn (local_declared line header.now kind) items.now f) result }
{
    for item in items {
        f = declare_local(alloc, line, header, kind, item, f)?;
    }
    Ok(f)
}

/// Items that may not be declared in a subroutine.
fn refuse_items(alloc: Global, line: u32, items: &[Item]) -> Result<(), Stop>
    ensures { Tells (refused_items line items.now) result }
{
    match items {
        [] => Ok(()),
        [item, ..] => Err(broken(alloc, Rule::WrongKind, line, item.name.as_str())),
    }
}

/// What is declared behind one declaration more.
fn declare(alloc: Global, around: &Around, declaration: &Decl, f: Frame) -> Result<Frame, Stop>
    ensures { Tells (declared_in around.now.header.now around.now.heads.now around.now.main.now declaration.now f) result }
{
    match declaration {
        Decl::Parameters { line, kind, values } => {
            declare_parameters(
                alloc,
                around,
                *line,
                kind_meant(*kind),
                values.as_slice(),
                f,
            )
        }
        Decl::Copointers { line, names, .. } => {
            refuse_names(alloc, *line, names.as_slice())?;
            Ok(f)
        }
        Decl::Dummies { line, names, .. } => {
            declare_dummies(alloc, around, *line, names.as_slice(), f)
        }
        Decl::Variables { line, kind, items } => {
            declare_locals(
                alloc,
                *line,
                around.header,
                kind_meant(*kind),
                items.as_slice(),
                f,
            )
        }
        Decl::Events { line, items } => {
            refuse_items(alloc, *line, items.as_slice())?;
            Ok(f)
        }
        Decl::Teams { line, names } => {
            refuse_names(alloc, *line, names.as_slice())?;
            Ok(f)
        }
    }
}

/// What the declarations of a subroutine declare.
pub fn declare_frame(alloc: Global, around: &Around, declarations: &[Decl]) -> Result<Frame, Stop>
    ensures { Tells (frame_of around.now.header.now around.now.heads.now around.now.main.now declarations.now) result }
{
    let mut f = Frame {
        names: Table::new(alloc),
        locals: Sequence::new(alloc),
    };
    for declaration in declarations {
        f = declare(alloc, around, declaration, f)?;
    }
    Ok(f)
}
