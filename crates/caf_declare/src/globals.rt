ghost use Rattle.std.specs.Prelude.{◌≡◌, ℕ, pos, ◌+ℤ◌, ◌-ℤ◌, List, [], IfOk, Result, Ok, length};
ghost use Rattle.caf_base.specs.Arithmetic.{at_least_none};
ghost use Rattle.caf_declare.specs.declared.symbol.Symbol.{Symbol};
ghost use Rattle.caf_declare.specs.Names.{Tells, unused as unused_name, refused as refused_names};
ghost use Rattle.caf_declare.specs.Constants.{known, known_in, Heads};
ghost use Rattle.caf_declare.specs.Globals.{all_in_turn, no_globals, with_object as with_object_meant, declare_object as object_declared, bounded as bounded_meant, bound as bound_meant, lower_bound as lower_meant, span as span_meant, value_object as value_kind_of, copointer_object as copointer_kind_of, value_symbol as value_symbol_of, so_far, item_span as item_span_meant, main_parameter as main_parameter_meant, parameter_symbol as parameter_meant, declare_variable as variable_declared, declare_event as event_declared, declare_copointer as copointer_declared, declare_team as team_declared, declare_parameter as main_parameter_declared, declare as declare_meant, globals_of, alone as alone_of};

use crate::constant::{Declaring, number_of, value};
use crate::fault::{Rule, Stop, broken};
use crate::operator::kind_meant;
use crate::symbol::{Symbol, Taken};
use crate::table::Table;
use caf_base::{Kind, Memory, Object, Sequence, Text};
use caf_program::ValueKind;
use caf_tree::expr::Expr;
use caf_tree::unit::{Bounds, Decl, Item};
use std::alloc::Global;

/// What the main program declares so far.
#[derive(Drop)]
pub struct Globals {
    pub names: Table<Symbol>,
    pub objects: Sequence<Object>,
    /// The name of each object.
    pub labels: Sequence<Text>,
    /// The cells that the objects take.
    pub cells: u32,
}

/// An object that is to be declared, however large.
#[derive(Clone, Copy, Debug)]
pub struct Shape {
    pub kind: Kind,
    pub lower: i64,
    pub extent: u128,
    pub shared: bool,
}

/// The place of what comes behind so many.
pub fn place_behind(count: usize) -> Result<u32, Memory>
    ensures { IfOk result (λ at. at ≡ count) }
{
    match u32::try_from(count) {
        Ok(at) => Ok(at),
        Err(_) => Err(Memory),
    }
}

/// A name that isn't declared yet in its part.
pub fn unused(alloc: Global, line: u32, names: &Table<Symbol>, name: &str) -> Result<(), Stop>
    ensures { Tells (unused_name line names.now name.now) result }
{
    match names.look(name) {
        Some(_) => Err(broken(alloc, Rule::Twice, line, name)),
        None => Ok(()),
    }
}

/// Names that may not be declared in their part.
pub fn refuse_names(alloc: Global, line: u32, names: &[Text]) -> Result<(), Stop>
    ensures { Tells (refused_names line names.now) result }
{
    match names {
        [] => Ok(()),
        [name, ..] => Err(broken(alloc, Rule::WrongKind, line, name.as_str())),
    }
}

/// What is declared behind one object more, whose name is declared.
fn with_object(
    alloc: Global,
    line: u32,
    name: &str,
    shape: Shape,
    mut m: Globals,
) -> Result<Globals, Stop>
    ensures { Tells (with_object_meant line name.now shape m m.names) result }
{
    let cells = u128::from(m.cells).saturating_add(shape.extent);
    if cells > 65_536 {
        return Err(broken(alloc, Rule::TooManyCells, line, name));
    }
    let label = Text::copy_of(alloc, name)?;
    m.objects.push(Object {
        kind: shape.kind,
        lower: shape.lower,
        extent: shape.extent as u32,
        shared: shape.shared,
    })?;
    m.labels.push(label)?;
    m.cells = cells as u32;
    Ok(m)
}

/// What is declared behind one object more.
fn declare_object(
    alloc: Global,
    line: u32,
    name: &str,
    symbol: Symbol,
    shape: Shape,
    mut m: Globals,
) -> Result<Globals, Stop>
    ensures { Tells (object_declared line name.now symbol shape m) result }
{
    if !m.names.add(alloc, name, symbol)? {
        return Err(broken(alloc, Rule::Twice, line, name));
    }
    with_object(alloc, line, name, shape, m)
}

/// A bound is a number of 64 bits.
fn bounded(line: u32, item: &str, number: i64) -> Result<i64, Stop>
    ensures { Tells (bounded_meant line item.now number) result }
{
    Ok(number)
}

/// A bound of an array, which is an integer.
fn bound(alloc: Global, at: &Declaring, e: &Expr) -> Result<i64, Stop>
    ensures { Tells (bound_meant (known_in at.now) at.now.line at.now.item.now e.now) result }
{
    let constant = value(alloc, at, ValueKind::Integer, e)?;
    bounded(at.line, at.item, number_of(constant))
}

/// A lower bound, which is 1 where none is written.
fn lower_bound(alloc: Global, at: &Declaring, e: &Option<Expr>) -> Result<i64, Stop>
    ensures { Tells (lower_meant (known_in at.now) at.now.line at.now.item.now e.now) result }
{
    match e {
        None => Ok(1),
        Some(e) => bound(alloc, at, e),
    }
}

/// The number of elements from a lower to an upper bound.
fn elements(lower: i64, upper: i64) -> u128
    ensures { result ≡ at_least_none (upper -ℤ lower +ℤ pos 1) }
{
    if upper < lower {
        return 0;
    }
    u128::from(upper.abs_diff(lower)) + 1
}

/// The lower bound and the number of elements of what is declared.
fn span(alloc: Global, at: &Declaring, bounds: &Option<Bounds>) -> Result<(i64, u128), Stop>
    ensures { Tells (span_meant (known_in at.now) at.now.line at.now.item.now bounds.now) result }
{
    match bounds {
        None => Ok((1, 1)),
        Some(bounds) => {
            let lower = lower_bound(alloc, at, &bounds.lower)?;
            let upper = bound(alloc, at, &bounds.upper)?;
            Ok((lower, elements(lower, upper)))
        }
    }
}

/// The same for an item of the main program, whose name isn't declared yet.
fn item_span(alloc: Global, line: u32, item: &Item, m: &Globals) -> Result<(i64, u128), Stop>
    ensures { Tells (item_span_meant line item.now m.now) result }
{
    let name = item.name.as_str();
    unused(alloc, line, &m.names, name)?;
    let heads = Table::new(alloc);
    let main = Table::new(alloc);
    let at = Declaring {
        own: &m.names,
        heads: &heads,
        main: &main,
        line,
        item: name,
    };
    span(alloc, &at, &item.bounds)
}

/// The kind of an object that holds values of a kind.
fn value_object(kind: ValueKind) -> Kind
    ensures { result ≡ value_kind_of kind }
{
    match kind {
        ValueKind::Integer => Kind::Integer,
        ValueKind::Logical => Kind::Logical,
    }
}

/// The kind of a copointer to values of a kind.
fn copointer_object(kind: ValueKind) -> Kind
    ensures { result ≡ copointer_kind_of kind }
{
    match kind {
        ValueKind::Integer => Kind::CoInteger,
        ValueKind::Logical => Kind::CoLogical,
    }
}

/// What the name of a variable stands for.
fn value_symbol(kind: ValueKind, object: u32, shared: bool, array: bool) -> Symbol
    ensures { result ≡ value_symbol_of kind object shared array }
{
    if array {
        Symbol::Array {
            kind,
            object,
            shared,
        }
    } else {
        Symbol::Scalar {
            kind,
            object,
            shared,
        }
    }
}

/// What is declared behind one variable more.
fn declare_variable(
    alloc: Global,
    line: u32,
    kind: ValueKind,
    item: &Item,
    m: Globals,
) -> Result<Globals, Stop>
    ensures { Tells (variable_declared line kind item.now m) result }
{
    let (lower, extent) = item_span(alloc, line, item, &m)?;
    let object = place_behind(m.objects.len())?;
    let symbol = value_symbol(kind, object, item.shared, item.bounds.is_some());
    let shape = Shape {
        kind: value_object(kind),
        lower,
        extent,
        shared: item.shared,
    };
    declare_object(alloc, line, item.name.as_str(), symbol, shape, m)
}

/// What is declared behind one event more.
fn declare_event(alloc: Global, line: u32, item: &Item, m: Globals) -> Result<Globals, Stop>
    ensures { Tells (event_declared line item.now m) result }
{
    let (lower, extent) = item_span(alloc, line, item, &m)?;
    let symbol = Symbol::Event {
        object: place_behind(m.objects.len())?,
        array: item.bounds.is_some(),
        shared: item.shared,
    };
    let shape = Shape {
        kind: Kind::Event,
        lower,
        extent,
        shared: item.shared,
    };
    declare_object(alloc, line, item.name.as_str(), symbol, shape, m)
}

/// One element at index 1 of this image alone.
fn alone(kind: Kind) -> Shape
    ensures { result ≡ alone_of kind }
{
    Shape {
        kind,
        lower: 1,
        extent: 1,
        shared: false,
    }
}

/// What is declared behind one copointer more.
fn declare_copointer(
    alloc: Global,
    line: u32,
    kind: ValueKind,
    name: &str,
    m: Globals,
) -> Result<Globals, Stop>
    ensures { Tells (copointer_declared line kind name.now m) result }
{
    let object = place_behind(m.objects.len())?;
    let symbol = Symbol::Copointer { kind, object };
    declare_object(alloc, line, name, symbol, alone(copointer_object(kind)), m)
}

/// What is declared behind one team more.
fn declare_team(alloc: Global, line: u32, name: &str, m: Globals) -> Result<Globals, Stop>
    ensures { Tells (team_declared line name.now m) result }
{
    let symbol = Symbol::Team(place_behind(m.objects.len())?);
    declare_object(alloc, line, name, symbol, alone(Kind::Team), m)
}

/// The value of a parameter, whose name isn't declared yet.
pub fn parameter(alloc: Global, at: &Declaring, kind: ValueKind, e: &Expr) -> Result<Symbol, Stop>
    ensures { Tells (parameter_meant at.now kind e.now) result }
{
    unused(alloc, at.line, at.own, at.item)?;
    let constant = value(alloc, at, kind, e)?;
    Ok(Symbol::Constant(constant))
}

/// What a parameter of the main program stands for.
fn main_parameter(
    alloc: Global,
    line: u32,
    kind: ValueKind,
    name: &str,
    e: &Expr,
    m: &Globals,
) -> Result<Symbol, Stop>
    ensures { Tells (main_parameter_meant line kind name.now e.now m.now) result }
{
    let heads = Table::new(alloc);
    let main = Table::new(alloc);
    let at = Declaring {
        own: &m.names,
        heads: &heads,
        main: &main,
        line,
        item: name,
    };
    parameter(alloc, &at, kind, e)
}

/// What is declared behind one parameter more.
fn declare_parameter(
    alloc: Global,
    line: u32,
    kind: ValueKind,
    name: &str,
    e: &Expr,
    mut m: Globals,
) -> Result<Globals, Stop>
    ensures { Tells (main_parameter_declared line kind (name.now, e.now) m) result }
{
    let symbol = main_parameter(alloc, line, kind, name, e, &m)?;
    if !m.names.add(alloc, name, symbol)? {
        return Err(broken(alloc, Rule::Twice, line, name));
    }
    Ok(m)
}

/// What is declared behind some parameters.
fn declare_parameters(
    alloc: Global,
    line: u32,
    kind: ValueKind,
    values: &[(Text, Expr)],
    mut m: Globals,
) -> Result<Globals, Stop>
    ensures { Tells (all_in_turn (main_parameter_declared line kind) values.now m) result }
{
    for (name, e) in values {
        m = declare_parameter(alloc, line, kind, name.as_str(), e, m)?;
    }
    Ok(m)
}

/// What is declared behind some copointers.
fn declare_copointers(
    alloc: Global,
    line: u32,
    kind: ValueKind,
    names: &[Text],
    mut m: Globals,
) -> Result<Globals, Stop>
    ensures { Tells (all_in_turn (copointer_declared line kind) names.now m) result }
{
    for name in names {
        m = declare_copointer(alloc, line, kind, name.as_str(), m)?;
    }
    Ok(m)
}

/// What is declared behind some variables.
fn declare_variables(
    alloc: Global,
    line: u32,
    kind: ValueKind,
    items: &[Item],
    mut m: Globals,
) -> Result<Globals, Stop>
    ensures { Tells (all_in_turn (variable_declared line kind) items.now m) result }
{
    for item in items {
        m = declare_variable(alloc, line, kind, item, m)?;
    }
    Ok(m)
}

/// What is declared behind some events.
fn declare_events(alloc: Global, line: u32, items: &[Item], mut m: Globals) -> Result<Globals, Stop>
    ensures { Tells (all_in_turn (event_declared line) items.now m) result }
{
    for item in items {
        m = declare_event(alloc, line, item, m)?;
    }
    Ok(m)
}

/// What is declared behind some teams.
fn declare_teams(alloc: Global, line: u32, names: &[Text], mut m: Globals) -> Result<Globals, Stop>
    ensures { Tells (all_in_turn (team_declared line) names.now m) result }
{
    for name in names {
        m = declare_team(alloc, line, name.as_str(), m)?;
    }
    Ok(m)
}

/// What is declared behind one declaration more.
fn declare(alloc: Global, declaration: &Decl, m: Globals) -> Result<Globals, Stop>
    ensures { Tells (declare_meant declaration.now m) result }
{
    match declaration {
        Decl::Parameters { line, kind, values } => {
            declare_parameters(alloc, *line, kind_meant(*kind), values.as_slice(), m)
        }
        Decl::Copointers { line, kind, names } => {
            declare_copointers(alloc, *line, kind_meant(*kind), names.as_slice(), m)
        }
        Decl::Dummies { line, names, .. } => {
            refuse_names(alloc, *line, names.as_slice())?;
            Ok(m)
        }
        Decl::Variables { line, kind, items } => {
            declare_variables(alloc, *line, kind_meant(*kind), items.as_slice(), m)
        }
        Decl::Events { line, items } => declare_events(alloc, *line, items.as_slice(), m),
        Decl::Teams { line, names } => declare_teams(alloc, *line, names.as_slice(), m),
    }
}

/// What the declarations of the main program declare.
pub fn declare_globals(alloc: Global, declarations: &[Decl]) -> Result<Globals, Stop>
    ensures { Tells (globals_of declarations.now) result }
{
    let mut m = Globals {
        names: Table::new(alloc),
        objects: Sequence::new(alloc),
        labels: Sequence::new(alloc),
        cells: 0,
    };
    for declaration in declarations {
        m = declare(alloc, declaration, m)?;
    }
    Ok(m)
}
