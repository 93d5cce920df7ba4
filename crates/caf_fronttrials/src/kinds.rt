use caf_base::{Memory, Text};
use caf_kinds::{KindFault, resolve};
use caf_tree::expr::{Expr, Variable};
use caf_tree::stmt::{Simple, Stmt};
use caf_tree::unit::{Decl, Item, Unit, ValueKind};
use sqlite_items::Items;
use std::alloc::Global;
use std::process::Abort;
use std::test::Fail;

/// `integer :: NAME` on line 2.
fn declaration(alloc: Global, name: &str) -> Result<Items<Decl>, Memory> {
    let item = Item {
        name: Text::copy_of(alloc, name)?,
        bounds: None,
        shared: false,
    };
    let mut items = Items::new(alloc);
    items.push(item)?;
    let mut all = Items::new(alloc);
    all.push(Decl::Variables {
        line: 2,
        kind: ValueKind::Integer,
        items,
    })?;
    Ok(all)
}

/// `x = 1` on line 3.
fn assignment(alloc: Global) -> Result<Items<Stmt>, Memory> {
    let target = Variable {
        name: Text::copy_of(alloc, "x")?,
        subscript: None,
        place: None,
    };
    let action = Simple::Assign {
        target,
        value: Expr::Number(1),
    };
    let mut all = Items::new(alloc);
    all.push(Stmt::Simple { line: 3, action })?;
    Ok(all)
}

fn unit(alloc: Global, declared: &str) -> Result<Unit, Memory> {
    let name = Text::copy_of(alloc, "p")?;
    let declarations = declaration(alloc, declared)?;
    let body = assignment(alloc)?;
    Ok(Unit {
        name,
        declarations,
        body,
        subs: Items::new(alloc),
    })
}

/// The number of objects, or the line and name of what isn't declared.
fn expect<R: Abort>(
    rt: &R,
    answer: &Result<caf_program::Program, KindFault>,
    wanted: Result<usize, u32>,
) {
    match answer {
        Ok(program) => assert_eq!(rt; Ok(program.objects.len()), wanted),
        Err(KindFault::Undeclared(line, name)) => {
            assert_eq!(rt; Err(*line), wanted);
            assert_eq!(rt; name.as_str(), "x");
        }
        Err(_) => assert!(rt; false, "another fault"),
    }
}

#[test]
fn a_name_is_declared_before_it_is_assigned(rt: HostRuntime) -> Result<(), Fail> {
    let alloc = rt.alloc();
    expect(&rt, &resolve(alloc, &unit(alloc, "x")?), Ok(1));
    expect(&rt, &resolve(alloc, &unit(alloc, "y")?), Err(3));
    Ok(())
}
