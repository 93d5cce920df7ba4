mod checks;
mod forms;

use caf_lexer::tokens;
use caf_outside::{MemHost, MemSink};
use caf_parser::unit;
use caf_printer::print_unit;
use caf_top::{Order, caf_serial};
use caf_tree::unit::Unit;
use std::alloc::Global;
use std::process::Abort;
use std::test::Fail;

/// The longest report of these tables, in bytes.
const ROOM: usize = 1000;

/// The status of a check, and what it writes.
pub(crate) fn checked<R: Abort>(
    rt: &R,
    alloc: Global,
    images: u32,
    text: &[u8],
    trace: &[u8],
) -> Result<(u8, Vec<u8>), Fail> {
    assert!(rt; 1 <= images && images <= 64);
    let mut host = MemHost::new(alloc, &[], 0, 0)?;
    host.hold(alloc, "p", text)?;
    host.hold(alloc, "t", trace)?;
    let mut out = MemSink::new(alloc, &[], 1000, ROOM)?;
    let order = Order::Check {
        file: "p",
        images,
        trace: "t",
    };
    let ended = caf_serial(alloc, &order, &mut host, &mut out);
    Ok((ended.status, Vec::from_slice(alloc, out.bytes())?))
}

/// The tree of a text.
fn tree_of<R: Abort>(rt: &R, alloc: Global, text: &[u8]) -> Result<Unit, Fail> {
    assert!(rt; text.len() < 10_000);
    let tokens = tokens(alloc, text)?;
    Ok(unit(alloc, tokens.as_slice())?)
}

/// The print of a text.
pub(crate) fn printed_again<R: Abort>(rt: &R, alloc: Global, text: &[u8]) -> Result<Vec<u8>, Fail> {
    let unit = tree_of(rt, alloc, text)?;
    Ok(print_unit(alloc, &unit)?)
}
