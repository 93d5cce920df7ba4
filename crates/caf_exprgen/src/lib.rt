//! Code for expressions.
//!
//! `specs/ExprCode.antt` has the instructions of each expression and of its reads, `specs/Leaves.antt` and
//! `specs/Asks.antt` say what they do, and `specs/Straight.antt` what they keep of the rules of a code.
#![tactic(auto)]

mod ask;
mod expr;
mod law;

pub use ask::{gen_reads, place_form};
pub use expr::{gen_expr, named};
pub use law::codes_leave_values;
