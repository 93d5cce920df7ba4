//! Names and what they stand for: the declarations of a program, by the rules on names, kinds, constants and sizes.
//!
//! What a declaration means is an answer, told in `specs/` by one word for each rule: what is declared behind it, or the
//! first rule in written order that is broken, with its line and name.
#![tactic(auto)]

mod constant;
mod fault;
mod frame;
mod globals;
mod heads;
mod operator;
mod symbol;
mod table;

pub use constant::{Declaring, value};
pub use fault::{Fault, Rule, Stop, broken};
pub use frame::{Around, Frame, declare_frame, dummies};
pub use globals::{Globals, Shape, declare_globals, place_behind};
pub use heads::{among, check_dummies, heads_of, signature};
pub use operator::{
    front_spelling, is_kind, kind_meant, of_operator, of_relation, operand_kind, result_kind,
    spelling,
};
pub use symbol::{Constant, Symbol, Taken};
pub use table::Table;
