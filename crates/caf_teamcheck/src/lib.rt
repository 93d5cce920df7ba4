//! Whether what a program ships is plain: a shipped subroutine, and what it reaches by calls, holds no `finish` and no
//! `team_split`, and its dummies are all `intent(in)`.
//!
//! What is reached is told in `caf_program` by paths of calls. Here marks spread along the calls until nothing
//! changes, which takes no stack, and ends where subroutines call one another in a circle.
#![tactic(auto)]

mod calls;
mod check;
mod fault;
mod marks;
mod part;
mod shipped;
mod site;

pub use check::{a_fault_breaks_a_rule, check_ships};
pub use fault::ShipFault;
