//! The source machine led by a journal: what the choices of a trace come to.
//!
//! `specs/Choices.antt` says which choices a journal makes, and `specs/Checked.antt` what a trace comes to.
#![tactic(auto)]

mod checked;
mod choice;
mod led;

pub use checked::{Checked, check_trace};
pub use choice::choice_of;
pub use led::{Led, led_by};
