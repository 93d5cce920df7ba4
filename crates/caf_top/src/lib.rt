//! The two calls that do all that the program does: one from the words of a command line, one from an order.
//!
//! `specs/Sees.antt` says when bytes are the text of an accepted program, `specs/Refusals.antt` why they are none, and
//! `specs/Promise.antt` what is written and what the status tells.
#![tactic(auto)]

mod answer;
mod check;
mod ended;
mod job;
mod law;
mod main_call;
mod output;
mod read;
mod refusal;
mod serial;

pub use caf_base::Four;
pub use caf_journal::Entry;
pub use caf_words::{Asked, Order, WordFault, read_words};
pub use ended::Ended;
pub use job::is_built;
pub use law::{a_text_means_one_program, a_wrong_text_means_no_program};
pub use main_call::caf_main;
pub use serial::caf_serial;
