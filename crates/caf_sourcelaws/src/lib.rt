//! Laws of the source machine's runs: what its definitions make true of every state to which choices lead.
#![tactic(auto)]

mod names;

pub use names::pending_names_are_apart;
