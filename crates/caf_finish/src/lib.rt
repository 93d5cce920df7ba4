//! The finishes that one image takes part in: its counts of messages, the waves, and the sums that it gathers. Lists of
//! what happens in a finish over a team, their rules, and what is true of every list that keeps them.
#![tactic(auto)]

mod adding;
mod auditing;
mod counted;
mod desk;
mod event;
mod known;
mod law;
mod ledger;
mod message_state;
mod progress;
mod rank_state;
mod rules;
mod verdict;
mod wave_totals;

pub use auditing::audit;
pub use caf_base::Memory;
pub use caf_epochs::Four;
pub use caf_reduce::Given;
pub use counted::Counted;
pub use desk::FinishDesk;
pub use event::FinishEvent;
pub use law::{accounts_follow_the_events, kept_lists_are_sound};
pub use verdict::Audit;
